// The tests of a checkpoint's bytes: no bytes missing and none behind, counts within their limits, rising keys, and flags and prices that agree.
ghost use Rattle.std.specs.Prelude.{◌≡◌, true, ◌+◌, ◌*◌, ◌^◌, ◌≤◌, ◌<◌, length};
ghost use Rattle.le.specs.Le.{le};
ghost use Rattle.le.specs.Row.{gets};
ghost use Rattle.gateway.specs.Limits.{owner_slots, most_orders};
ghost use Rattle.gateway.specs.Bytes.{wallet_widths, order_widths, price_ok, flags_ok, table_ok};
ghost use Rattle.saved.specs.Parts as P;

use crate::fields;
use store::limits;

const MOST_ORDERS: usize = limits::MOST_ORDERS as usize;

pub fn wallet_count(xs: &[u8]) -> usize
    requires { 21 ≤ length xs.now }
    ensures { (result ≡ P.wallet_count xs.now) × (result < 2 ^ 32) }
{
    le::get_u32(xs, 17) as usize
}

// The count that stands at o.
fn count_at(xs: &[u8], o: usize) -> usize
    requires { o + 4 ≤ length xs.now }
    ensures { (result ≡ le 4 xs.now o) × (result < 2 ^ 32) }
{
    le::get_u32(xs, o) as usize
}

pub fn is_sized(xs: &[u8]) -> bool
    ensures { result ≡ P.sized xs.now }
{
    if xs.len() < 21 {
        return false;
    }
    let at = 21 + 20 * wallet_count(xs);
    if xs.len() < at + 4 {
        return false;
    }
    xs.len() == at + 4 + 37 * count_at(xs, at)
}

pub fn order_count(xs: &[u8]) -> usize
    requires { P.sized xs.now ≡ true }
    ensures { (result ≡ P.order_count xs.now) × (result < 2 ^ 32) }
{
    let at = 21 + 20 * wallet_count(xs);
    count_at(xs, at)
}

pub fn head_fits(xs: &[u8]) -> bool
    requires { P.sized xs.now ≡ true }
    ensures { result ≡ price_ok (le 1 xs.now 8) (le 8 xs.now 9) }
{
    let flag = le::get_u8(xs, 8);
    let price = le::get_u64(xs, 9);
    fields::price_fits(flag, price)
}

// ---- the wallets

// Whether the account of the wallet j is above the one before it.
fn wallet_rises(xs: &[u8], j: usize) -> bool
    requires { 21 + 20 * j + 20 ≤ length xs.now }
    ensures { result ≡ P.row_fits (λ x. true) wallet_widths xs.now P.wallets_start j }
{
    if j == 0 {
        return true;
    }
    let before = le::get_u32(xs, 21 + 20 * (j - 1));
    before < le::get_u32(xs, 21 + 20 * j)
}

fn wallets_rise(xs: &[u8], n: usize) -> bool
    requires { 21 + 20 * n ≤ length xs.now }
    ensures { result ≡ P.rows_fit (λ x. true) (P.rows_at wallet_widths xs.now P.wallets_start n) }
{
    for j in 0..n {
        if !wallet_rises(xs, j) {
            return false;
        }
    }
    true
}

pub fn wallets_fit(xs: &[u8]) -> bool
    requires { P.sized xs.now ≡ true }
    ensures { result ≡ table_ok owner_slots (λ x. true) (P.raw_of xs.now).wallets }
{
    let n = wallet_count(xs);
    if limits::OWNER_SLOTS < n {
        return false;
    }
    wallets_rise(xs, n)
}

// ---- the orders

// Whether the flags and the price of the order at `at` agree.
fn flags_fit(xs: &[u8], at: usize) -> bool
    requires { at + 37 ≤ length xs.now }
    ensures { result ≡ flags_ok (gets order_widths xs.now at) }
{
    let flags = fields::unpack(le::get_u8(xs, at + 20));
    let price = le::get_u64(xs, at + 21);
    fields::price_fits(flags.priced, price)
}

// Whether the number of the order j is above the one before it.
fn order_rises(xs: &[u8], o: usize, j: usize) -> bool
    requires { o + 37 * j + 37 ≤ length xs.now }
    ensures { result ≡ P.rises order_widths xs.now o j }
{
    if j == 0 {
        return true;
    }
    let before = le::get_u64(xs, o + 37 * (j - 1));
    before < le::get_u64(xs, o + 37 * j)
}

fn order_fits(xs: &[u8], o: usize, j: usize) -> bool
    requires { o + 37 * j + 37 ≤ length xs.now }
    ensures { result ≡ P.row_fits flags_ok order_widths xs.now o j }
{
    if order_rises(xs, o, j) {
        return flags_fit(xs, o + 37 * j);
    }
    false
}

fn rows_fit(xs: &[u8], o: usize, n: usize) -> bool
    requires { o + 37 * n ≤ length xs.now }
    ensures { result ≡ P.rows_fit flags_ok (P.rows_at order_widths xs.now o n) }
{
    for j in 0..n {
        if !order_fits(xs, o, j) {
            return false;
        }
    }
    true
}

pub fn orders_fit(xs: &[u8]) -> bool
    requires { P.sized xs.now ≡ true }
    ensures { result ≡ table_ok most_orders flags_ok (P.raw_of xs.now).orders }
{
    let n = order_count(xs);
    if MOST_ORDERS < n {
        return false;
    }
    rows_fit(xs, 25 + 20 * wallet_count(xs), n)
}
