// A checkpoint's bytes, read: whether they are well formed, what they hold, and the order section as a part of them. Document 01 adds them to the Rust.
#![tactic(auto)]

mod checks;
mod fields;

ghost use Rattle.std.specs.Prelude.{◌≡◌, true, ◌+◌, ◌*◌, ◌≤◌, ◌<◌, length, is_some};
ghost use Rattle.gateway.specs.Limits.{owner_slots, most_orders};
ghost use Rattle.gateway.specs.Bytes.{decode};
ghost use Rattle.store.specs.View.{maybe_price};
ghost use Rattle.saved.specs.Parts as P;
ghost use Rattle.saved.specs.Contents as S;

use orders::Live;

// The reference price: whether there is one, and its word.
#[derive(Clone, Copy)]
pub struct Reference {
    pub marked: u64,
    pub price: u64,
}

// A wallet: its account, and the words of what it owns.
#[derive(Clone, Copy)]
pub struct Purse {
    pub account: u32,
    pub cash: u64,
    pub position: u64,
}

// Whether the bytes are a checkpoint. Where they are not, `restore` answers 11.
pub fn is_whole(xs: &[u8]) -> bool
    ensures { result ≡ is_some (decode xs.now) }
{
    if !checks::is_sized(xs) {
        return false;
    }
    if !checks::head_fits(xs) {
        return false;
    }
    if !checks::wallets_fit(xs) {
        return false;
    }
    checks::orders_fit(xs)
}

// ---- the order section

// Where the rows of the orders start.
fn start(xs: &[u8]) -> usize
    requires { is_some (decode xs.now) ≡ true }
    ensures { S.Start xs.now result }
{
    orders_start(xs)
}

// The rows of the orders, without their count; empty where the bytes are no checkpoint.
pub fn order_section(xs: &[u8]) -> &[u8]
    ensures { result.now ≡ S.order_section xs.now }
{
    if is_whole(xs) {
        let from = start(xs);
        return &xs[from..];
    }
    &xs[0..0]
}

// ---- what the bytes hold

// The last number.
pub fn last(xs: &[u8]) -> u64
    requires { is_some (decode xs.now) ≡ true }
    ensures { result ≡ (S.saved_of xs.now).last }
{
    le::get_u64(xs, 0)
}

// The reference price.
pub fn mark(xs: &[u8]) -> Reference
    requires { is_some (decode xs.now) ≡ true }
    ensures { maybe_price result.marked result.price ≡ (S.saved_of xs.now).mark }
{
    let marked = fields::code_of(le::get_u8(xs, 8));
    let price = le::get_u64(xs, 9);
    Reference { marked, price }
}

// How many wallets there are.
pub fn wallets(xs: &[u8]) -> usize
    requires { is_some (decode xs.now) ≡ true }
    ensures { (result ≡ length (S.saved_of xs.now).wallets) × (result ≤ owner_slots) }
{
    checks::wallet_count(xs)
}

// The wallet j, counted from 0.
pub fn wallet(xs: &[u8], j: usize) -> Purse
    requires { (is_some (decode xs.now) ≡ true) × (j < length (S.saved_of xs.now).wallets) }
    ensures { S.wallet_of result ≡ S.wallet_at xs.now j }
{
    fields::wallet_row(xs, 21 + 20 * j)
}

// How many orders there are.
pub fn orders(xs: &[u8]) -> usize
    requires { is_some (decode xs.now) ≡ true }
    ensures { (result ≡ length (S.saved_of xs.now).orders) × (result ≤ most_orders) }
{
    checks::order_count(xs)
}

fn orders_start(xs: &[u8]) -> usize
    requires { is_some (decode xs.now) ≡ true }
    ensures { (result ≡ P.orders_start xs.now) × (result ≤ length xs.now) }
{
    25 + 20 * checks::wallet_count(xs)
}

// Where the row of the order j starts.
fn order_start(xs: &[u8], j: usize) -> usize
    requires { (is_some (decode xs.now) ≡ true) × (j < length (S.saved_of xs.now).orders) }
    ensures { (result ≡ P.orders_start xs.now + 37 * j) × (result + 37 ≤ length xs.now) }
{
    let from = orders_start(xs);
    from + 37 * j
}

// The number of the order j, counted from 0.
pub fn number(xs: &[u8], j: usize) -> u64
    requires { (is_some (decode xs.now) ≡ true) × (j < length (S.saved_of xs.now).orders) }
    ensures { result ≡ (S.order_at xs.now j).number }
{
    let at = order_start(xs, j);
    le::get_u64(xs, at)
}

// The words of the order j, with a hold of 0.
pub fn order(xs: &[u8], j: usize) -> Live
    requires { (is_some (decode xs.now) ≡ true) × (j < length (S.saved_of xs.now).orders) }
    ensures { S.Reads (S.order_at xs.now j) result }
{
    let at = order_start(xs, j);
    fields::order_row(xs, at)
}
