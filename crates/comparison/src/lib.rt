// Calls for the Rust comparison program: numbers and byte slices in, a code and written bytes out. Words are little-endian; a wallet is cash,
// position, cash held and position held, a bucket its tokens and its time. A refusal writes nothing.
#![tactic(auto)]

ghost use Rattle.std.specs.Prelude.{[], ◌∷◌, ◌≡◌, ◌≤◌, length};
ghost use Rattle.protocol.specs.Codes.{side_of};
ghost use Rattle.risk.specs.Throttle.{take_token};
ghost use Rattle.wallet.specs.Wallet as W;
ghost use Rattle.words.specs.Words.{int, amount};
ghost use Rattle.comparison.specs.Entry as E;
ghost use Rattle.comparison.specs.Entry.{answer, answers};

use orderbook::Side;
use risk::Bucket;
use wallet::Wallet;

const DONE: u32 = 0;

const SHORT: u32 = 6;

const OUTSIDE: u32 = 7;

const MALFORMED: u32 = 11;

fn side_of(code: u32) -> Option<Side>
    ensures { result ≡ side_of code }
{
    if code < 256 {
        Side::try_from(code as u8).ok()
    } else {
        None
    }
}

fn flag(yes: bool) -> u64
    ensures { result ≡ E.flag yes }
{
    yes as u64
}

// Words at the start of an output.
fn write_one(out: &mut [u8], a: u64) -> u32
    ensures { answer result out.new ≡ E.write E.one (a ∷ []) out.old }
{
    if out.len() < 8 {
        return SHORT;
    }
    le::put_u64(out, 0, a);
    DONE
}

fn write_two(out: &mut [u8], a: u64, b: u64) -> u32
    ensures { answer result out.new ≡ E.write E.two (a ∷ b ∷ []) out.old }
{
    if out.len() < 16 {
        return SHORT;
    }
    le::put_u64(out, 0, a);
    le::put_u64(out, 8, b);
    DONE
}

fn write_amount(out: &mut [u8], a: Option<u64>) -> u32
    ensures { answer result out.new ≡ E.write_amount (amount a) out.old }
{
    match a {
        Some(w) => write_two(out, 1, w),
        None => write_two(out, 0, 0),
    }
}

fn read_wallet(m: &[u8]) -> Wallet
    requires { 32 ≤ length m.now }
    ensures { result ≡ E.wallet_in m.now }
{
    Wallet {
        cash: le::get_u64(m, 0),
        position: le::get_u64(m, 8),
        cash_held: le::get_u64(m, 16),
        position_held: le::get_u64(m, 24),
    }
}

fn write_wallet(m: &mut [u8], w: Wallet) -> u32
    requires { 32 ≤ length m.old }
    ensures { answer result m.new ≡ answer E.done (E.put_balance (W.balance_of w) m.old) }
{
    le::put_u64(m, 0, w.cash);
    le::put_u64(m, 8, w.position);
    le::put_u64(m, 16, w.cash_held);
    le::put_u64(m, 24, w.position_held);
    DONE
}

fn write_changed(m: &mut [u8], c: Option<Wallet>) -> u32
    requires { 32 ≤ length m.old }
    ensures { answer result m.new ≡ E.change (W.changed c) m.old }
{
    match c {
        Some(w) => write_wallet(m, w),
        None => OUTSIDE,
    }
}

// What an order holds: two words, whether it fits and the amount.
pub fn entry_hold_of(fee: u64, side: u32, price: u64, leaves: u64, out: &mut [u8]) -> u32
    ensures { answer result out.new ≡ E.hold_of fee side price leaves out.old }
{
    match side_of(side) {
        Some(s) => write_amount(out, Wallet::hold_of(fee, s, price, leaves)),
        None => MALFORMED,
    }
}

fn covers_on(side: Side, amount: u64, wallet: &[u8], out: &mut [u8]) -> u32
    ensures { answer result out.new ≡ E.covers_on side amount wallet.now out.old }
{
    if wallet.len() == 32 {
        let yes = read_wallet(wallet).covers(side, amount);
        return write_one(out, flag(yes));
    }
    MALFORMED
}

pub fn entry_covers(side: u32, amount: u64, wallet: &[u8], out: &mut [u8]) -> u32
    ensures { answer result out.new ≡ E.covers side amount wallet.now out.old }
{
    match side_of(side) {
        Some(s) => covers_on(s, amount, wallet, out),
        None => MALFORMED,
    }
}

fn hold_on(side: Side, old: u64, new: u64, wallet: &mut [u8]) -> u32
    ensures { answer result wallet.new ≡ E.hold_on side old new wallet.old }
{
    if wallet.len() == 32 {
        let changed = read_wallet(wallet).hold(side, old, new);
        return write_changed(wallet, changed);
    }
    MALFORMED
}

// An order's hold changes from old to new.
pub fn entry_hold(side: u32, old: u64, new: u64, wallet: &mut [u8]) -> u32
    ensures { answer result wallet.new ≡ E.hold side old new wallet.old }
{
    match side_of(side) {
        Some(s) => hold_on(s, old, new, wallet),
        None => MALFORMED,
    }
}

fn settle_on(fee: u64, side: Side, price: u64, qty: u64, wallet: &mut [u8]) -> u32
    ensures { answer result wallet.new ≡ E.settle_on fee side price qty wallet.old }
{
    if wallet.len() == 32 {
        let settled = read_wallet(wallet).settle(fee, side, price, qty);
        return write_wallet(wallet, settled);
    }
    MALFORMED
}

pub fn entry_settle(fee: u64, side: u32, price: u64, qty: u64, wallet: &mut [u8]) -> u32
    ensures { answer result wallet.new ≡ E.settle fee side price qty wallet.old }
{
    match side_of(side) {
        Some(s) => settle_on(fee, s, price, qty, wallet),
        None => MALFORMED,
    }
}

pub fn entry_near(price: u64, mark: u64, percent: u32, out: &mut [u8]) -> u32
    ensures { answer result out.new ≡ E.near_mark price mark percent out.old }
{
    write_one(out, flag(risk::near(price, mark, percent as u64)))
}

fn read_bucket(m: &[u8]) -> Bucket
    requires { 16 ≤ length m.now }
    ensures { result ≡ E.bucket_in m.now }
{
    Bucket {
        tokens: le::get_u64(m, 0),
        refilled: le::get_u64(m, 8),
    }
}

fn write_bucket(m: &mut [u8], b: Bucket)
    requires { 16 ≤ length m.old }
    ensures { m.new ≡ E.put_bucket b m.old }
{
    le::put_u64(m, 0, b.tokens);
    le::put_u64(m, 8, b.refilled);
}

fn take(rate: u32, time: u64, bucket: &mut [u8], out: &mut [u8])
    requires { (16 ≤ length bucket.old) × (8 ≤ length out.old) }
    ensures { answers E.done bucket.new out.new ≡ E.took (take_token rate time (E.bucket_in bucket.old)) bucket.old out.old }
{
    let taken = risk::take_token(read_bucket(bucket), rate, time);
    write_bucket(bucket, taken.bucket);
    le::put_u64(out, 0, flag(taken.passed));
}

pub fn entry_take_token(rate: u32, time: u64, bucket: &mut [u8], out: &mut [u8]) -> u32
    ensures { answers result bucket.new out.new ≡ E.take rate time bucket.old out.old }
{
    if bucket.len() != 16 {
        return MALFORMED;
    }
    if out.len() < 8 {
        return SHORT;
    }
    take(rate, time, bucket, out);
    DONE
}

pub fn entry_load(width: u32, at: u64, bytes: &[u8], out: &mut [u8]) -> u32
    ensures { answer result out.new ≡ E.load width at bytes.now out.old }
{
    match le::load(bytes, at as usize, width as usize) {
        Some(v) => write_one(out, v),
        None => MALFORMED,
    }
}

pub fn entry_store(width: u32, at: u64, value: u64, bytes: &mut [u8]) -> u32
    ensures { answer result bytes.new ≡ E.store width at value bytes.old }
{
    let w = width as usize;
    if le::is_width(w) {
        if le::is_small(w, value) {
            if le::store(bytes, at as usize, w, value) {
                return DONE;
            }
            return SHORT;
        }
        return OUTSIDE;
    }
    MALFORMED
}
