// The rows of the checkpoint: fields of fixed widths, one behind the other.
ghost use Rattle.std.specs.Prelude.{◌≡◌, [], ◌∷◌, ◌+◌, ◌*◌, ◌^◌, ◌≤◌, ◌<◌, length};
ghost use Rattle.words.specs.Words.{int};
ghost use Rattle.le.specs.Row.{puts};
ghost use Rattle.gateway.specs.Bytes.{head_widths, price_flag, price_word, buy_flag};
ghost use Rattle.store.specs.View.{side, maybe_price};
ghost use Rattle.orders.specs.Orders.{order_of};
ghost use Rattle.checkpoint.specs.Put as P;

use orders::Live;

// An order's flags: bit 0 buy, bit 1 price present.
fn pack(buy: u8, priced: u8) -> u8
    requires { (buy < 2) × (priced < 2) }
    ensures { result ≡ buy + 2 * priced }
{
    buy | priced << 1
}

fn buy_flag(code: u64) -> u8
    ensures { (result ≡ buy_flag (side code)) × (result < 2) }
{
    if code == 0 { 1 } else { 0 }
}

// 1 where there is a price.
fn price_flag(priced: u64, price: u64) -> u8
    ensures { (result ≡ price_flag (maybe_price priced price)) × (result < 2) }
{
    if priced == 0 { 0 } else { 1 }
}

// 0 where there is none.
fn price_word(priced: u64, price: u64) -> u64
    ensures { result ≡ price_word (maybe_price priced price) }
{
    if priced == 0 { 0 } else { price }
}

fn flags_of(o: Live) -> u8
    ensures { result ≡ buy_flag (side o.side) + 2 * price_flag (maybe_price o.priced o.price) }
{
    let buy = buy_flag(o.side);
    let priced = price_flag(o.priced, o.price);
    pack(buy, priced)
}

// ---- rows

fn put_head_row(out: &mut [u8], last: u64, marked: u8, mark: u64)
    requires { 17 ≤ length out.old }
    ensures { out.new ≡ puts head_widths out.old 0 (last ∷ marked ∷ mark ∷ []) }
{
    le::put_u64(out, 0, last);
    le::put_u8(out, 8, marked);
    le::put_u64(out, 9, mark);
}

pub fn put_head(out: &mut [u8], last: u64, marked: u64, mark: u64)
    requires { 17 ≤ length out.old }
    ensures { out.new ≡ P.put_bytes 0 (P.head_bytes last (maybe_price marked mark)) out.old }
{
    let present = price_flag(marked, mark);
    let price = price_word(marked, mark);
    put_head_row(out, last, present, price);
}

pub fn put_wallet(out: &mut [u8], o: usize, account: u32, cash: u64, position: u64)
    requires { o + 20 ≤ length out.old }
    ensures { out.new ≡ P.put_bytes o (P.wallet_bytes (account, record { cash = int cash; position = int position })) out.old }
{
    let o1 = o + 4;
    let o2 = o1 + 8;
    le::put_u32(out, o, account);
    le::put_u64(out, o1, cash);
    le::put_u64(out, o2, position);
}

// The first and the last three fields of an order.
fn put_name(out: &mut [u8], o: usize, number: u64, account: u32, client_ref: u64)
    requires { o + 20 ≤ length out.old }
    ensures { out.new ≡ puts (8 ∷ 4 ∷ 8 ∷ []) out.old o (number ∷ account ∷ client_ref ∷ []) }
{
    let o1 = o + 8;
    let o2 = o1 + 4;
    le::put_u64(out, o, number);
    le::put_u32(out, o1, account);
    le::put_u64(out, o2, client_ref);
}

fn put_terms(out: &mut [u8], o: usize, flags: u8, price: u64, leaves: u64)
    requires { o + 17 ≤ length out.old }
    ensures { out.new ≡ puts (1 ∷ 8 ∷ 8 ∷ []) out.old o (flags ∷ price ∷ leaves ∷ []) }
{
    let o1 = o + 1;
    let o2 = o1 + 8;
    le::put_u8(out, o, flags);
    le::put_u64(out, o1, price);
    le::put_u64(out, o2, leaves);
}

pub fn put_order(out: &mut [u8], o: usize, number: u64, order: Live)
    requires { (order.account < 2 ^ 32) × (o + 37 ≤ length out.old) }
    ensures { out.new ≡ P.put_bytes o (P.order_bytes (order_of number order)) out.old }
{
    let flags = flags_of(order);
    let price = price_word(order.priced, order.price);
    put_name(out, o, number, order.account as u32, order.client_ref);
    put_terms(out, o + 20, flags, price, order.leaves);
}
