// A trade of two orders: the taker is settled and reported before the maker (`deliver` of exchange.rs).
#![tactic(auto)]

ghost use Rattle.std.specs.Prelude.{◌≡◌, ◌+◌, ◌≤◌, ◌<◌, length};
ghost use Rattle.orderbook.specs.declared.Event.TheVariants as Event;
ghost use Rattle.gateway.specs.Depth as D;
ghost use Rattle.gateway.specs.Ledger.{number_of};
ghost use Rattle.gateway.specs.Limits.{most_trades};
ghost use Rattle.gateway.specs.Calls.{call, deliver_event};
ghost use Rattle.gateway.specs.Fits.{EventFits};
ghost use Rattle.store.specs.Cells as C;
ghost use Rattle.store.specs.Layout.{cell};
ghost use Rattle.store.specs.View.{order, resting, depth, gateway};
ghost use Rattle.orders.specs.Orders.{Sees};
ghost use Rattle.sound.specs.Sound.{State, Becomes, InPlace};
ghost use Rattle.mailbox.specs.Mailbox.{places};
ghost use Rattle.outcome.specs.Between.{Between};
ghost use Rattle.outcome.specs.Refusals.{code_of};
ghost use Rattle.outcome.specs.Answers.{verdict, Gives};
ghost use Rattle.reporting.specs.Reporting.{InSlots, told_rows};
ghost use Rattle.delivery.specs.Delivery as Delivery;
ghost use Rattle.trades.specs.Trades as P;

use delivery::Tests;
use holds::Shift;
use orderbook::Side;
use orders::Places;
use outcome::Refusal;
use pending::Trade;
use protocol::ReportKind;
use reporting::Told;
use store::{cells, limits};

// What a trade says: the side as its code, the price as a word.
#[derive(Clone, Copy)]
pub struct Deal {
    pub id: u64,
    pub taker: u64,
    pub maker: u64,
    pub side: u64,
    pub price: u64,
    pub qty: u64,
    pub taker_leaves: u64,
    pub maker_leaves: u64,
}

// What is found of one of its orders.
#[derive(Clone, Copy)]
pub struct Party {
    pub live: Option<usize>,
    pub resting: Option<usize>,
    pub shift: Shift,
    pub told: Told,
}

// That price and quantities fit comes of their types.
pub fn deal_of(
    id: u64,
    taker: u64,
    maker: u64,
    side: Side,
    price: i64,
    qty: u64,
    taker_leaves: u64,
    maker_leaves: u64,
) -> Deal
    ensures { P.Says (Event.Trade id taker maker side price qty taker_leaves maker_leaves) result }
{
    let code = side as u64;
    let word = words::of_i64(price);
    Deal {
        id,
        taker,
        maker,
        side: code,
        price: word,
        qty,
        taker_leaves,
        maker_leaves,
    }
}

// ---- judged

// Two orders, neither later than the command.
pub fn numbers_agree(n: u64, taker: u64, maker: u64) -> bool
    ensures { result ≡ P.numbers n taker maker }
{
    if taker == maker {
        return false;
    }
    if taker <= n {
        return maker <= n;
    }
    false
}

// The trade is at most what each shows, where it rests.
fn both_show(m: &[u8], d: Deal, maker_at: Option<usize>, taker_at: Option<usize>) -> bool
    requires { Between m.now × Sees C.order_resting resting D.resting_number (cell m.now) d.maker maker_at × Sees C.order_resting resting D.resting_number (cell m.now) d.taker taker_at }
    ensures { result ≡ P.both_show d (depth (cell m.now)) }
{
    if shows::covers(m, d.maker, maker_at, d.qty) {
        return shows::covers(m, d.taker, taker_at, d.qty);
    }
    false
}

// Code 5: room for one trade more.
fn has_room(m: &[u8]) -> bool
    requires { State m.now }
    ensures { result ≡ P.tick_fits (gateway (cell m.now)) }
{
    pending::header::word_at(m, cells::TRADE_ROWS) < limits::MOST_TRADES
}

// Code 5: room for the notices of both.
fn few_notices(m: &[u8], taker: Shift, maker: Shift) -> bool
    requires { State m.now × (taker.notices ≤ 2) × (maker.notices ≤ 2) }
    ensures { result ≡ P.few_notices taker maker (gateway (cell m.now)) }
{
    holds::few(m, taker.notices + maker.notices)
}

fn judge(m: &[u8], n: u64, d: Deal, taker: Party, maker: Party, room: usize) -> Result<(), Refusal>
    requires { Between m.now × P.Stands d.taker (P.taker_fill d) taker m.now × P.Stands d.maker (P.maker_fill d) maker m.now }
    ensures { code_of result ≡ verdict (Delivery.tests (P.trade_tests n d taker maker room (gateway (cell m.now)))) }
{
    let taker_at = taker.resting;
    let maker_at = maker.resting;
    let flying = delivery::is_flying(m, n);
    let numbers = numbers_agree(n, d.taker, d.maker);
    let agrees = both_show(m, d, maker_at, taker_at);
    let fits = holds::both_fit(m, taker.shift, maker.shift);
    let depth = shows::pair_room(m, d.maker, maker_at, d.taker, taker_at);
    let trades = has_room(m);
    let few = few_notices(m, taker.shift, maker.shift);
    let first = reporting::rows(taker.told);
    let second = reporting::rows(maker.told);
    delivery::judge(Tests {
        flying,
        below: true,
        numbers,
        agrees,
        holds: fits,
        levels: true,
        depth,
        trades,
        notices: few,
        room: first + second <= room,
    })
}

// ---- applied

// The taker before the maker, which its fill leaves where it is.
fn settle(
    m: &mut [u8],
    d: Deal,
    at: Option<usize>,
    new: u64,
    maker_at: Option<usize>,
    maker_new: u64,
)
    requires { State m.old × Sees C.order_live order number_of (cell m.old) d.taker at × Sees C.order_live order number_of (cell m.old) d.maker maker_at × P.CanSettle d new maker_new (gateway (cell m.old)) }
    ensures { InPlace m.old m.new (P.settled d (gateway (cell m.old))) }
{
    holds::fill(m, d.taker, at, new, d.price, d.qty, d.taker_leaves);
    holds::fill(
        m,
        d.maker,
        maker_at,
        maker_new,
        d.price,
        d.qty,
        d.maker_leaves,
    );
}

// Paper accounts that trade with each other do not move the reference price.
pub fn mark(m: &mut [u8], both: bool, price: u64)
    requires { State m.old }
    ensures { InPlace m.old m.new (P.marked both price (gateway (cell m.old))) }
{
    if both {
        return;
    }
    pending::header::set_mark(m, price);
}

// The trade waits to be published.
fn push(m: &mut [u8], n: u64, d: Deal)
    requires { State m.old × (length (gateway (cell m.old)).rest.trades < most_trades) }
    ensures { Becomes m.new (P.ticked n d (gateway (cell m.old))) }
{
    pending::push_trade(
        m,
        Trade {
            seq: n,
            trade_id: d.id,
            side: d.side,
            price: d.price,
            qty: d.qty,
        },
    );
}

fn apply(m: &mut [u8], n: u64, d: Deal, taker: Party, maker: Party, both: bool)
    requires { State m.old × P.Stands d.taker (P.taker_fill d) taker m.old × P.Stands d.maker (P.maker_fill d) maker m.old × P.CanDeal n d (gateway (cell m.old)) }
    ensures { Becomes m.new (P.dealt n d both (gateway (cell m.old))) }
{
    let live = taker.live;
    let maker_live = maker.live;
    let at = taker.resting;
    let maker_at = maker.resting;
    settle(m, d, live, taker.shift.new, maker_live, maker.shift.new);
    mark(m, both, d.price);
    marketdata::on_trade(
        m,
        d.taker,
        at,
        d.maker,
        maker_at,
        d.qty,
        d.taker_leaves,
        d.maker_leaves,
    );
    push(m, n, d);
    delivery::land(m, n);
}

// ---- reported

fn fill_of(d: Deal, side: Side, leaves: u64) -> ReportKind
    ensures { result ≡ P.fill_kind d side leaves }
{
    ReportKind::Fill {
        trade_id: d.id,
        side,
        price: words::to_i64(d.price),
        qty: d.qty,
        leaves,
    }
}

// The taker's report, then the maker's: how many rows they are.
fn tell(m: &mut [u8], out: &mut [u8], n: u64, d: Deal, taker: Told, maker: Told) -> usize
    requires { State m.old × InSlots taker.to × InSlots maker.to × (told_rows taker + told_rows maker ≤ places (length out.old)) }
    ensures { P.Reports n d taker maker result m.old m.new out.old out.new }
{
    let side = store::side_of(d.side);
    let first = fill_of(d, side, d.taker_leaves);
    let second = fill_of(d, side.opposite(), d.maker_leaves);
    let i = reporting::rows(taker);
    let k = reporting::rows(maker);
    reporting::report(m, out, 0, n, d.taker, taker, first);
    reporting::report(m, out, i, n, d.maker, maker, second);
    i + k
}

// ---- the call

// In steps, each a function, so that what is found of the orders is handed on in registers: where they stand (`deliver`), what they hold
// (`weigh`), whom they are reported to (`find_owners`); then they are judged, applied and reported.
fn decide(
    m: &mut [u8],
    n: u64,
    d: Deal,
    taker: Party,
    maker: Party,
    out: &mut [u8],
) -> Result<usize, Refusal>
    requires { Between m.old × EventFits (P.event_of d) × P.Stands d.taker (P.taker_fill d) taker m.old × P.Stands d.maker (P.maker_fill d) maker m.old }
    ensures { Gives (call (gateway (cell m.old)) (deliver_event n (P.event_of d) (places (length out.old)))) result m.old m.new out.old out.new }
{
    judge(m, n, d, taker, maker, mailbox::room(out))?;
    apply(
        m,
        n,
        d,
        taker,
        maker,
        taker.shift.funded & maker.shift.funded,
    );
    let count = tell(m, out, n, d, taker.told, maker.told);
    Ok(count)
}

fn find_owners(
    m: &mut [u8],
    n: u64,
    d: Deal,
    at: Places,
    shift: Shift,
    maker_at: Places,
    maker_shift: Shift,
    out: &mut [u8],
) -> Result<usize, Refusal>
    requires { Between m.old × EventFits (P.event_of d) × P.Weighed d.taker (P.taker_fill d) at shift m.old × P.Weighed d.maker (P.maker_fill d) maker_at maker_shift m.old }
    ensures { Gives (call (gateway (cell m.old)) (deliver_event n (P.event_of d) (places (length out.old)))) result m.old m.new out.old out.new }
{
    let live = at.live;
    let resting = at.resting;
    let maker_live = maker_at.live;
    let maker_resting = maker_at.resting;
    let told = reporting::owner(m, d.taker, live);
    let maker_told = reporting::owner(m, d.maker, maker_live);
    let taker = Party {
        live,
        resting,
        shift,
        told,
    };
    let maker = Party {
        live: maker_live,
        resting: maker_resting,
        shift: maker_shift,
        told: maker_told,
    };
    decide(m, n, d, taker, maker, out)
}

fn weigh(
    m: &mut [u8],
    n: u64,
    d: Deal,
    at: Places,
    maker_at: Places,
    out: &mut [u8],
) -> Result<usize, Refusal>
    requires { Between m.old × EventFits (P.event_of d) × P.Seen d.taker at m.old × P.Seen d.maker maker_at m.old }
    ensures { Gives (call (gateway (cell m.old)) (deliver_event n (P.event_of d) (places (length out.old)))) result m.old m.new out.old out.new }
{
    let live = at.live;
    let maker_live = maker_at.live;
    let new = holds::left(m, d.taker, live, false, 0, d.taker_leaves);
    let shift = holds::weigh(m, d.taker, live, 1, new);
    let maker_new = holds::left(m, d.maker, maker_live, false, 0, d.maker_leaves);
    let maker_shift = holds::weigh(m, d.maker, maker_live, 1, maker_new);
    find_owners(m, n, d, at, shift, maker_at, maker_shift, out)
}

fn deliver(m: &mut [u8], n: u64, d: Deal, out: &mut [u8]) -> Result<usize, Refusal>
    requires { Between m.old × EventFits (P.event_of d) }
    ensures { Gives (call (gateway (cell m.old)) (deliver_event n (P.event_of d) (places (length out.old)))) result m.old m.new out.old out.new }
{
    let at = orders::look(m, d.taker);
    let maker_at = orders::look(m, d.maker);
    weigh(m, n, d, at, maker_at, out)
}

pub fn trade(
    m: &mut [u8],
    n: u64,
    id: u64,
    taker: u64,
    maker: u64,
    side: Side,
    price: i64,
    qty: u64,
    taker_leaves: u64,
    maker_leaves: u64,
    out: &mut [u8],
) -> Result<usize, Refusal>
    requires { Between m.old }
    ensures { Gives (call (gateway (cell m.old)) (deliver_event n (Event.Trade id taker maker side price qty taker_leaves maker_leaves) (places (length out.old)))) result m.old m.new out.old out.new }
{
    let d = deal_of(
        id,
        taker,
        maker,
        side,
        price,
        qty,
        taker_leaves,
        maker_leaves,
    );
    deliver(m, n, d, out)
}
