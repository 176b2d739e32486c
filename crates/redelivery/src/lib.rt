// An event of the record is delivered again: `replay_event` of exchange.rs. It moves what the ledger has and the run of numbers; the depth, and what waits to be published, stay as they are.
#![tactic(auto)]

ghost use Rattle.std.specs.Prelude.{◌≡◌, true, ℕ};
ghost use Rattle.orderbook.specs.declared.Event as E;
ghost use Rattle.orderbook.specs.declared.Event.TheVariants as Event;
ghost use Rattle.orderbook.specs.declared.RejectReason.{RejectReason};
ghost use Rattle.gateway.specs.Ledger.{number_of};
ghost use Rattle.gateway.specs.Core.{in_flight};
ghost use Rattle.gateway.specs.Entry.{nothing};
ghost use Rattle.gateway.specs.Fits.{EventFits};
ghost use Rattle.gateway.specs.Calls.{call, replay_event};
ghost use Rattle.store.specs.Cells as C;
ghost use Rattle.store.specs.Layout.{cell};
ghost use Rattle.store.specs.View.{order, ledger, gateway};
ghost use Rattle.orders.specs.Orders.{Sees};
ghost use Rattle.sound.specs.Sound.{State, Becomes};
ghost use Rattle.outcome.specs.Between.{Between};
ghost use Rattle.outcome.specs.Refusals.{code_of};
ghost use Rattle.outcome.specs.Answers.{verdict, Says};
ghost use Rattle.holds.specs.Holds as Holds;
ghost use Rattle.trades.specs.Trades as Trades;
ghost use Rattle.redelivery.specs.Redelivery as P;

use delivery::Tests;
use holds::{Move, Shift};
use orderbook::{Event, Side};
use outcome::Refusal;
use trades::Deal;

// The refusal of the first test that fails: those of delivering that do not look at the depth or at what waits.
fn judge(m: &[u8], n: u64, below: bool, numbers: bool, holds: bool) -> Result<(), Refusal>
    requires { State m.now }
    ensures { code_of result ≡ verdict (P.tests n below numbers holds (gateway (cell m.now))) }
{
    let alone = replay::is_alone(m);
    let flying = delivery::is_flying(m, n);
    delivery::check(alone, Refusal::Sequence)?;
    delivery::judge(Tests {
        flying,
        below,
        numbers,
        agrees: true,
        holds,
        levels: true,
        depth: true,
        trades: true,
        notices: true,
        room: true,
    })
}

// ---- no order changes

fn still(m: &mut [u8], n: u64, below: bool, numbers: bool) -> Result<(), Refusal>
    requires { Between m.old }
    ensures { (e : E.Event) → P.Still n below numbers e (gateway (cell m.old)) → Says nothing (call (gateway (cell m.old)) (replay_event n e)) (code_of result) m.old m.new }
{
    judge(m, n, below, numbers, true)?;
    delivery::land(m, n);
    Ok(())
}

fn mass_cancelled(m: &mut [u8], n: u64, owner: u32) -> Result<(), Refusal>
    requires { Between m.old }
    ensures { (count : ℕ) → Says nothing (call (gateway (cell m.old)) (replay_event n (Event.MassCancelled owner count))) (code_of result) m.old m.new }
{
    let below = delivery::is_owner(m, owner as u64);
    still(m, n, below, true)
}

// ---- one order changes

fn apply_one(m: &mut [u8], n: u64, id: u64, at: Option<usize>, x: Move)
    requires { State m.old × Sees C.order_live order number_of (cell m.old) id at × (in_flight n (gateway (cell m.old)).core ≡ true) }
    ensures { Becomes m.new (P.moved n id x (gateway (cell m.old))) }
{
    holds::change(m, id, at, x);
    delivery::land(m, n);
}

fn one(m: &mut [u8], n: u64, id: u64, x: Move) -> Result<(), Refusal>
    requires { Between m.old }
    ensures { (e : E.Event) → P.Moves n id x e → Says nothing (call (gateway (cell m.old)) (replay_event n e)) (code_of result) m.old m.new }
{
    let at = orders::find_live(m, id);
    let h = holds::weigh_move(m, id, at, x);
    let fits = holds::fits(m, h);
    judge(m, n, true, id <= n, fits)?;
    apply_one(m, n, id, at, x);
    Ok(())
}

// A new order is refused: it ends. Another command is: nothing changes.
fn rejected(m: &mut [u8], n: u64, id: u64) -> Result<(), Refusal>
    requires { Between m.old }
    ensures { (why : RejectReason) → Says nothing (call (gateway (cell m.old)) (replay_event n (Event.Rejected id why))) (code_of result) m.old m.new }
{
    if id == n {
        return one(m, n, n, Move::Retire);
    }
    let numbers = acknowledgements::names_earlier(m, n, id);
    still(m, n, true, numbers)
}

// That the quantity fits comes of its type.
fn rested(m: &mut [u8], n: u64, id: u64, qty: u64) -> Result<(), Refusal>
    requires { Between m.old }
    ensures { (e : E.Event) → P.Rests id qty e → Says nothing (call (gateway (cell m.old)) (replay_event n e)) (code_of result) m.old m.new }
{
    one(m, n, id, Move::Leaves { leaves: qty })
}

fn modified(m: &mut [u8], n: u64, id: u64, price: i64, leaves: u64) -> Result<(), Refusal>
    requires { Between m.old }
    ensures { (qty : ℕ) → Says nothing (call (gateway (cell m.old)) (replay_event n (Event.Modified id price qty leaves))) (code_of result) m.old m.new }
{
    let p = bookevents::price_of(price, leaves);
    one(m, n, id, Move::Reprice { price: p, leaves })
}

// ---- a trade

fn judge_trade(m: &[u8], n: u64, d: Deal, taker: Shift, maker: Shift) -> Result<(), Refusal>
    requires { Between m.now × Holds.Owned taker (ledger (cell m.now)) × Holds.Owned maker (ledger (cell m.now)) }
    ensures { code_of result ≡ verdict (P.trade_tests n d taker maker (gateway (cell m.now))) }
{
    let numbers = trades::numbers_agree(n, d.taker, d.maker);
    let fits = holds::pair_fits(m, taker, maker);
    judge(m, n, true, numbers, fits)
}

// The taker, which is at `at`, before the maker, which its fill leaves where it is.
fn settle(m: &mut [u8], d: Deal, at: Option<usize>, maker_at: Option<usize>)
    requires { State m.old × P.Stand d at maker_at m.old }
    ensures { Becomes m.new (P.settled d (gateway (cell m.old))) }
{
    holds::change(
        m,
        d.taker,
        at,
        Move::Fill {
            price: d.price,
            qty: d.qty,
            leaves: d.taker_leaves,
        },
    );
    holds::change(
        m,
        d.maker,
        maker_at,
        Move::Fill {
            price: d.price,
            qty: d.qty,
            leaves: d.maker_leaves,
        },
    );
}

fn apply_trade(
    m: &mut [u8],
    n: u64,
    d: Deal,
    at: Option<usize>,
    maker_at: Option<usize>,
    both: bool,
)
    requires { State m.old × P.Stand d at maker_at m.old × (in_flight n (gateway (cell m.old)).core ≡ true) }
    ensures { Becomes m.new (P.dealt n d both (gateway (cell m.old))) }
{
    settle(m, d, at, maker_at);
    trades::mark(m, both, d.price);
    delivery::land(m, n);
}

fn deal(m: &mut [u8], n: u64, d: Deal) -> Result<(), Refusal>
    requires { Between m.old × EventFits (Trades.event_of d) }
    ensures { Says nothing (call (gateway (cell m.old)) (replay_event n (Trades.event_of d))) (code_of result) m.old m.new }
{
    let at = orders::find_live(m, d.taker);
    let maker_at = orders::find_live(m, d.maker);
    let taker = holds::weigh_move(
        m,
        d.taker,
        at,
        Move::Fill {
            price: d.price,
            qty: d.qty,
            leaves: d.taker_leaves,
        },
    );
    let maker = holds::weigh_move(
        m,
        d.maker,
        maker_at,
        Move::Fill {
            price: d.price,
            qty: d.qty,
            leaves: d.maker_leaves,
        },
    );
    judge_trade(m, n, d, taker, maker)?;
    apply_trade(m, n, d, at, maker_at, taker.funded & maker.funded);
    Ok(())
}

fn trade(
    m: &mut [u8],
    n: u64,
    id: u64,
    taker: u64,
    maker: u64,
    side: Side,
    price: i64,
    qty: u64,
    taker_leaves: u64,
    maker_leaves: u64,
) -> Result<(), Refusal>
    requires { Between m.old }
    ensures { Says nothing (call (gateway (cell m.old)) (replay_event n (Event.Trade id taker maker side price qty taker_leaves maker_leaves))) (code_of result) m.old m.new }
{
    let d = trades::deal_of(
        id,
        taker,
        maker,
        side,
        price,
        qty,
        taker_leaves,
        maker_leaves,
    );
    deal(m, n, d)
}

// ---- the call

pub fn replay_event(m: &mut [u8], n: u64, e: Event) -> Result<(), Refusal>
    requires { Between m.old }
    ensures { Says nothing (call (gateway (cell m.old)) (replay_event n e)) (code_of result) m.old m.new }
{
    match e {
        Event::Accepted { id } => still(m, n, true, id <= n),
        Event::Rejected { id, .. } => rejected(m, n, id),
        Event::Trade {
            trade_id,
            taker,
            maker,
            taker_side,
            price,
            qty,
            taker_leaves,
            maker_leaves,
        } => trade(
            m,
            n,
            trade_id,
            taker,
            maker,
            taker_side,
            price,
            qty,
            taker_leaves,
            maker_leaves,
        ),
        Event::Rested { id, qty, .. } => rested(m, n, id, qty),
        Event::Replenished { id, .. } => still(m, n, true, id <= n),
        Event::Cancelled { id, .. } => one(m, n, id, Move::Retire),
        Event::Modified {
            id,
            price,
            leaves,
            ..
        } => modified(m, n, id, price, leaves),
        Event::StopPlaced { id, .. } => still(m, n, true, id <= n),
        Event::Triggered { id } => still(m, n, true, id <= n),
        Event::MassCancelled { owner, .. } => mass_cancelled(m, n, owner),
        Event::PhaseChanged { .. } => still(m, n, true, true),
    }
}
