// Paper money (crates/gateway/src/wallet.rs): what a paper-trading account owns, and what its open orders hold of it.
// Numbers are words, `int w`.
#![tactic(auto)]

ghost use Rattle.std.specs.Prelude.{◌≡◌, ◌<◌, ◌+ℤ◌, option_map, unwrap_or};
ghost use Rattle.words.specs.Words.{int, amount};
ghost use Rattle.wallet.specs.Wallet as W;

use accounts::Funds;
use orderbook::Side;
use protocol::Balance;

// 2^31: the product of two numbers below it fits.
const SMALL: u64 = 2_147_483_648;

// What qty lots at price + fee cost, if it fits. A sum past 64 bits costs nothing for no lot, and does not fit for any other number of lots.
fn charge_exactly(fee: u64, price: u64, qty: u64) -> Option<u64>
    ensures { amount result ≡ W.cost (int price +ℤ int fee) qty }
{
    match words::total(price, 0, fee) {
        Some(sum) => words::narrow(words::signed_mul(sum, qty)),
        None => { if qty == 0 { Some(0) } else { None } }
    }
}

// The same. The fee and the price are small where `highest` and `bound` are.
fn charge_within(highest: u64, bound: u64, fee: u64, price: u64, qty: u64) -> Option<u64>
    requires fee_small { (highest < W.small → fee < W.small) }
    requires price_small { (bound < W.small → price < W.small) }
    ensures { amount result ≡ W.cost (int price +ℤ int fee) qty }
{
    if highest < SMALL {
        if bound < SMALL {
            if qty < SMALL {
                let amount = (price + fee) * qty;
                return Some(amount);
            }
        }
    }
    charge_exactly(fee, price, qty)
}

// By the side. A choice between two numbers, not a jump: the side cannot be foreseen.
fn pick(side: Side, buy: u64, sell: u64) -> u64
    ensures { result ≡ W.pick side buy sell }
{
    match side {
        Side::Buy => buy,
        Side::Sell => sell,
    }
}

// What a live order holds: nothing without a price, or where the amount does not fit.
pub fn held(fee: u64, side: Side, priced: bool, price: u64, leaves: u64) -> u64
    ensures { int result ≡ W.held side (option_map (W.charged (int fee) side) (W.price_of priced (int price))) leaves }
{
    if priced {
        Wallet::hold_of(fee, side, price, leaves).unwrap_or(0)
    } else {
        0
    }
}

// What a paper-trading account owns and holds.
#[derive(Clone, Copy)]
pub struct Wallet {
    // Cash, in price ticks times lots.
    pub cash: u64,
    // Lots.
    pub position: u64,
    // Cash held for open buy orders.
    pub cash_held: u64,
    // Lots held for open sell orders.
    pub position_held: u64,
}

impl Wallet {
    // A wallet with what funds gives, holding nothing.
    pub fn new(funds: Funds) -> Wallet
        ensures { W.balance_of result ≡ W.new funds }
    {
        Wallet {
            cash: words::of_i64(funds.cash),
            position: words::of_i64(funds.position),
            cash_held: 0,
            position_held: 0,
        }
    }

    // What an order of side with leaves open at price holds: cash for a buy, with the fee, lots for a sell.
    pub fn hold_of(fee: u64, side: Side, price: u64, leaves: u64) -> Option<u64>
        ensures { amount result ≡ W.hold_of side (W.charged (int fee) side (int price)) leaves }
    {
        // A lot at price 1 is itself. The price is tested before it is chosen: a word that is read for a choice alone is read behind a jump.
        charge_within(fee, price, pick(side, fee, 0), pick(side, price, 1), leaves)
    }

    fn owned_on(self, side: Side) -> u64
        ensures { int result ≡ W.owned_on side (W.balance_of self) }
    {
        match side {
            Side::Buy => self.cash,
            Side::Sell => self.position,
        }
    }

    fn held_on(self, side: Side) -> u64
        ensures { int result ≡ W.held_on side (W.balance_of self) }
    {
        match side {
            Side::Buy => self.cash_held,
            Side::Sell => self.position_held,
        }
    }

    fn with_held(self, side: Side, total: u64) -> Wallet
        ensures { W.balance_of result ≡ W.with_held side (int total) (W.balance_of self) }
    {
        match side {
            Side::Buy => Wallet {
                cash: self.cash,
                position: self.position,
                cash_held: total,
                position_held: self.position_held,
            },
            Side::Sell => Wallet {
                cash: self.cash,
                position: self.position,
                cash_held: self.cash_held,
                position_held: total,
            },
        }
    }

    // Whether the wallet can hold amount more on side.
    pub fn covers(self, side: Side, amount: u64) -> bool
        ensures { result ≡ W.covers side (int amount) (W.balance_of self) }
    {
        words::le_sub(amount, self.owned_on(side), self.held_on(side))
    }

    // An order's hold on side changes from old to new.
    pub fn hold(self, side: Side, old: u64, new: u64) -> Option<Wallet>
        ensures { W.changed result ≡ W.hold side (int old) (int new) (W.balance_of self) }
    {
        let total = words::total(self.held_on(side), old, new)?;
        Some(self.with_held(side, total))
    }

    // Settles a trade of qty lots at price by an order of side: a buy pays the fee for each lot.
    pub fn settle(self, fee: u64, side: Side, price: u64, qty: u64) -> Wallet
        ensures { W.balance_of result ≡ W.settled side (W.charged (int fee) side (int price)) qty (W.balance_of self) }
    {
        let amount = charge_within(fee, price, pick(side, fee, 0), price, qty).unwrap_or(
            words::MOST,
        );
        let lots = words::positive(qty).unwrap_or(words::MOST);
        // A buy gives cash for lots, a sell lots for cash.
        let given = words::saturating_sub(
            pick(side, self.cash, self.position),
            pick(side, amount, lots),
        );
        let taken = words::saturating_add(
            pick(side, self.position, self.cash),
            pick(side, lots, amount),
        );
        Wallet {
            cash: pick(side, given, taken),
            position: pick(side, taken, given),
            cash_held: self.cash_held,
            position_held: self.position_held,
        }
    }

    // The wallet, as a client is told it.
    pub fn balance(self) -> Balance
        ensures { result ≡ W.balance_of self }
    {
        Balance {
            cash: words::to_i64(self.cash),
            position: words::to_i64(self.position),
            cash_held: words::to_i64(self.cash_held),
            position_held: words::to_i64(self.position_held),
        }
    }
}
