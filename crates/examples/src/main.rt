// The worked examples of document 01 on holds, the collar and the throttle, and 02's on the fee, run through the code. specs/Table.antt has those that are proved.
#![tactic(auto)]

ghost use Rattle.examples.specs.Table.{Examples};

use accounts::Funds;
use orderbook::Side;
use risk::Bucket;
use std::io;
use wallet::Wallet;

fn flag(yes: bool) -> &'static str {
    if yes { " yes" } else { " no" }
}

fn number(rt: &impl Print, w: u64) -> io::Result<()> {
    let n = words::size_of(w);
    let sign = if n.neg { "-" } else { "" };
    print!(rt; " {sign}{}", n.size)
}

// A message at a time, with the bucket 0 at time 0.
fn throttle(rt: &impl Print, rate: u32, now: u64) -> io::Result<()> {
    let taken = risk::take_token(
        Bucket {
            tokens: 0,
            refilled: 0,
        },
        rate,
        now,
    );
    print!(rt; "throttle{}", flag(taken.passed))?;
    number(rt, taken.bucket.tokens)?;
    println!(rt; "")
}

fn collar(rt: &impl Print, price: i64, mark: i64) -> io::Result<()> {
    let near = risk::near(words::of_i64(price), words::of_i64(mark), 10);
    println!(rt; "near{}", flag(near))
}

fn hold(rt: &impl Print, side: Side, price: i64, leaves: u64) -> io::Result<()> {
    print!(rt; "holds")?;
    number(
        rt,
        wallet::held(0, side, true, words::of_i64(price), leaves),
    )?;
    println!(rt; "")
}

fn show(rt: &impl Print, w: Wallet) -> io::Result<()> {
    print!(rt; "cash")?;
    number(rt, w.cash)?;
    print!(rt; " held")?;
    number(rt, w.cash_held)?;
    println!(rt; "")
}

// A buy's hold changes from old to new.
fn change(w: Wallet, old: u64, new: u64) -> Wallet {
    match w.hold(Side::Buy, old, new) {
        Some(changed) => changed,
        None => w,
    }
}

// The buy of 4 at 250, of an account with just the cash for it, fills 2 at 240, and has 2 left.
fn fill(rt: &impl Print, fee: u64) -> io::Result<()> {
    let four = wallet::held(fee, Side::Buy, true, 250, 4);
    let two = wallet::held(fee, Side::Buy, true, 250, 2);
    let placed = change(
        Wallet::new(Funds {
            cash: words::to_i64(four),
            position: 0,
        }),
        0,
        four,
    );
    show(rt, placed)?;
    show(rt, change(placed.settle(fee, Side::Buy, 240, 2), four, two))
}

// A buy at a price far below 0.
fn saturate(rt: &impl Print) -> io::Result<()> {
    let price = words::of_i64(-4611686018427387904);
    let w = Wallet::new(Funds {
        cash: 0,
        position: 0,
    });
    show(rt, w.settle(0, Side::Buy, price, 4))
}

// Cash 1,000 with 1 held.
fn cover(rt: &impl Print) -> io::Result<()> {
    let w = change(
        Wallet::new(Funds {
            cash: 1000,
            position: 0,
        }),
        0,
        1,
    );
    let first = flag(w.covers(Side::Buy, 999));
    let second = flag(w.covers(Side::Buy, 1000));
    println!(rt; "covers{first}{second}")
}

// The examples marked P hold. Nothing calls this: it is here for its proof.
pub fn claims()
    ensures { Examples }
{}

fn main(rt: HostRuntime) -> io::Result<()> {
    throttle(&rt, 2, 499999999)?;
    throttle(&rt, 2, 500000000)?;
    throttle(&rt, 2, 5000000000)?;
    throttle(&rt, 0, 5000000000)?;
    collar(&rt, 1100, 1000)?;
    collar(&rt, 1101, 1000)?;
    collar(&rt, -1000, -1000)?;
    hold(&rt, Side::Buy, 250, 4)?;
    hold(&rt, Side::Sell, 250, 4)?;
    hold(&rt, Side::Buy, 9223372036854775807, 2)?;
    fill(&rt, 0)?;
    fill(&rt, 10)?;
    saturate(&rt)?;
    cover(&rt)
}
