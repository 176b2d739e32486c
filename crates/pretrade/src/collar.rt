// How far from the market's price wallets may price their orders: `set_paper_collar` of exchange.rs.
ghost use Rattle.std.specs.Prelude.{◌≡◌};
ghost use Rattle.gateway.specs.Entry.{nothing};
ghost use Rattle.gateway.specs.Calls.{call, set_paper_collar};
ghost use Rattle.store.specs.Layout.{cell};
ghost use Rattle.store.specs.View.{optional, gateway};
ghost use Rattle.outcome.specs.Between.{Between};
ghost use Rattle.outcome.specs.Answers.{Says};

// One more than the percent, or 0 for none.
fn plus_one(percent: Option<u32>) -> u64
    ensures { optional result ≡ percent }
{
    match percent {
        None => 0,
        Some(p) => p as u64 + 1,
    }
}

pub fn set_paper_collar(m: &mut [u8], percent: Option<u32>)
    requires { Between m.old }
    ensures { Says nothing (call (gateway (cell m.old)) (set_paper_collar percent)) 0 m.old m.new }
{
    let w = plus_one(percent);
    pending::header::set_collar(m, w);
}
