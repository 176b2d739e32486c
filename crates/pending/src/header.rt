// The words of the header.
ghost use Rattle.std.specs.Prelude.{◌≡◌, ◌<◌};
ghost use Rattle.store.specs.Layout.{cell, Holds};
ghost use Rattle.store.specs.View.{word, Is};
ghost use Rattle.pending.specs.Pending as P;

use store::cells;

// A word of the header: a number of the gateway, or how many rows of a block are in use.
pub fn word_at(m: &[u8], k: usize) -> u64
    requires { Holds m.now × (k < 32) }
    ensures { result ≡ word (cell m.now) k }
{
    store::get(m, store::HEADER, 0, k)
}

pub fn set_clock(m: &mut [u8], time: u64)
    requires { Holds m.old }
    ensures { Is m.new (P.set_clock time (cell m.old)) }
{
    crate::set_word(m, cells::CLOCK, time);
}

pub fn set_delivered(m: &mut [u8], number: u64)
    requires { Holds m.old }
    ensures { Is m.new (P.set_delivered number (cell m.old)) }
{
    crate::set_word(m, cells::DELIVERED, number);
}

// One more than the percent, or 0 for none.
pub fn set_collar(m: &mut [u8], percent_plus_one: u64)
    requires { Holds m.old }
    ensures { Is m.new (P.set_collar percent_plus_one (cell m.old)) }
{
    crate::set_word(m, cells::COLLAR, percent_plus_one);
}

// The price is a word.
pub fn set_mark(m: &mut [u8], price: u64)
    requires { Holds m.old }
    ensures { Is m.new (P.set_mark price (cell m.old)) }
{
    let row = [1, price];
    store::fill(m, store::HEADER, 0, cells::MARKED, &row);
}
