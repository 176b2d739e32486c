// The functions of comparison for programs that link an archive: the same symbols, arguments and clauses.
#![tactic(auto)]

ghost use Rattle.std.specs.Prelude.{◌≡◌};
ghost use Rattle.comparison.specs.Entry as E;
ghost use Rattle.comparison.specs.Entry.{answer, answers};

// What an order holds: two words, whether it fits and the amount.
#[unsafe(no_mangle)]
pub extern "C" fn entry_hold_of(fee: u64, side: u32, price: u64, leaves: u64, out: &mut [u8]) -> u32
    ensures { answer result out.new ≡ E.hold_of fee side price leaves out.old }
{
    comparison::entry_hold_of(fee, side, price, leaves, out)
}

#[unsafe(no_mangle)]
pub extern "C" fn entry_covers(side: u32, amount: u64, wallet: &[u8], out: &mut [u8]) -> u32
    ensures { answer result out.new ≡ E.covers side amount wallet.now out.old }
{
    comparison::entry_covers(side, amount, wallet, out)
}

// An order's hold changes from old to new.
#[unsafe(no_mangle)]
pub extern "C" fn entry_hold(side: u32, old: u64, new: u64, wallet: &mut [u8]) -> u32
    ensures { answer result wallet.new ≡ E.hold side old new wallet.old }
{
    comparison::entry_hold(side, old, new, wallet)
}

#[unsafe(no_mangle)]
pub extern "C" fn entry_settle(fee: u64, side: u32, price: u64, qty: u64, wallet: &mut [u8]) -> u32
    ensures { answer result wallet.new ≡ E.settle fee side price qty wallet.old }
{
    comparison::entry_settle(fee, side, price, qty, wallet)
}

#[unsafe(no_mangle)]
pub extern "C" fn entry_near(price: u64, mark: u64, percent: u32, out: &mut [u8]) -> u32
    ensures { answer result out.new ≡ E.near_mark price mark percent out.old }
{
    comparison::entry_near(price, mark, percent, out)
}

#[unsafe(no_mangle)]
pub extern "C" fn entry_take_token(rate: u32, time: u64, bucket: &mut [u8], out: &mut [u8]) -> u32
    ensures { answers result bucket.new out.new ≡ E.take rate time bucket.old out.old }
{
    comparison::entry_take_token(rate, time, bucket, out)
}

#[unsafe(no_mangle)]
pub extern "C" fn entry_load(width: u32, at: u64, bytes: &[u8], out: &mut [u8]) -> u32
    ensures { answer result out.new ≡ E.load width at bytes.now out.old }
{
    comparison::entry_load(width, at, bytes, out)
}

#[unsafe(no_mangle)]
pub extern "C" fn entry_store(width: u32, at: u64, value: u64, bytes: &mut [u8]) -> u32
    ensures { answer result bytes.new ≡ E.store width at value bytes.old }
{
    comparison::entry_store(width, at, value, bytes)
}
