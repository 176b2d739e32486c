// A row of a stored file on one gateway: its call is made by the entry points, and the answer held to the stored one.
#![tactic(auto)]

ghost use Rattle.stored.specs.Rows as R;
ghost use Rattle.edge.specs.Entering.{Lent};
ghost use Rattle.conformance.specs.Played as P;

use stored::Difference;

// Makes the call with places that hold 0xA5; whether all is as the file has it. If not, `at` has where.
fn play(m: &mut [u8], row: [u8; 128], rows: [u8; 24576], at: &mut Difference<'_>) -> bool
    requires { Lent m.old }
    ensures { P.Played rows row m.old m.new result }
{
    let mut out = [0xa5u8; 24576];
    let mut got = stored::unanswered(row);
    let lent = stored::lent(&row);
    let given = stored::given(&row);
    replaying::call(m, &row, &rows[..given], &mut got, &mut out[..lent]);
    stored::agree(&row, &got, &rows, &out, at)
}

// Makes the calls of a row; whether all is as the file has it.
fn play_run(m: &mut [u8], row: [u8; 128], rows: [u8; 24576], at: &mut Difference<'_>) -> bool
    requires { Lent m.old }
    ensures lent { Lent m.new }
    ensures plays { P.Plays rows (R.times row) row m.old m.new result }
{
    let mut same = play(m, row, rows, at);
    let mut next = row;
    for _left in (0..stored::times(&row)).rev() {
        if !same {
            return false;
        }
        stored::grow_row(&mut next);
        same = play(m, next, rows, at);
    }
    same
}

fn play_start(
    m: &mut [u8],
    row: [u8; 128],
    accounts: &[u8],
    rows: [u8; 24576],
    at: &mut Difference<'_>,
) -> bool
    requires { Lent m.old }
    ensures { P.Started_as row accounts.now rows m.old m.new result }
{
    let given = stored::given(&row);
    let code = replaying::start(m, &row, accounts, &rows[..given]);
    stored::answers_code(row, code, at)
}

// `accounts` has the rows of a start's accounts, and `rows` those that follow the row, filled up with 0xA5. Where the answers
// differ, `at` has where.
pub fn play_any(
    m: &mut [u8],
    row: [u8; 128],
    accounts: &[u8],
    rows: [u8; 24576],
    at: &mut Difference<'_>,
) -> bool
    requires { Lent m.old }
    ensures lent { Lent m.new }
    ensures plays_any { P.PlaysAny row accounts.now rows m.old m.new result }
{
    if stored::is_start(&row) {
        return play_start(m, row, accounts, rows, at);
    }
    play_run(m, row, rows, at)
}
