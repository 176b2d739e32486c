// Whether a row is a message, an event, a command or an account: its length, and each number that its kind reads.
ghost use Rattle.std.specs.Prelude.{◌≡◌, ◌+◌, ◌*◌, ◌≤◌, ◌<◌, length};
ghost use Rattle.script.specs.Script.{word_at};
ghost use Rattle.script.specs.Records.{account_rows};
ghost use Rattle.script.specs.Strict as S;

const MOST_16: u64 = 65_535;

pub const MOST_32: u64 = 4_294_967_295;

// The last code of each enum.
const LAST_TIF: u64 = 3;

const LAST_PHASE: u64 = 3;

const LAST_REJECT: u64 = 15;

const LAST_CANCEL: u64 = 9;

fn at_most(row: &[u8], i: usize, most: u64) -> bool
    requires { 8 * i + 8 ≤ length row.now }
    ensures { result ≡ S.at_most row.now i most }
{
    crate::word(row, i) <= most
}

// A flag, or a side.
fn is_bit(row: &[u8], i: usize) -> bool
    requires { 8 * i + 8 ≤ length row.now }
    ensures { result ≡ S.is_bit row.now i }
{
    at_most(row, i, 1)
}

fn are_bits(row: &[u8], i: usize, j: usize) -> bool
    requires { (8 * i + 8 ≤ length row.now) × (8 * j + 8 ≤ length row.now) }
    ensures { result ≡ S.are_bits row.now i j }
{
    if is_bit(row, i) {
        return is_bit(row, j);
    }
    false
}

// The codes of reasons start at 1.
fn is_reason(row: &[u8], i: usize, last: u64) -> bool
    requires { 8 * i + 8 ≤ length row.now }
    ensures { result ≡ S.is_reason row.now i last }
{
    if at_most(row, i, 0) {
        return false;
    }
    at_most(row, i, last)
}

fn are_small(row: &[u8], i: usize, most: u64, j: usize) -> bool
    requires { (8 * i + 8 ≤ length row.now) × (8 * j + 8 ≤ length row.now) }
    ensures { result ≡ S.are_small row.now i most j }
{
    if at_most(row, i, most) {
        return at_most(row, j, MOST_32);
    }
    false
}

// ---- messages

// The time in force, and whether there is a display.
fn limit_fits(row: &[u8]) -> bool
    requires { 64 ≤ length row.now }
    ensures { result ≡ S.limit_fits row.now }
{
    if at_most(row, 6, LAST_TIF) {
        return is_bit(row, 7);
    }
    false
}

fn kind_fits(row: &[u8]) -> bool
    requires { length row.now ≡ 128 }
    ensures { result ≡ S.kind_fits (word_at row.now 4) row.now }
{
    match crate::word(row, 4) {
        0 => limit_fits(row),
        1 => true,
        2 => is_bit(row, 6),
        _ => false,
    }
}

fn order_fits(row: &[u8]) -> bool
    requires { length row.now ≡ 128 }
    ensures { result ≡ S.order_fits row.now }
{
    if is_bit(row, 2) {
        return kind_fits(row);
    }
    false
}

fn message_fits(row: &[u8]) -> bool
    requires { length row.now ≡ 128 }
    ensures { result ≡ S.message_fits (word_at row.now 0) row.now }
{
    match crate::word(row, 0) {
        0 => are_small(row, 1, MOST_16, 2),
        3 => order_fits(row),
        k => k <= 7,
    }
}

pub fn is_message(row: &[u8]) -> bool
    ensures { result ≡ S.is_message row.now }
{
    if row.len() != 128 {
        return false;
    }
    message_fits(row)
}

// ---- events

fn event_fits(row: &[u8]) -> bool
    requires { length row.now ≡ 128 }
    ensures { result ≡ S.event_fits (word_at row.now 0) row.now }
{
    match crate::word(row, 0) {
        1 => is_reason(row, 2, LAST_REJECT),
        2 => is_bit(row, 4),
        3 => is_bit(row, 2),
        4 => is_bit(row, 2),
        5 => is_reason(row, 3, LAST_CANCEL),
        7 => are_bits(row, 2, 4),
        9 => are_small(row, 1, MOST_32, 2),
        10 => at_most(row, 1, LAST_PHASE),
        k => k <= 8,
    }
}

pub fn is_event(row: &[u8]) -> bool
    ensures { result ≡ S.is_event row.now }
{
    if row.len() != 128 {
        return false;
    }
    event_fits(row)
}

// ---- commands

fn limit_command_fits(row: &[u8]) -> bool
    requires { length row.now ≡ 96 }
    ensures { result ≡ S.limit_command_fits row.now }
{
    if is_bit(row, 3) {
        return limit_fits(row);
    }
    false
}

// What a command's kind reads beside its owner.
fn command_kind_fits(row: &[u8]) -> bool
    requires { length row.now ≡ 96 }
    ensures { result ≡ S.command_fits (word_at row.now 0) row.now }
{
    match crate::word(row, 0) {
        0 => limit_command_fits(row),
        1 => is_bit(row, 3),
        4 => are_bits(row, 3, 10),
        6 => at_most(row, 3, LAST_PHASE),
        k => k <= 5,
    }
}

fn command_fits(row: &[u8]) -> bool
    requires { length row.now ≡ 96 }
    ensures { result ≡ S.owned_fits row.now }
{
    if at_most(row, 2, MOST_32) {
        return command_kind_fits(row);
    }
    false
}

pub fn is_command(row: &[u8]) -> bool
    ensures { result ≡ S.is_command row.now }
{
    if row.len() != 96 {
        return false;
    }
    command_fits(row)
}

// ---- accounts

fn limits_fit(row: &[u8]) -> bool
    requires { length row.now ≡ 56 }
    ensures { result ≡ S.limits_fit row.now }
{
    if are_small(row, 2, MOST_32, 3) {
        return is_bit(row, 4);
    }
    false
}

fn account_fits(row: &[u8]) -> bool
    requires { length row.now ≡ 56 }
    ensures { result ≡ S.account_fits row.now }
{
    if at_most(row, 0, MOST_32) {
        return limits_fit(row);
    }
    false
}

pub fn is_account(row: &[u8]) -> bool
    ensures { result ≡ S.is_account row.now }
{
    if row.len() != 56 {
        return false;
    }
    account_fits(row)
}

fn is_account_at(list: &[u8], j: usize) -> bool
    requires { j < account_rows list.now }
    ensures { result ≡ S.is_account_at list.now j }
{
    let row = crate::records::account_row(list, j);
    is_account(row)
}

fn all_accounts(list: &[u8]) -> bool
    ensures { result ≡ S.all_fit (S.is_account_at list.now) (account_rows list.now) }
{
    for j in (0..crate::records::account_rows(list)).rev() {
        if !is_account_at(list, j) {
            return false;
        }
    }
    true
}

// Whole rows, and each an account.
pub fn are_accounts(list: &[u8]) -> bool
    ensures { result ≡ S.are_accounts list.now }
{
    if list.len() % crate::records::ACCOUNT == 0 {
        return all_accounts(list);
    }
    false
}
