// Reports of an event: whom they go to, and their rows (`tell_owner`, `tell_sender`, `report` of exchange.rs).
#![tactic(auto)]

ghost use Rattle.std.specs.Prelude.{◌≡◌, ◌+◌, ◌≤◌, ◌<◌, length};
ghost use Rattle.gateway.specs.Basics.{option};
ghost use Rattle.gateway.specs.Ledger.{number_of, find};
ghost use Rattle.gateway.specs.Limits.{owner_slots};
ghost use Rattle.store.specs.Cells as C;
ghost use Rattle.store.specs.Layout.{cell};
ghost use Rattle.store.specs.View.{order, ledger, gateway};
ghost use Rattle.orders.specs.Orders.{Sees};
ghost use Rattle.sound.specs.Sound.{State};
ghost use Rattle.mailbox.specs.Mailbox.{places};
ghost use Rattle.outcome.specs.Parts.{rest_of, Sends};
ghost use Rattle.reporting.specs.Reporting as P;

use pending::Flight;
use protocol::{Report, ReportKind};

// The open session that is told, if one is; and the order's client reference.
#[derive(Clone, Copy)]
pub struct Told {
    pub to: Option<usize>,
    pub client_ref: u64,
}

// The open session of an account.
pub fn listener(m: &[u8], account: usize) -> Option<usize>
    requires { State m.now × (account < owner_slots) }
    ensures { P.Hears account result (rest_of m.now) }
{
    let s = clients::session_of(m, account)?;
    // A session that an account names is logged in: it is open unless it is closing.
    if clients::is_closing(m, s) {
        return None;
    }
    Some(s)
}

// For the owner of the live order `id`, which stands at `at`.
pub fn owner(m: &[u8], id: u64, at: Option<usize>) -> Told
    requires { State m.now × Sees C.order_live order number_of (cell m.now) id at }
    ensures { P.Tells id result (gateway (cell m.now)) }
{
    if let Some(i) = at {
        let o = orders::live_at(m, i);
        let to = listener(m, o.account as usize);
        return Told {
            to,
            client_ref: o.client_ref,
        };
    }
    Told {
        to: None,
        client_ref: 0,
    }
}

// The client reference of the live order `id`, or 0.
fn ref_of(m: &[u8], id: u64, at: Option<usize>) -> u64
    requires { State m.now × Sees C.order_live order number_of (cell m.now) id at }
    ensures { result ≡ option 0 (λ o. o.client_ref) (find id (ledger (cell m.now)).orders) }
{
    if let Some(i) = at {
        let o = orders::live_at(m, i);
        return o.client_ref;
    }
    0
}

// Whether the session is logged in for the account, and open.
fn speaks_for(m: &[u8], s: usize, account: u64) -> bool
    requires { State m.now }
    ensures { result ≡ P.speaks_for s account (rest_of m.now) }
{
    clients::account_of(m, s) == Some(account as usize) && clients::is_open(m, s)
}

// The session that sent a command, while it still speaks for the account.
fn sender_of(m: &[u8], f: Flight) -> Option<usize>
    requires { State m.now }
    ensures { P.Sender f.sender f.owner result (rest_of m.now) }
{
    if f.sender == 0 {
        return None;
    }
    let s = (f.sender - 1) as usize;
    if speaks_for(m, s, f.owner) {
        return Some(s);
    }
    None
}

// For the sender of command n, which was refused and names the order `id`.
pub fn sender(m: &[u8], n: u64, id: u64, at: Option<usize>) -> Told
    requires { State m.now × Sees C.order_live order number_of (cell m.now) id at }
    ensures { P.TellsSender n id result (gateway (cell m.now)) }
{
    let f = pending::flight_at(m, n);
    let to = sender_of(m, f);
    if f.places == 0 {
        return Told { to, client_ref: 0 };
    }
    let client_ref = ref_of(m, id, at);
    Told { to, client_ref }
}

// How many rows it is.
pub fn rows(t: Told) -> usize
    ensures { (result ≡ P.told_rows t) × (result ≤ 1) }
{
    if t.to.is_some() { 1 } else { 0 }
}

// The report, in place i.
pub fn report(m: &mut [u8], out: &mut [u8], i: usize, n: u64, id: u64, t: Told, kind: ReportKind)
    requires { State m.old × P.InSlots t.to × (i + P.told_rows t ≤ places (length out.old)) }
    ensures { Sends i (P.told_mail n id kind t) (λ x. x) m.old m.new out.old out.new }
{
    if let Some(s) = t.to {
        let r = Report {
            seq: n,
            order_id: id,
            client_ref: t.client_ref,
            kind,
        };
        outcome::send_report(m, out, i, s, r);
    }
}
