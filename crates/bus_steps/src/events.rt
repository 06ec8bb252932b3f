// Event flags that the bus raises, and faults.
ghost use Rattle.std.specs.Prelude.{◌≡◌};
ghost use Rattle.rules.specs.Bus.{raise_gisr, raise_risr, woken, sync_flag, sync_events, lost_events, faulted};
ghost use Rattle.rules.specs.declared.Fault.TheVariants.{Lost};

use modes::wake;
use rules::bits::{ILLPIF, SLMMIF, SYNAIF, SYNEIF, SYNLIF, SYNNIF, WAKEIF, XSYNIF};
use rules::{Control, Events, Fault, SyncKind};

// Two functions of one line: a common one would be handed the field by a closure.
fn raise_gisr(c: Control, b: u8) -> Control
    ensures { result ≡ raise_gisr c b }
{
    let mut next = c;
    next.events.gisr |= b;
    next
}

fn raise_risr(c: Control, b: u8) -> Control
    ensures { result ≡ raise_risr c b }
{
    let mut next = c;
    next.events.risr |= b;
    next
}

// Woken by the bus, which sets WAKEIF; a waking write of $00 doesn't.
#[tactic(auto, unfolding(rules::specs::Bus::woken))]
pub(crate) fn woken(c: Control) -> Control
    ensures { result ≡ woken c }
{
    wake(raise_gisr(c, WAKEIF))
}

fn sync_flag(k: SyncKind) -> u8
    ensures { result ≡ sync_flag k }
{
    match k {
        SyncKind::Normal => SYNNIF,
        SyncKind::Alarm => SYNAIF,
    }
}

// SYNNIF or SYNAIF, and XSYNIF; a remembered SYNLIF clear acts now.
#[tactic(auto, unfolding(rules::specs::Bus::sync_events, masks::specs::Pick::pick))]
pub(crate) fn sync_events(f: Events, k: SyncKind) -> Events
    ensures { result ≡ sync_events k f }
{
    Events {
        risr: f.risr | sync_flag(k) | XSYNIF,
        gisr: if f.clearing { f.gisr & !SYNLIF } else { f.gisr },
        clearing: false,
    }
}

// SYNLIF set. A clear that still waits is forgotten, or the next sync would clear the flag that was set now.
#[tactic(auto, unfolding(rules::specs::Bus::lost_events))]
fn lost_events(f: Events) -> Events
    ensures { result ≡ lost_events f }
{
    Events {
        gisr: f.gisr | SYNLIF,
        clearing: false,
        ..f
    }
}

// Synchronization lost: SYNLIF, unsynchronized, nothing armed.
#[tactic(auto, unfolding(rules::specs::Bus::faulted))]
fn lost(c: Control) -> Control
    ensures { result ≡ faulted Lost c }
{
    let mut next = c;
    next.events = lost_events(c.events);
    next.mode.synced = false;
    next.buffers.armed = 0;
    next
}

#[tactic(auto, unfolding(rules::specs::Bus::faulted))]
pub(crate) fn faulted(c: Control, k: Fault) -> Control
    ensures { result ≡ faulted k c }
{
    match k {
        Fault::Early => raise_gisr(c, SYNEIF),
        Fault::Lost => lost(c),
        Fault::Illegal => raise_gisr(c, ILLPIF),
        Fault::Mismatch => raise_risr(c, SLMMIF),
    }
}
