// Syncs and the alarm timeout.
ghost use Rattle.std.specs.Prelude.{◌≡◌};
ghost use Rattle.masks.specs.Bits.{mask_of};
ghost use Rattle.rules.specs.Bus.{due_kind, timed_out};
ghost use Rattle.bus_steps.specs.Code.{arms_of, synced_of};

use crate::events::sync_events;
use kinds::locked_mask;
use rules::{Control, SyncKind};

// What a sync arms of the buffers m: the full transmit buffers that are not locked.
fn arming(c: Control, m: u16) -> u16
    ensures { result ≡ mask_of (arms_of c m) }
{
    let b = c.buffers;
    b.cfg & !b.iflg & !locked_mask(c) & m
}

// A sync: synchronized, a new cycle, its buffers armed, and SLPRQ cancelled.
#[tactic(auto, unfolding(crate::specs::Code::synced_of))]
pub(crate) fn synced(c: Control, k: SyncKind, m: u16) -> Control
    ensures { result ≡ synced_of k c m }
{
    let mut next = c;
    next.events = sync_events(c.events, k);
    next.mode.slprq = false;
    next.mode.synced = true;
    next.mode.last = 0;
    next.buffers.armed = arming(c, m);
    next
}

// The kind of pulse that a master emits.
pub(crate) fn due_kind(c: Control) -> SyncKind
    ensures { result ≡ due_kind c }
{
    if c.mode.alarm {
        SyncKind::Alarm
    } else {
        SyncKind::Normal
    }
}

// The alarm timeout clears ALARM.
#[tactic(auto, unfolding(rules::specs::Bus::timed_out))]
pub(crate) fn timed_out(c: Control) -> Control
    ensures { result ≡ timed_out c }
{
    let mut next = c;
    next.mode.alarm = false;
    next
}
