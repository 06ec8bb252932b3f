// Writes of the event flags.
ghost use Rattle.std.specs.Prelude.{◌≡◌};
ghost use Rattle.rules.specs.Flags.{write_risr, defers_clear, write_gisr};

use rules::Events;
use rules::bits::{GISR_EVENTS, GISR_OTHERS, RISR_EVENTS, SYNLIF, has};

// A write of $06: a written 1 clears an event flag.
#[tactic(auto, unfolding(masks::specs::Pick::pick, rules::specs::Flags::write_risr))]
pub(crate) fn write_risr(f: Events, v: u8) -> Events
    ensures { result ≡ write_risr f v }
{
    Events {
        risr: f.risr & !(v & RISR_EVENTS),
        ..f
    }
}

// A SYNLIF clear that waits for the next sync: the flag stands, and the module is unsynchronized.
#[tactic(auto, unfolding(rules::specs::Flags::defers_clear))]
fn defers_clear(f: Events, synced: bool, v: u8) -> bool
    ensures { result ≡ defers_clear synced f v }
{
    has(v, SYNLIF) && has(f.gisr, SYNLIF) && !synced
}

// A write of $07: a written 1 clears an event flag, SYNLIF perhaps later.
#[tactic(auto, unfolding(masks::specs::Pick::pick, rules::specs::Flags::write_gisr))]
pub(crate) fn write_gisr(f: Events, synced: bool, v: u8) -> Events
    ensures { result ≡ write_gisr synced f v }
{
    if defers_clear(f, synced, v) {
        Events {
            gisr: f.gisr & !(v & GISR_OTHERS),
            clearing: true,
            ..f
        }
    } else {
        Events {
            gisr: f.gisr & !(v & GISR_EVENTS),
            ..f
        }
    }
}
