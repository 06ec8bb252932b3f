// Slots: which buffer is sent in one.
ghost use Rattle.std.specs.Prelude.{◌≡◌};
ghost use Rattle.masks.specs.Bits.{number_in};
ghost use Rattle.masks.specs.Pick.{pick};
ghost use Rattle.rules.specs.Bus.{sent_from, slot_for};
ghost use Rattle.rules.specs.Record.{with_mode, with_last};
ghost use Rattle.rules.specs.declared.Answer.TheVariants.{Ignored, NotSent};
ghost use Rattle.bus_steps.specs.Code.{ruling_of};

use crate::ruling;
use masks::NONE;
use rules::{Answer, Control, Ruling, Verdict};

// Buffer n sent in slot i: empty (IFLG), disarmed, and i is the last identifier.
fn sent_from(c: Control, i: u8, n: u8) -> Control
    ensures { result ≡ with_mode (sent_from c n) (with_last c.mode i) }
{
    let mut next = c;
    next.buffers.iflg = masks::put(c.buffers.iflg, n, true);
    next.buffers.armed = masks::put(c.buffers.armed, n, false);
    next.mode.last = i;
    next
}

// The answer to a slot of an awake module that sends nothing.
fn unsent(c: Control) -> Answer
    ensures { result ≡ pick c.mode.synced NotSent Ignored }
{
    if c.mode.synced {
        Answer::NotSent
    } else {
        Answer::Ignored
    }
}

// Slot i of an awake module. Its buffer is n, if there is one. Where nothing is sent there is one way to the return, whatever the
// answer: with a return for each, the compiler copied the state twice.
#[tactic(auto, unfolding(rules::specs::Bus::slot_for, rules::specs::Bus::send_from, masks::specs::Pick::pick))]
pub(crate) fn slot_for(c: Control, i: u8, n: Option<u8>) -> Ruling
    ensures { result ≡ ruling_of (slot_for c i (number_in n)) }
{
    match n {
        Some(n) if c.mode.synced && c.mode.last < i && n < NONE => Ruling {
            next: sent_from(c, i, n),
            verdict: Verdict::Send(n),
        },
        _ => ruling(c, unsent(c)),
    }
}
