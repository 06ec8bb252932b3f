// Bus steps on the control state.
#![tactic(auto, unfolding(masks::specs::Pick::pick))]

mod events;
mod frames;
mod slots;
mod syncs;

ghost use Rattle.std.specs.Prelude.{◌≡◌};
ghost use Rattle.masks.specs.Bits.{number_in};
ghost use Rattle.rules.specs.Plan.{Plan, plain};
ghost use Rattle.rules.specs.Modes.{cancel};
ghost use Rattle.rules.specs.Bus.{timed_out, faulted, judged, slot_for};
ghost use Rattle.rules.specs.Rules.{wakes, sleeps_on};
ghost use Rattle.rules.specs.declared.Ruling.{Ruling};
ghost use Rattle.bus_steps.specs.Code.{ruling_of, synced_of, due_of};
ghost use Rattle.rules.specs.declared.Answer.TheVariants.{Ok};

use crate::events::{faulted, woken};
use crate::frames::{judged, marked};
use crate::slots::slot_for;
use crate::syncs::{due_kind, synced, timed_out};
use modes::cancel;
use rules::{Answer, Control, Fault, Ruling, SyncKind, Verdict};
use waiting::asleep;

// The next state with an answer alone: no frame is stored or sent.
pub(crate) fn ruling(next: Control, answer: Answer) -> Ruling
    ensures { result ≡ ruling_of (plain next answer) }
{
    Ruling {
        next,
        verdict: Verdict::Say(answer),
    }
}

// A sync, a frame or a fault: ignored in initialization, it wakes a module that is asleep; else it is the step.
#[tactic(auto, unfolding(rules::specs::Rules::on_bus, masks::specs::Pick::pick))]
fn wakes<F: FnOnce() -> Ruling>(c: Control, step: F) -> Ruling
    requires { F.pre step }
    ensures { (p : Plan) → ((r : Ruling) → F.post step r → r ≡ ruling_of p) → result ≡ ruling_of (wakes c p) }
{
    if c.mode.init {
        return ruling(c, Answer::Ignored);
    }
    if asleep(c) {
        return ruling(woken(c), Answer::Woke);
    }
    step()
}

// A slot, a sync due or a timeout: ignored in initialization and asleep, else it is the step.
#[tactic(auto, unfolding(rules::specs::Rules::on_bus, masks::specs::Pick::pick))]
fn sleeps_on<F: FnOnce() -> Ruling>(c: Control, step: F) -> Ruling
    requires { F.pre step }
    ensures { (p : Plan) → ((r : Ruling) → F.post step r → r ≡ ruling_of p) → result ≡ ruling_of (sleeps_on c p) }
{
    if c.mode.init || asleep(c) {
        return ruling(c, Answer::Ignored);
    }
    step()
}

// A frame with identifier i, whose dedicated receive buffer is n, if there is one. A number from 16 on is none. Not by `wakes`: with a closure a bad
// frame from C took from a third to two thirds more time, a good one a quarter.
pub fn on_frame(c: Control, good: bool, i: u8, n: Option<u8>) -> Ruling
    ensures { result ≡ ruling_of (wakes c (judged c good i (number_in n))) }
{
    if c.mode.init {
        return ruling(c, Answer::Ignored);
    }
    if asleep(c) {
        return ruling(woken(c), Answer::Woke);
    }
    let o = judged(c, good, i, n);
    Ruling {
        next: marked(c, o, i),
        verdict: o.verdict,
    }
}

// Slot i. Its buffer is n, the highest armed one that carries i, if there is one. A number from 16 on is none.
pub fn on_slot(c: Control, i: u8, n: Option<u8>) -> Ruling
    ensures { result ≡ ruling_of (sleeps_on c (slot_for c i (number_in n))) }
{
    sleeps_on(c, || slot_for(c, i, n))
}

// A sync. It arms of m, the full transmit buffers with an identifier, those that are not locked.
pub fn on_sync(c: Control, k: SyncKind, m: u16) -> Ruling
    ensures { result ≡ ruling_of (wakes c (plain (synced_of k c m) Ok)) }
{
    wakes(c, || ruling(synced(c, k, m), Answer::Ok))
}

// A sync is due out of initialization, awake: a master emits the pulse and acts as if it had received it, a slave ignores it.
#[tactic(auto, unfolding(crate::specs::Code::due_of, masks::specs::Pick::pick))]
fn due(c: Control, m: u16) -> Ruling
    ensures { result ≡ ruling_of (due_of c m) }
{
    if !c.mode.master {
        return ruling(c, Answer::Ignored);
    }
    let k = due_kind(c);
    ruling(synced(c, k, m), Answer::Pulse(k))
}

// A sync is due.
pub fn on_due(c: Control, m: u16) -> Ruling
    ensures { result ≡ ruling_of (sleeps_on c (due_of c m)) }
{
    sleeps_on(c, || due(c, m))
}

pub fn on_fault(c: Control, k: Fault) -> Ruling
    ensures { result ≡ ruling_of (wakes c (plain (faulted k (cancel c)) Ok)) }
{
    wakes(c, || ruling(faulted(cancel(c), k), Answer::Ok))
}

// The alarm timeout.
pub fn on_timeout(c: Control) -> Ruling
    ensures { result ≡ ruling_of (sleeps_on c (plain (timed_out c) Ok)) }
{
    sleeps_on(c, || ruling(timed_out(c), Answer::Ok))
}
