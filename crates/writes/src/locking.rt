// Locks taken and released.
ghost use Rattle.std.specs.Prelude.{◌≡◌};
ghost use Rattle.rules.specs.Record.{with_fifo};
ghost use Rattle.rules.specs.Writes.{enters_by_lock, lock_error, disarm, lock_fifo, lock, without_oldest, release_fifo, release_all};

use kinds::{is_receive, is_transmit, place_after};
use locks::Locks;
use modes::enter;
use rules::bits::{LOCKIE, has};
use rules::{Control, Fifo};

// Whether a new lock enters initialization: it is a contender, l having been its kind's locks, and LOCKIE is set.
#[tactic(auto, unfolding(rules::specs::Writes::enters_by_lock))]
fn enters_by_lock(c: Control, l: Locks) -> bool
    ensures { result ≡ enters_by_lock l c }
{
    l.has_holder() && has(c.config.gier, LOCKIE) && !c.mode.init
}

#[tactic(auto, unfolding(masks::specs::Pick::pick, rules::specs::Writes::lock_error))]
fn lock_error(c: Control, l: Locks) -> Control
    ensures { result ≡ lock_error l c }
{
    if enters_by_lock(c, l) {
        return enter(c);
    }
    c
}

// Buffer n disarmed: it is not sent in this cycle.
fn disarm(c: Control, n: u8) -> Control
    ensures { result ≡ disarm c n }
{
    let mut next = c;
    next.buffers.armed = masks::put(c.buffers.armed, n, false);
    next
}

// The FIFO's oldest entry locked.
fn lock_fifo(c: Control) -> Control
    ensures { result ≡ with_fifo c (lock_fifo c.fifo) }
{
    let mut next = c;
    next.fifo.locked = true;
    next
}

// A new lock on buffer n. Of the FIFO's buffers refusal 9 has left only the oldest entry.
#[tactic(auto, unfolding(masks::specs::Pick::pick, rules::specs::Writes::lock))]
pub(crate) fn lock(c: Control, n: u8) -> Control
    ensures { result ≡ lock c n }
{
    if is_transmit(c, n) {
        let mut next = disarm(c, n);
        next.transmit = c.transmit.take(n);
        return lock_error(next, c.transmit);
    }
    if is_receive(c, n) {
        let mut next = c;
        next.receive = c.receive.take(n);
        return lock_error(next, c.receive);
    }
    lock_fifo(c)
}

// The FIFO without its oldest entry, unlocked.
fn without_oldest(c: Control) -> Fifo
    ensures { result ≡ without_oldest c }
{
    Fifo {
        oldest: place_after(c.config.fsiz, c.fifo.oldest),
        count: c.fifo.count.saturating_sub(1),
        locked: false,
        ..c.fifo
    }
}

#[tactic(auto, unfolding(masks::specs::Pick::pick, rules::specs::Writes::release_fifo))]
fn release_fifo(c: Control, n: u8) -> Fifo
    ensures { result ≡ release_fifo c n }
{
    let f = c.fifo;
    if f.locked && n == f.oldest {
        return without_oldest(c);
    }
    f
}

// Whichever lock buffer n has is released.
#[tactic(auto, unfolding(masks::specs::Pick::pick, rules::specs::Writes::release_all))]
pub(crate) fn release_all(c: Control, n: u8) -> Control
    ensures { result ≡ release_all c n }
{
    let mut next = c;
    next.receive = c.receive.release(n);
    next.transmit = c.transmit.release(n);
    next.fifo = release_fifo(c, n);
    next
}
