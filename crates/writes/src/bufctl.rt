// The write of a buffer's control register.
ghost use Rattle.std.specs.Prelude.{◌≡◌};
ghost use Rattle.writes.specs.CodeDelivery.{lock_undelivered, undelivered};
ghost use Rattle.rules.specs.Writes.{write_cfg, write_iena, clear_iflg, write_iflg, abort, write_abtrq};

use crate::locking::{lock, release_all};
use kinds::{cfg_after, is_full_transmit, is_locked, is_transmit};
use rules::bits::{ABTRQ, IENA, IFLG, LOCK, has};
use rules::{Buffers, Control};

#[tactic(auto, unfolding(masks::specs::Pick::pick, rules::specs::Writes::write_cfg))]
fn write_cfg(c: Control, n: u8, v: u8) -> Control
    ensures { result ≡ write_cfg c n v }
{
    let mut next = c;
    next.buffers.cfg = masks::put(c.buffers.cfg, n, cfg_after(c, n, v));
    next
}

#[tactic(auto, unfolding(masks::specs::Pick::pick, rules::specs::Writes::write_iena))]
fn write_iena(c: Control, n: u8, v: u8) -> Control
    ensures { result ≡ write_iena c n v }
{
    let mut next = c;
    next.buffers.iena = masks::put(c.buffers.iena, n, has(v, IENA));
    next
}

// IFLG of buffer n cleared, ABTAK too on a transmit buffer.
#[tactic(auto, unfolding(masks::specs::Pick::pick))]
fn clear_iflg(c: Control, n: u8) -> Buffers
    ensures { result ≡ clear_iflg c n }
{
    let mut b = c.buffers;
    b.iflg = masks::put(b.iflg, n, false);
    if is_transmit(c, n) {
        b.abtak = masks::put(b.abtak, n, false);
    }
    b
}

#[tactic(auto, unfolding(masks::specs::Pick::pick, rules::specs::Writes::write_iflg))]
fn write_iflg(c: Control, n: u8, v: u8) -> Control
    ensures { result ≡ write_iflg c n v }
{
    let mut next = c;
    if has(v, IFLG) && !c.mode.init {
        next.buffers = clear_iflg(c, n);
    }
    next
}

// IFLG and ABTAK of buffer n set, and the buffer disarmed.
fn abort(c: Control, n: u8) -> Buffers
    ensures { result ≡ abort c n }
{
    let mut b = c.buffers;
    b.iflg = masks::put(b.iflg, n, true);
    b.abtak = masks::put(b.abtak, n, true);
    b.armed = masks::put(b.armed, n, false);
    b
}

#[tactic(auto, unfolding(masks::specs::Pick::pick, rules::specs::Writes::write_abtrq))]
fn write_abtrq(c: Control, n: u8, v: u8) -> Control
    ensures { result ≡ write_abtrq c n v }
{
    let mut next = c;
    if has(v, ABTRQ) && !c.mode.init && is_full_transmit(c, n) {
        next.buffers = abort(c, n);
    }
    next
}

#[tactic(auto, unfolding(masks::specs::Pick::pick, crate::specs::CodeDelivery::lock_undelivered))]
fn write_lock(c: Control, n: u8, v: u8) -> Control
    ensures { result ≡ lock_undelivered c n v }
{
    if !has(v, LOCK) {
        release_all(c, n)
    } else if is_locked(c, n) {
        c
    } else {
        lock(c, n)
    }
}

// A write of buffer n's control register: CFG, IENA, IFLG, ABTRQ, LOCK, in this order. No frame that waits for n is delivered: few writes
// deliver one, and whoever carries out the change does it. With the delivery here, the compiler carried the places through every write.
#[tactic(auto, unfolding(masks::specs::Pick::pick, crate::specs::CodeDelivery::undelivered))]
pub fn written_control(c: Control, n: u8, v: u8) -> Control
    ensures { result ≡ undelivered c n v }
{
    let cfg = write_cfg(c, n, v);
    let iena = write_iena(cfg, n, v);
    let iflg = write_iflg(iena, n, v);
    let abtrq = write_abtrq(iflg, n, v);
    write_lock(abtrq, n, v)
}
