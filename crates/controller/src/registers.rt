// What the register calls answer and change. A window shows one buffer: its holder's row is looked up first and given here, and for a
// control register the newest frame that waits for its buffer, so that a step in place reads no more than this row.
ghost use Rattle.std.specs.Prelude.{◌≡◌, ◌≤◌, ◌<◌};
ghost use Rattle.std.specs.Option.{unwrap_or};
ghost use Rattle.contents.specs.declared.Contents.{Contents};
ghost use Rattle.rules.specs.Registers.{register_at};
ghost use Rattle.waiting.specs.Code.{newest_of};
ghost use Rattle.writes.specs.CodeDelivery.{releases};
ghost use Rattle.controller.specs.Code.{holder_of, window_row, window_byte, register_value, read_answer, write_place, window_change, low_change, control_change, write_change};

use crate::changes::{unlooked, with_answer, with_bytes};
use crate::events::row_index;
use crate::{Answered, Change, Controller};
use contents::Contents;
use locks::Locks;
use masks::NONE;
use rules::bits::{LOCK, has};
use rules::{Answer, Control, Refusal, Register};
use waiting::is_awaited;

// Place p of a buffer's window written.
#[tactic(auto, unfolding(crate::specs::Code::write_place, masks::specs::Pick::pick))]
fn write_place(b: [u8; 14], p: u8, v: u8) -> [u8; 14]
    ensures { result ≡ (write_place (record { bytes = b }) p v).bytes }
{
    match p {
        0 => contents::with_ident(b, v),
        1 => contents::with_length(b, v % 16),
        _ => contents::with_data(b, p - 2, v),
    }
}

// The holder that locks name. A number above NONE, which is no buffer's, is given as it stands: `window_row` promises its row.
fn holder(l: Locks) -> Option<u8>
    ensures { unwrap_or result 16 ≡ l.holder }
{
    if l.holder == NONE {
        None
    } else {
        Some(l.holder)
    }
}

// The holder of a register's window; none for a register that is no place of a window.
#[tactic(auto, unfolding(crate::specs::Code::holder_of))]
fn holder_of(c: Control, register: Register) -> Option<u8>
    ensures { unwrap_or result 16 ≡ holder_of c register }
{
    match register {
        Register::TransmitWindow(_) => holder(c.transmit),
        Register::ReceiveWindow(_) => holder(c.receive),
        Register::FifoWindow(_) => kinds::fifo_holder(c),
        _ => None,
    }
}

// Place p of the window whose holder is n, n's row being given; 0 where no buffer holds it.
#[tactic(auto, unfolding(masks::specs::Pick::pick, crate::specs::Code::window_byte))]
fn window_byte(n: Option<u8>, p: u8, row: Contents) -> u8
    ensures { result ≡ window_byte (unwrap_or n 16) p row }
{
    match n {
        Some(n) if n < NONE => contents::byte_at(row.bytes, p),
        _ => 0,
    }
}

// What a register reads, in the control state c; row is that of its window's holder.
#[tactic(auto, unfolding(crate::specs::Code::register_value, crate::specs::Code::holder_of))]
fn register_value(c: Control, register: Register, row: Contents) -> u8
    ensures { result ≡ register_value c register row }
{
    match register {
        Register::TransmitWindow(p) | Register::ReceiveWindow(p) | Register::FifoWindow(p) => {
            window_byte(holder_of(c, register), p, row)
        }
        _ => reads::registers::value_of(c, register),
    }
}

// The window of buffer n with place p written over its row, the control state being c; no window where n is none or no buffer's number.
#[tactic(auto, unfolding(masks::specs::Pick::pick))]
fn write_window(c: Control, n: Option<u8>, p: u8, v: u8, row: Contents) -> Change
    ensures { result ≡ window_change c (unwrap_or n 16) p v row }
{
    match n {
        Some(n) if n < NONE => {
            let bytes = write_place(row.bytes, p, v);
            with_bytes(c, n, Contents { bytes }, Answer::Ok)
        }
        _ => with_answer(c, Answer::Ok),
    }
}

// LOCK of buffer n is written 0, and a frame waits for it.
#[tactic(auto, unfolding(writes::specs::CodeDelivery::releases))]
fn releases(c: Control, n: u8, v: u8) -> bool
    ensures { result ≡ releases c n v }
{
    !has(v, LOCK) && is_awaited(c.places, n)
}

// The write of a register below $50 that gives the control state c, the holders being those of the control state before it.
#[tactic(auto, unfolding(crate::specs::Code::low_change, crate::specs::Code::holder_of))]
fn write_rows(holders: Control, c: Control, register: Register, v: u8, row: Contents) -> Change
    ensures { result ≡ low_change holders c register v row }
{
    match register {
        Register::TransmitWindow(p) | Register::ReceiveWindow(p) => {
            write_window(c, holder_of(holders, register), p, v, row)
        }
        _ => with_answer(c, Answer::Ok),
    }
}

// The place of the newest frame that waits for buffer n; any place where none does.
pub fn newest_place(c: Control, n: u8) -> usize
    ensures { result ≡ newest_of c.places n }
{
    waiting::newest(c.places, n)
}

// What a write of buffer n's control register changes, the control state being c and the newest frame that waits for n in `image`.
// Test code writes these registers most: they have a path of their own from the address on.
#[tactic(auto, using(crate::proofs::RegisterLaws::control_ways), unfolding(masks::specs::Pick::pick, crate::specs::Code::control_change))]
pub fn control_change(c: Control, n: u8, v: u8, image: Contents) -> Change
    ensures { result ≡ control_change c n v image }
{
    if let Err(r) = refusals::control_write_refusal(c, n, v) {
        return with_answer(c, Answer::from(r));
    }
    let d = writes::written_control(c, n, v);
    if releases(c, n, v) {
        with_bytes(waiting::deliver(d, n), n, image, Answer::Ok)
    } else {
        with_answer(d, Answer::Ok)
    }
}

// Index of the row that address a shows: its window's holder's; any row where it has none.
pub fn window_row(c: Control, a: u8) -> usize
    ensures { result ≡ window_row c (register_at a) }
{
    holder_of(c, Register::from(a)).map_or(0, row_index)
}

// The answer to a register read, in the control state c, with that row.
#[tactic(auto, unfolding(masks::specs::Pick::pick, crate::specs::Code::read_answer))]
pub fn read_answer(c: Control, a: u8, row: Contents) -> Answered
    ensures { result ≡ read_answer c a row }
{
    let answer = match refusals::read_refusal(c, a) {
        Ok(()) => Answer::Value(register_value(c, Register::from(a), row)),
        Err(r) => Answer::from(r),
    };
    unlooked(answer)
}

// The same, of a lent record. An address above $5F reaches no register, which is told before the control state is looked at: a line that
// is no step is read so too.
#[tactic(auto, using(crate::proofs::RegisterLaws::reads_far))]
pub fn shown(c: Controller, a: u8, row: Contents) -> Answered
    ensures { result ≡ read_answer c.control a row }
{
    if 0x5F < a {
        return unlooked(Answer::from(Refusal::NoRegister));
    }
    read_answer(c.control, a, row)
}

// What a write below $20 changes: no buffer's bytes.
#[tactic(auto, using(crate::proofs::RegisterLaws::low_ways), unfolding(masks::specs::Pick::pick, crate::specs::Code::write_change))]
pub fn low_change(c: Control, a: u8, v: u8) -> Change
    ensures { (row : Contents) → a < 0x20 → result ≡ write_change c a v row }
{
    if let Err(r) = refusals::write_refusal(c, a, v) {
        return with_answer(c, Answer::from(r));
    }
    let register = Register::from(a);
    with_answer(writes::written_low(c, register, v), Answer::Ok)
}

// What a write from $20 to $4F changes: one byte of the window's holder, whose row is given, and nothing of the control state.
#[tactic(auto, using(crate::proofs::RegisterLaws::window_ways), unfolding(masks::specs::Pick::pick, crate::specs::Code::write_change))]
pub fn window_change(c: Control, a: u8, v: u8, row: Contents) -> Change
    ensures { 0x20 ≤ a → a < 0x50 → result ≡ write_change c a v row }
{
    if let Err(r) = refusals::address_refusal(c, a) {
        return with_answer(c, Answer::from(r));
    }
    let register = Register::from(a);
    write_rows(c, c, register, v, row)
}

// What a register write changes, in the control state c, with the row that address a reaches.
#[tactic(auto, using(crate::proofs::RegisterLaws::write_ways), unfolding(masks::specs::Pick::pick, crate::specs::Code::write_change))]
pub fn write_change(c: Control, a: u8, v: u8, row: Contents) -> Change
    ensures { result ≡ write_change c a v row }
{
    if 0x50 <= a {
        return control_change(c, a - 0x50, v, row);
    }
    if let Err(r) = refusals::write_refusal(c, a, v) {
        return with_answer(c, Answer::from(r));
    }
    let register = Register::from(a);
    write_rows(c, writes::written_low(c, register, v), register, v, row)
}
