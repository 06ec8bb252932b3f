// The bench. A line of the input is a session's heading (#), a step as the replay text writes it, with spaces for tabs, or a remark
// (/); or it says how large a slot's room is from now on (room).
use controller::{Answered, Call, Controller, Done};
use lines::{FrameBytes, Parsed};
use pieces::Held;
use rules::Answer;
use std::io;

#[derive(Clone, Copy)]
struct Session {
    controller: Controller,
    room: u8,
}

// A session, and the line that has not ended yet.
#[derive(Clone, Copy)]
pub struct Bench {
    session: Session,
    held: Held,
}

// Before a session's first step. A room has six bytes more than a frame can fill. No Default: the controller has none, but `after_reset`.
fn fresh() -> Session {
    let c = Controller::after_reset();
    Session {
        controller: c,
        room: 20,
    }
}

pub(crate) fn start() -> Bench {
    Bench {
        session: fresh(),
        held: pieces::none(),
    }
}

fn hexes(rt: &impl Print, bytes: &[u8]) -> io::Result<()> {
    for b in bytes {
        print!(rt; "{b:02X}")?;
    }
    Ok(())
}

// The text from byte 1 on.
fn rest(rt: &impl Print, text: &[u8], end: usize) -> io::Result<()> {
    match text.get(1..end) {
        Some(text) => rt.write_all(text),
        None => Ok(()),
    }
}

// The row of an answer as the replay text has it, behind the number of its line; sent is a sent frame's bytes. Answer and count apart, as
// `report::row` takes them.
fn row(rt: &impl Print, answer: Answer, sent: &[u8], irq: u8, looked: u8) -> io::Result<()> {
    let mut text = [0u8; 64];
    let end = report::row(
        &mut text,
        0,
        report::number_of(1),
        answer,
        sent,
        irq,
        looked,
    );
    rest(rt, &text, end)
}

// The row of a sent frame, which is the room's first k bytes.
fn sent(rt: &impl Print, room: &[u8], k: u8, irq: u8, looked: u8) -> io::Result<()> {
    match room.get(..k as usize) {
        Some(bytes) => row(rt, Answer::Sent(k), bytes, irq, looked),
        None => Ok(()),
    }
}

// The report of a step, the room being as it left it.
fn print(rt: &impl Print, d: Done, room: &[u8]) -> io::Result<Controller> {
    let Answered { answer, looked } = d.answered;
    let next = d.next;
    let irq = next.lines();
    match answer {
        Answer::Sent(k) => sent(rt, room, k, irq, looked)?,
        _ => row(rt, answer, b"", irq, looked)?,
    }
    Ok(next)
}

// A frame, its bytes being a value.
fn framed(c: Controller, good: bool, f: FrameBytes) -> Done {
    let n = lines::frame_size(f);
    c.frame(good, &f.bytes[..n])
}

// The call, by its method and not by `step`: so each of them is run.
fn called(c: Controller, call: Call, f: FrameBytes, room: &mut [u8]) -> Done {
    match call {
        Call::Reset => c.reset(),
        Call::Read(a) => c.read(a),
        Call::Write(a, v) => c.write(a, v),
        Call::Sync(k) => c.sync(k),
        Call::SyncDue => c.sync_due(),
        Call::Slot(i) => c.slot(i, room),
        Call::Frame(good) => framed(c, good, f),
        Call::Fault(k) => c.fault(k),
        Call::Timeout => c.timeout(),
    }
}

// The call with a room of so many bytes, at most twenty, all EE, which is printed after a slot.
fn reported(
    rt: &impl Print,
    c: Controller,
    call: Call,
    f: FrameBytes,
    size: u8,
) -> io::Result<Controller> {
    let mut room = [0xEEu8; 20];
    if 20 < size {
        return Ok(c);
    }
    let n = size as usize;
    let lent = &mut room[..n];
    let d = called(c, call, f, lent);
    let next = print(rt, d, lent)?;
    if !matches!(call, Call::Slot(_)) {
        return Ok(next);
    }
    rt.print("room ")?;
    hexes(rt, lent)?;
    rt.print("\n")?;
    Ok(next)
}

// A byte of a step's line: a tab for a space.
fn tab(b: u8) -> u8 {
    if b == b' ' { b'\t' } else { b }
}

fn show(rt: &impl Print, h: Held) -> io::Result<()> {
    match h.bytes.get(..h.len as usize) {
        Some(line) => rt.write_all(line),
        None => Ok(()),
    }
}

// The value of two digits, as a read's address has it; 0 for other bytes, which the input doesn't have.
fn value(high: u8, low: u8) -> u8 {
    match lines::parse(&[b'R', b'\t', high, low]).line {
        Some(Call::Read(a)) => a,
        _ => 0,
    }
}

// The line as the replay text has it, read as a step.
fn parsed(h: Held) -> Parsed {
    let n = h.len as usize;
    if 64 < n {
        return lines::unread();
    }
    let mut bytes = h.bytes;
    for b in &mut bytes {
        *b = tab(*b);
    }
    lines::parse(&bytes[..n])
}

fn step(rt: &impl Print, s: Session, h: Held) -> io::Result<Session> {
    let p = parsed(h);
    show(rt, h)?;
    let Some(call) = p.line else {
        rt.print("\tunread\n")?;
        return Ok(s);
    };
    Ok(Session {
        controller: reported(rt, s.controller, call, p.frame, s.room)?,
        room: s.room,
    })
}

// A line of the input.
fn line(rt: &impl Print, s: Session, h: Held) -> io::Result<Session> {
    if h.len == 0 {
        return Ok(s);
    }
    match h.bytes {
        [b'#', ..] => {
            show(rt, h)?;
            rt.print("\n")?;
            Ok(fresh())
        }
        [b'/', ..] => Ok(s),
        // room, a space and two digits
        [b'r', _, _, _, _, high, low, ..] => Ok(Session {
            controller: s.controller,
            room: value(high, low),
        }),
        _ => step(rt, s, h),
    }
}

// The line with one more byte, as far as it has room. Not `pieces::gather`: a longer line is cut here, and not unread.
fn longer(h: Held, b: u8) -> Held {
    let mut next = h;
    if h.len < 64 {
        next.bytes[h.len as usize] = b;
        next.len += 1;
    }
    next
}

fn byte(rt: &impl Print, t: Bench, b: u8) -> io::Result<Bench> {
    if b == b'\n' {
        return Ok(Bench {
            session: line(rt, t.session, t.held)?,
            held: pieces::none(),
        });
    }
    Ok(Bench {
        session: t.session,
        held: longer(t.held, b),
    })
}

// The bench after some bytes of the input.
pub(crate) fn fed(rt: &impl Print, t: Bench, piece: &[u8]) -> io::Result<Bench> {
    let mut next = t;
    for b in piece {
        next = byte(rt, next, *b)?;
    }
    Ok(next)
}
