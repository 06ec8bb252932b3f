// The loop over a piece's lines, but for the controller's steps: a line's step is read, and once it is answered the line is done with.
ghost use Rattle.std.specs.Prelude.{◌≡◌, ◌+◌, ◌^◌, ◌≤◌, ◌<◌, [], ◌∷◌, ◌++◌, length, replicate, drop, take, leb};
ghost use Rattle.rules.specs.Answers.{word_of, detail_of};
ghost use Rattle.report.specs.Text.{Put, fitting, word_text, unread_text, detail_text};
ghost use Rattle.report.specs.CodeNumbers.{numbered_row};
ghost use Rattle.replaying.specs.SentLaws.{sent_size};
ghost use Rattle.replaying.specs.CodeLoop.{shown_if, need_of, goes_on, passes, lines_after, unread_of, counted_of, sought_of, Unreads, Answers};

use crate::{At, Tally};
use controller::{Answered, Controller};
use lines::Found;
use rules::Answer;

// The step of the line where the loop stands: none past the last line that is read.
#[tactic(auto, unfolding(crate::specs::CodeLoop::sought_of, masks::specs::Pick::pick))]
pub(crate) fn seek(piece: &[u8], t: At) -> Option<Found>
    ensures { result ≡ sought_of piece.now t }
{
    if !pieces::is_read(t.number) {
        return None;
    }
    lines::read(piece, t.from)
}

// The five lines after an answer: computed anew only where the answer can have changed them.
#[tactic(auto, unfolding(crate::specs::CodeLoop::lines_after, rules::specs::KeptLinesLaws::keeps_lines, masks::specs::Pick::pick))]
pub(crate) fn lines_after(c: Controller, a: Answered, irq: u8) -> u8
    ensures { result ≡ lines_after c a.answer irq }
{
    match a.answer {
        Answer::Value(_)
        | Answer::HeldOff(_)
        | Answer::Refused(_)
        | Answer::Unmatched
        | Answer::Ignored
        | Answer::NotSent
        | Answer::Waiting(_) => irq,
        _ => c.lines(),
    }
}

// The tally with a line counted that is no step.
fn unread_counted(k: Tally) -> Tally
    ensures { result ≡ unread_of k }
{
    Tally {
        unread: pieces::number_after(k.unread),
        ..k
    }
}

// The tally with an answer counted.
#[tactic(auto, unfolding(crate::specs::CodeLoop::counted_of, masks::specs::Pick::pick))]
fn counted(k: Tally, a: Answer) -> Tally
    ensures { result ≡ counted_of k a }
{
    match a {
        Answer::Refused(_) => Tally {
            refused: pieces::number_after(k.refused),
            ..k
        },
        _ => k,
    }
}

// A room of so many bytes has place for what is shown of a line behind the written ones.
pub(crate) fn has_room(rows: bool, written: usize, size: usize) -> bool
    ensures { result ≡ leb (written + need_of rows) size }
{
    let need = if rows { 64 } else { 0 };
    report::has_room(size, written, need)
}

// A line begins there in a piece of so many bytes, and there is room for what is shown of it.
#[tactic(auto, unfolding(crate::specs::CodeLoop::goes_on))]
pub(crate) fn goes_on(t: At, end: usize, size: usize) -> bool
    ensures { result ≡ goes_on t end size }
{
    t.from < end && has_room(t.rows, t.written, size)
}

// Past the line's LF, which stands before index next.
fn passed(t: At, next: usize, irq: u8, tally: Tally, written: usize) -> At
    ensures { result ≡ passes t next irq tally written }
{
    let number = pieces::number_after(t.number);
    At {
        digits: report::number_next(t.digits, number),
        from: next,
        written,
        tally,
        number,
        irq,
        rows: t.rows,
    }
}

// The row of a line that is no step, where rows are written.
fn put_unread(out: &mut [u8], t: At) -> usize
    ensures { Put out.old t.written (shown_if t.rows (fitting out.old t.written (numbered_row t.digits unread_text (45 ∷ []) t.irq 0))) out.new result }
{
    if !t.rows {
        return t.written;
    }
    report::unread_row(out, t.written, t.digits, t.irq)
}

// The line is no step: it is done with if it ends in the piece, and has its row if it is read.
pub(crate) fn unread_line(piece: &[u8], out: &mut [u8], t: At) -> Option<At>
    ensures { Unreads piece.now out.old t result out.new }
{
    let end = piece.len();
    let at = pieces::line_end(piece, t.from, end);
    if end <= at {
        return None;
    }
    if !pieces::is_read(t.number) {
        return Some(passed(t, at + 1, t.irq, t.tally, t.written));
    }
    let w = put_unread(out, t);
    Some(passed(t, at + 1, t.irq, unread_counted(t.tally), w))
}

// How many of a room's n bytes an answer's row shows.
fn sent_size(a: Answer, n: usize) -> usize
    ensures { result ≡ sent_size a n }
{
    match a {
        Answer::Sent(k) => usize::from(k).min(n),
        _ => 0,
    }
}

// The first k bytes of the room are zero again, for the next slot.
fn clear(room: &mut [u8], k: usize)
    requires { k ≤ length room.old }
    ensures { room.new ≡ replicate k 0 ++ drop k room.old }
{
    room[..k].fill(0);
}

// The row of a step, where rows are written.
fn put_row(out: &mut [u8], t: At, a: Answer, sent: &[u8], irq: u8, looked: u8) -> usize
    ensures { Put out.old t.written (shown_if t.rows (fitting out.old t.written (numbered_row t.digits (word_text (word_of a)) (detail_text (detail_of a (take 14 sent.now))) irq looked))) out.new result }
{
    if !t.rows {
        return t.written;
    }
    report::row(out, t.written, t.digits, a, sent, irq, looked)
}

// The line's step, whose LF stands at index at, was answered so, with the lines irq after it and the room as it left it: its row.
pub(crate) fn answered(
    room: &mut [u8],
    out: &mut [u8],
    t: At,
    at: usize,
    a: Answered,
    irq: u8,
) -> At
    requires { at + 1 < 2 ^ 64 }
    ensures { Answers room.old out.old t at a irq result room.new out.new }
{
    let k = sent_size(a.answer, room.len());
    let w = put_row(out, t, a.answer, &room[..k], irq, a.looked);
    clear(room, k);
    passed(t, at + 1, irq, counted(t.tally, a.answer), w)
}
