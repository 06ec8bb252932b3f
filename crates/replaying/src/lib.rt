// The replay of a recording that comes in pieces: rows of the report out, or nothing but the counts.
#![tactic(auto)]

mod piece_loop;
mod turns;

ghost use Rattle.std.specs.Prelude.{◌≡◌, true, ◌+◌, ◌≤◌, ◌<◌, length};
ghost use Rattle.report.specs.Text.{Wrote, fitting, heading_of};
ghost use Rattle.pieces.specs.Feeding.{whole_by, after_by};
ghost use Rattle.replaying.specs.Replay.{start_of, play, show_row};
ghost use Rattle.replaying.specs.Session.{feed_of, session_of, Feeds, Finishes, counted_by, last_counted};
ghost use Rattle.replaying.specs.CodeLoop.{opened, closed, over_text, Joins, FedBy};

use controller::Controller;
use pieces::{Fed, Feeding, Finished, Gathered, Held};
use report::Number;

// How many lines were no step, and how many steps were refused.
#[derive(Clone, Copy)]
pub struct Tally {
    pub unread: u32,
    pub refused: u32,
}

// The controller that the lines go into.
#[derive(Clone, Copy)]
pub struct Player {
    pub controller: Controller,
    pub tally: Tally,
}

// What is kept between two pieces: the player, the line that is not ended yet, and the number of that line.
#[derive(Clone, Copy)]
pub struct Session {
    pub player: Player,
    pub held: Held,
    pub number: u32,
}

// Where the loop over a piece's lines stands, all but the controller: the line's number as its row shows it, the index of its first byte,
// the index behind the last row, the counts, its number, the five lines, and whether rows are written. No line's bytes are kept here.
#[derive(Clone, Copy)]
struct At {
    digits: Number,
    from: usize,
    written: usize,
    tally: Tally,
    number: u32,
    irq: u8,
    // a field and no const parameter, which a dozen functions would have to name
    rows: bool,
}

// A line with its LF: the first size bytes. No heap here, so the place is fixed.
#[derive(Clone, Copy)]
struct Joined {
    text: [u8; 66],
    size: usize,
}

// Before a recording's first byte.
pub fn start() -> Session
    ensures { feed_of result ≡ start_of }
{
    Session {
        player: Player {
            controller: Controller::after_reset(),
            tally: Tally {
                unread: 0,
                refused: 0,
            },
        },
        held: pieces::none(),
        number: 1,
    }
}

// Writes the heading at the start of out, or nothing where out has less than 64 bytes.
pub fn begin(out: &mut [u8]) -> usize
    ensures { Wrote out.old (fitting out.old 0 heading_of) result out.new }
{
    report::heading(out, 0)
}

// At the first line's first byte.
fn first(s: Session, rows: bool) -> At
    ensures { result ≡ opened s rows }
{
    At {
        digits: report::number_of(s.number),
        from: 0,
        written: 0,
        tally: s.player.tally,
        number: s.number,
        irq: s.player.controller.lines(),
        rows,
    }
}

// A line over 64 bytes: any such stands for it.
fn over() -> Joined
    ensures { result ≡ over_text }
{
    let mut text = [0u8; 66];
    text[65] = b'\n';
    Joined { text, size: 66 }
}

// The line that is held, with its LF. One with an LF inside is no step, as is one over 64 bytes.
fn with_lf(held: Held) -> Joined
    ensures { Joins held result }
{
    let n = held.len as usize;
    if 64 < n {
        return over();
    }
    let line = &held.bytes[..n];
    if line.contains(&b'\n') {
        return over();
    }
    let mut text = [0u8; 66];
    text[..n].copy_from_slice(line);
    text[n] = b'\n';
    Joined { text, size: n + 1 }
}

// The session where the loop stands, with so much held of the next line.
fn session_at(c: Controller, t: At, held: Held, taken: usize) -> Fed<Session>
    ensures { result ≡ closed c t held taken }
{
    Fed {
        session: Session {
            player: Player {
                controller: c,
                tally: t.tally,
            },
            held,
            number: t.number,
        },
        taken,
        written: t.written,
    }
}

// The lines of the piece, as far as the room goes: the first one is held and joined with its end, the others are read where they lie.
fn run(s: Session, piece: &[u8], out: &mut [u8], rows: bool) -> Fed<Session>
    ensures { FedBy rows s piece.now out.old result out.new }
{
    let end = piece.len();
    let size = out.len();
    let mut c = s.player.controller;
    let t = first(s, rows);
    if !turns::has_room(rows, 0, size) {
        return session_at(c, t, s.held, 0);
    }
    let Gathered { held, at, ended } = pieces::gather(s.held, piece, 0, end);
    if !ended {
        return session_at(c, t, held, end);
    }
    let j = with_lf(held);
    let mut room = [0u8; 14];
    // the loop has the record lent: it is copied once a piece and not once a line
    let t = piece_loop::lines_in_place(&mut c, &mut room, &j.text[..j.size], out, t);
    let t = At { from: at + 1, ..t };
    let t = piece_loop::lines_in_place(&mut c, &mut room, piece, out, t);
    if !turns::has_room(rows, t.written, size) {
        return session_at(c, t, pieces::none(), t.from);
    }
    session_at(c, t, pieces::held_from(piece, t.from, end), end)
}

// Feeds a piece of the recording, and writes the rows of its lines at the start of out. A byte is taken while 64 bytes of room are left
// behind the rows: with as much room, at least one is.
pub fn feed(s: Session, piece: &[u8], out: &mut [u8]) -> Fed<Session>
    ensures { Feeds s piece.now out.old result out.new }
{
    run(s, piece, out, true)
}

// Feeds a piece, all of it, and writes nothing: for who wants the counts alone.
#[tactic(auto, using(crate::specs::SessionLaws::counts))]
pub fn count(s: Session, piece: &[u8]) -> Session
    ensures { feed_of result ≡ counted_by s piece.now }
{
    run(s, piece, &mut [], false).session
}

// Ends the recording: a last line that is not ended counts if it is not empty. With less than 64 bytes of room nothing
// happens.
pub fn finish(s: Session, out: &mut [u8]) -> Finished<Session>
    ensures { Finishes s out.old result out.new }
{
    if out.len() < 64 {
        return Finished {
            session: s,
            written: 0,
        };
    }
    if s.held.len == 0 {
        return Finished {
            session: s,
            written: 0,
        };
    }
    // its row is that of the same line with an LF
    let f = feed(s, b"\n", out);
    Finished {
        session: f.session,
        written: f.written,
    }
}

// Ends the recording and writes nothing.
pub fn count_last(s: Session) -> Session
    ensures { feed_of result ≡ last_counted s }
{
    if s.held.len == 0 {
        return s;
    }
    count(s, b"\n")
}

// As any session that is fed a text piece by piece.
impl Feeding for Session {
    ghost whole = { whole_by play show_row feed_of };

    ghost after = { after_by play show_row feed_of session_of };

    fn feed(self, piece: &[u8], out: &mut [u8]) -> Fed<Session> {
        feed(self, piece, out)
    }

    fn finish(self, out: &mut [u8]) -> Finished<Session> {
        finish(self, out)
    }
}
