// A recording fed piece by piece, and what that gives written.
ghost use Rattle.std.specs.Prelude.{◌≡◌, ◌≤◌, [], length, IfOk, OnOk, IfSome};
ghost use Rattle.std.specs.Io.KnownBytes.{Appends};
ghost use Rattle.console.specs.CodePassing.{Passes};

use crate::ending::Trouble;
use pieces::Feeding;
use std::io::{self, ErrorKind, Read, Write};

// Who looks on while a recording is fed.
pub trait Watching<S> {
    // A piece comes.
    fn before(&mut self, piece: &[u8]);

    // It was fed.
    fn after(&mut self, earlier: S, session: S, piece: &[u8]);

    // No more is read.
    fn stopped(&mut self);

    // A last line that was not ended was fed.
    fn ended(&mut self, earlier: S, session: S);
}

// Writes it, all of it.
pub fn put<W: Write>(to: &mut W, text: &[u8]) -> Result<(), Trouble>
    ensures { OnOk result (Appends (W.contents to.old) (W.contents to.new) text.now) }
{
    to.write_all(text).map_err(Trouble::Writing)
}

// Feeds a piece, and writes what it gives whenever the room is full, and at the piece's end.
fn feed_piece<S: Feeding, W: Write>(
    s: S,
    piece: &[u8],
    out: &mut [u8],
    to: &mut W,
) -> Result<S, Trouble>
    requires { 128 ≤ length out.old }
    ensures { IfOk result (λ r. Passes S.whole S.after s piece.now (W.contents to.old) r [] (W.contents to.new)) }
{
    let mut session = s;
    let mut rest = piece;
    while !rest.is_empty() {
        let f = session.feed(rest, out);
        put(to, &out[..f.written])?;
        session = f.session;
        rest = &rest[f.taken..];
    }
    Ok(session)
}

// Feeds all that is left of a recording, and writes what it gives: whenever the room is full, at each piece's end, and at the recording's. The
// session after it.
pub fn feed_all<S: Feeding, R: Read, W: Write, V: Watching<S>>(
    s: S,
    from: &mut R,
    to: &mut W,
    watching: &mut V,
) -> Result<S, Trouble>
    ensures written { OnOk result (IfSome (R.remaining from.old) (λ text. Appends (W.contents to.old) (W.contents to.new) (S.whole s text))) }
    ensures session { IfOk result (λ r. IfSome (R.remaining from.old) (λ text. r ≡ S.after s text)) }
{
    let mut piece = [0u8; 262144];
    let mut out = [0u8; 262144];
    let mut session = s;
    // no proof can know that input ends: the count of turns does
    for _ in 0..u64::MAX {
        let n = match from.read(&mut piece) {
            Ok(n) => n,
            Err(e) => {
                watching.stopped();
                return Err(Trouble::Reading(e));
            }
        };
        if n == 0 {
            watching.stopped();
            let f = session.finish(&mut out);
            put(to, &out[..f.written])?;
            watching.ended(session, f.session);
            return Ok(f.session);
        }
        watching.before(&piece[..n]);
        let next = feed_piece(session, &piece[..n], &mut out, to)?;
        watching.after(session, next, &piece[..n]);
        session = next;
    }
    watching.stopped();
    Err(Trouble::Reading(io::Error::from(ErrorKind::TimedOut)))
}
