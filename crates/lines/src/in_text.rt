// The step of a line where it stands in a text, its LF included: each letter has its length, so no LF has to be searched for.
ghost use Rattle.std.specs.Prelude.{◌≡◌, ◌+◌, ◌<◌, ◌^◌, length};
ghost use Rattle.lines.specs.Found.{found_at, found_by};
ghost use Rattle.lines.specs.Grammar.{no_frame};
ghost use Rattle.lines.specs.CodeFound.{framed_in, read_of};

use crate::{Found, byte, fault, frame_bytes, no_frame, sync_kind, verdict};
use controller::Call;

// A step without a frame, whose LF stands at index at.
fn step(call: Call, at: usize) -> Option<Found>
    ensures { result ≡ found_by (Some call) no_frame at }
{
    Some(Found {
        call,
        frame: no_frame(),
        at,
    })
}

// A frame whose digits begin at index from, if an LF stands behind them.
fn framed(good: bool, digits: &[u8], from: usize) -> Option<Found>
    requires { from + length digits.now < 2 ^ 64 }
    ensures { result ≡ framed_in good digits.now from }
{
    let frame = frame_bytes(digits);
    let end = 2 * frame.size as usize;
    if *digits.get(end)? != b'\n' {
        return None;
    }
    Some(Found {
        call: Call::Frame(good),
        frame,
        at: from + end,
    })
}

// The step that the text begins with, which stands at index from of a longer one.
#[tactic(auto, unfolding(crate::specs::CodeFound::read_of, crate::specs::CodeFound::below, crate::specs::Grammar::is_frame, crate::specs::Grammar::one_of, crate::specs::Grammar::three_of, crate::specs::Grammar::four_of, crate::specs::Grammar::seven_of, masks::specs::Pick::pick))]
fn first(text: &[u8], from: usize) -> Option<Found>
    requires { from + length text.now < 2 ^ 64 }
    ensures { result ≡ read_of text.now from }
{
    match text {
        [b'W', b'\t', high, low, b'\t', high2, low2, b'\n', ..] => {
            step(
                Call::Write(byte(*high, *low)?, byte(*high2, *low2)?),
                from + 7,
            )
        }
        [b'F', b'\t', letter, b'\t', digits @ ..] => framed(verdict(*letter)?, digits, from + 4),
        [b'R', b'\t', high, low, b'\n', ..] => step(Call::Read(byte(*high, *low)?), from + 4),
        [b'T', b'\t', high, low, b'\n', ..] => step(Call::Slot(byte(*high, *low)?), from + 4),
        [b'S', b'\t', kind, b'\n', ..] => step(Call::Sync(sync_kind(*kind)?), from + 3),
        [b'P', b'\t', kind, b'\n', ..] => step(Call::Fault(fault(*kind)?), from + 3),
        [b'M', b'\n', ..] => step(Call::SyncDue, from + 1),
        [b'Q', b'\n', ..] => step(Call::Timeout, from + 1),
        [b'Z', b'\n', ..] => step(Call::Reset, from + 1),
        _ => None,
    }
}

// The step of the line that begins at index from.
pub fn read(s: &[u8], from: usize) -> Option<Found>
    ensures { result ≡ found_at s.now from }
{
    if s.len() < from {
        return None;
    }
    first(&s[from..], from)
}
