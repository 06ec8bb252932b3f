// One line of a recording, without its LF, as a step. Any bytes get an answer: what is no step is unread.
#![tactic(auto)]

mod in_text;

ghost use Rattle.std.specs.Prelude.{◌≡◌, ◌≤◌, length, option_map};
ghost use Rattle.lines.specs.Grammar.{bytes_in, no_bytes, no_frame, byte_of, plain_of, sync_of, fault_of, short_of, decode_from, frame_line, line_of};
ghost use Rattle.lines.specs.CodeFound.{wide_of, below, verdict_of, frame_in};

use controller::Call;
pub use in_text::read;
use rules::{Fault, SyncKind};

// A frame's bytes as a value: the first size of them, all where size is larger. No line has more than thirty. The rules look at the
// first two; the thirty-two behind them are copied as two words of sixteen, where an odd rest would overlap and each copy of it wait for the
// one before.
#[derive(Clone, Copy)]
pub struct FrameBytes {
    pub bytes: [u8; 34],
    pub size: u8,
}

// How many bytes the frame has.
pub fn frame_size(f: FrameBytes) -> usize
    ensures { result ≡ length (bytes_in f) }
{
    (f.size as usize).min(34)
}

// The step that a line is, none where it is unread; and the bytes of its frame beside it, none where it is no frame.
#[derive(Clone, Copy)]
pub struct Parsed {
    pub line: Option<Call>,
    pub frame: FrameBytes,
}

// A step that stands in a text: its call, its frame's bytes, and the index of its line's LF.
#[derive(Clone, Copy)]
pub struct Found {
    pub call: Call,
    pub frame: FrameBytes,
    pub at: usize,
}

// The value of an upper-case hexadecimal digit, or 256. Sixteen arms make a table, without a branch. A number and no Option: that is two tables
// and two tests a digit, and blanking a recording of long frames took from a quarter to a half more time.
#[tactic(auto, unfolding(crate::specs::Grammar::nibble_of, crate::specs::CodeFound::wide_of, masks::specs::Pick::pick))]
fn wide(b: u8) -> u16
    ensures value { result ≡ wide_of b }
    ensures bound { result ≤ 256 }
{
    match b {
        b'0' => 0,
        b'1' => 1,
        b'2' => 2,
        b'3' => 3,
        b'4' => 4,
        b'5' => 5,
        b'6' => 6,
        b'7' => 7,
        b'8' => 8,
        b'9' => 9,
        b'A' => 10,
        b'B' => 11,
        b'C' => 12,
        b'D' => 13,
        b'E' => 14,
        b'F' => 15,
        _ => 256,
    }
}

// The value of two digits: one test serves both. Always inlined: called, it cost a recording of long frames 7 %.
#[inline(always)]
fn byte(high: u8, low: u8) -> Option<u8>
    ensures { result ≡ below 256 (byte_of high low) }
{
    let value = wide(high) * 16 + wide(low);
    if value < 256 { Some(value as u8) } else { None }
}

// The kind of sync that S names.
#[tactic(auto, unfolding(crate::specs::Grammar::sync_of, masks::specs::Pick::pick))]
fn sync_kind(kind: u8) -> Option<SyncKind>
    ensures { sync_of kind ≡ option_map (λ k. Call.Sync k) result }
{
    match kind {
        b'N' => Some(SyncKind::Normal),
        b'A' => Some(SyncKind::Alarm),
        _ => None,
    }
}

// The fault that P names.
#[tactic(auto, unfolding(crate::specs::Grammar::fault_of, masks::specs::Pick::pick))]
fn fault(kind: u8) -> Option<Fault>
    ensures { fault_of kind ≡ option_map (λ k. Call.Fault k) result }
{
    match kind {
        b'E' => Some(Fault::Early),
        b'L' => Some(Fault::Lost),
        b'I' => Some(Fault::Illegal),
        b'M' => Some(Fault::Mismatch),
        _ => None,
    }
}

// Any line but a frame's.
#[tactic(auto, unfolding(crate::specs::Grammar::short_of, crate::specs::Grammar::one_of, crate::specs::Grammar::three_of, crate::specs::Grammar::four_of, crate::specs::Grammar::seven_of, crate::specs::CodeFound::below, masks::specs::Pick::pick))]
fn short(s: &[u8]) -> Option<Call>
    ensures { result ≡ short_of s.now }
{
    match s {
        [b'Z'] => Some(Call::Reset),
        [b'M'] => Some(Call::SyncDue),
        [b'Q'] => Some(Call::Timeout),
        [b'S', b'\t', kind] => Some(Call::Sync(sync_kind(*kind)?)),
        [b'P', b'\t', kind] => Some(Call::Fault(fault(*kind)?)),
        [b'R', b'\t', high, low] => Some(Call::Read(byte(*high, *low)?)),
        [b'T', b'\t', high, low] => Some(Call::Slot(byte(*high, *low)?)),
        [b'W', b'\t', high, low, b'\t', high2, low2] => {
            Some(Call::Write(byte(*high, *low)?, byte(*high2, *low2)?))
        }
        _ => None,
    }
}

// A frame without bytes.
fn no_frame() -> FrameBytes
    ensures { result ≡ no_frame }
{
    FrameBytes {
        bytes: [0u8; 34],
        size: 0,
    }
}

// A line that brings no frame.
fn plain(line: Option<Call>) -> Parsed
    ensures { result ≡ plain_of line }
{
    Parsed {
        line,
        frame: no_frame(),
    }
}

// The verdict: G or B.
#[tactic(auto, unfolding(crate::specs::CodeFound::verdict_of, masks::specs::Pick::pick))]
fn verdict(letter: u8) -> Option<bool>
    ensures { result ≡ verdict_of letter }
{
    match letter {
        b'G' => Some(true),
        b'B' => Some(false),
        _ => None,
    }
}

// The bytes of two digits each that the digits begin with: no line has more than thirty. Always inlined: blanking asks for no frame's bytes, and
// then none is stored.
#[inline(always)]
fn frame_bytes(digits: &[u8]) -> FrameBytes
    ensures { result ≡ frame_in digits.now }
{
    let mut bytes = [0u8; 34];
    let mut rest = digits;
    for size in 0..30 {
        let [high, low, after @ ..] = rest else {
            return FrameBytes { bytes, size };
        };
        let Some(value) = byte(*high, *low) else {
            return FrameBytes { bytes, size };
        };
        bytes[size as usize] = value;
        rest = after;
    }
    FrameBytes { bytes, size: 30 }
}

// A frame's digits, two a byte.
fn decode(good: bool, digits: &[u8]) -> Parsed
    requires { length digits.now ≤ 60 }
    ensures { result ≡ decode_from good no_bytes 0 digits.now }
{
    let frame = frame_bytes(digits);
    if digits.len() != 2 * frame.size as usize {
        return unread();
    }
    Parsed {
        line: Some(Call::Frame(good)),
        frame,
    }
}

// A frame's line behind its verdict.
#[tactic(auto, unfolding(crate::specs::Grammar::frame_line, crate::specs::CodeFound::verdict_of, masks::specs::Pick::pick))]
fn frame(letter: u8, digits: &[u8]) -> Parsed
    requires { length digits.now ≤ 60 }
    ensures { result ≡ frame_line letter digits.now }
{
    match verdict(letter) {
        Some(good) => decode(good, digits),
        None => unread(),
    }
}

// The step that a line without its LF is.
#[tactic(auto, unfolding(crate::specs::Grammar::line_of, crate::specs::Grammar::is_frame, masks::specs::Pick::pick))]
pub fn parse(s: &[u8]) -> Parsed
    ensures { result ≡ line_of s.now }
{
    if 64 < s.len() {
        return unread();
    }
    match s {
        [b'F', b'\t', letter, b'\t', digits @ ..] => frame(*letter, digits),
        _ => plain(short(s)),
    }
}

// A line that is no step.
pub fn unread() -> Parsed
    ensures { result ≡ plain_of None }
{
    plain(None)
}
