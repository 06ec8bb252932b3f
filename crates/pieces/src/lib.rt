// The line of a text that comes in pieces.
#![tactic(auto)]

ghost use Rattle.std.specs.Prelude.{◌≡◌, ℕ, List, ◌+◌, ◌-◌, ◌≤◌, false, length};
ghost use Rattle.pieces.specs.Feed.{none_held, number_after, is_read};
ghost use Rattle.pieces.specs.Feeding.{Eats, Ends};
ghost use Rattle.pieces.specs.CodeGather.{gather_from, gather_of, Clear};

// The bytes of a line that is not ended yet: the first len of them. A length of 65 stands for any above 64, so that `bytes.get(..len)` is
// the line, or none where it is longer. Fixed memory: it is carried between two pieces.
#[derive(Clone, Copy)]
pub struct Held {
    pub bytes: [u8; 64],
    pub len: u8,
}

// What is held after a part of a piece, the index up to which the bytes were taken, and whether an LF stands there. A flag and no enum:
// the other two are asked for either way.
#[derive(Clone, Copy)]
pub struct Gathered {
    pub held: Held,
    pub at: usize,
    pub ended: bool,
}

// What a session, which eats a text piece by piece, makes of a piece: the session after it, how many of the piece's bytes were taken, and
// how many bytes they gave.
#[derive(Clone, Copy)]
pub struct Fed<S> {
    pub session: S,
    pub taken: usize,
    pub written: usize,
}

// What it makes of the text's end: the session after the last line, and how many bytes that line gave.
#[derive(Clone, Copy)]
pub struct Finished<S> {
    pub session: S,
    pub written: usize,
}

// A session that is fed a text piece by piece and writes for its lines.
pub trait Feeding: Copy {
    // what is written for a text that is fed to the session, its last line included
    ghost whole: { Self → List ℕ → List ℕ };

    // the session after that
    ghost after: { Self → List ℕ → Self };

    // Feeds a piece, and writes at the start of out. A byte is taken while there is room: with 128 bytes at least one is.
    fn feed(self, piece: &[u8], out: &mut [u8]) -> Fed<Self>
        ensures { Eats whole after self piece.now out.old result out.new };

    // Ends the text: a last line that is not ended is written too, where out has 128 bytes.
    fn finish(self, out: &mut [u8]) -> Finished<Self>
        ensures { Ends whole after self out.old result out.new };
}

// No line yet.
pub fn none() -> Held
    ensures { result ≡ none_held }
{
    Held {
        bytes: [0u8; 64],
        len: 0,
    }
}

// The next line's number. It counts on past the last line that is read, as far as its 32 bits go.
#[tactic(auto, unfolding(crate::specs::Feed::number_after, masks::specs::Pick::pick))]
pub fn number_after(n: u32) -> u32
    ensures { result ≡ number_after n }
{
    n.saturating_add(1)
}

// Takes the bytes of the piece from index from, up to an LF, to index to or to the piece's end. From an index beyond
// that nothing is taken, and at is that index.
pub fn gather(held: Held, piece: &[u8], from: usize, to: usize) -> Gathered
    ensures { result ≡ gather_of held piece.now from to }
{
    let end = to.min(piece.len());
    // the bytes are copied here, once for the call
    let Held { mut bytes, mut len } = held;
    for i in from..end {
        let b = piece[i];
        if b == b'\n' {
            return Gathered {
                held: Held { bytes, len },
                at: i,
                ended: true,
            };
        }
        if len < 64 {
            bytes[len as usize] = b;
            len += 1;
        } else {
            len = 65;
        }
    }
    let rest = Held { bytes, len };
    Gathered {
        held: rest,
        at: end.max(from),
        ended: false,
    }
}

// What is held of the bytes from index from to index to, a line having ended before them.
pub fn held_from(piece: &[u8], from: usize, to: usize) -> Held
    ensures { result ≡ (gather_of none_held piece.now from to).held }
{
    gather(none(), piece, from, to).held
}

// A line of this number is read.
#[tactic(auto, unfolding(crate::specs::Feed::is_read))]
pub fn is_read(number: u32) -> bool
    ensures { result ≡ is_read number }
{
    number <= 999999
}

// An LF is among the four bytes from index i on. By |, not ||, so that no byte costs a branch.
fn lf_in_four(s: &[u8], i: usize) -> bool
    requires { i + 4 ≤ length s.now }
    ensures { result ≡ false → Clear s.now i 4 }
{
    (s[i] == b'\n') | (s[i + 1] == b'\n') | (s[i + 2] == b'\n') | (s[i + 3] == b'\n')
}

// An LF is among the sixteen bytes from index i on.
fn lf_in_sixteen(s: &[u8], i: usize) -> bool
    requires { i + 16 ≤ length s.now }
    ensures { result ≡ false → Clear s.now i 16 }
{
    lf_in_four(s, i) | lf_in_four(s, i + 4) | lf_in_four(s, i + 8) | lf_in_four(s, i + 12)
}

// Skips sixteen bytes at a time while no LF is among them: from the index reached, gather stops where it does from index from.
fn without_lf(s: &[u8], from: usize, end: usize) -> usize
    requires { end ≤ length s.now }
    ensures onward { from ≤ result }
    ensures same_end { (gather_from none_held s.now from (end - from)).at ≡ (gather_from none_held s.now result (end - result)).at }
{
    for i in (from..end).step_by(16) {
        if end - i < 16 || lf_in_sixteen(s, i) {
            return i;
        }
    }
    end.max(from)
}

// The index up to which gather takes the bytes: that of the first LF from index from on, if one is there.
pub fn line_end(piece: &[u8], from: usize, to: usize) -> usize
    ensures { result ≡ (gather_of none_held piece.now from to).at }
{
    let end = to.min(piece.len());
    let start = without_lf(piece, from, end);
    for i in start..end {
        if piece[i] == b'\n' {
            return i;
        }
    }
    end.max(start)
}
