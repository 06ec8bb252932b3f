// The report's heading and rows, written into a lent room at an index. A row is written whole or not at all.
#![tactic(auto)]

mod puts;
mod texts;

ghost use Rattle.std.specs.Prelude.{◌≡◌, ◌+◌, [], ◌∷◌, take, nat_le};
ghost use Rattle.rules.specs.Answers.{word_of, detail_of};
ghost use Rattle.report.specs.Text.{Put, fitting, width_of, word_text, unread_text, detail_text, heading_of};
ghost use Rattle.report.specs.CodeNumbers.{number_of, next_number, numbered_row};

use puts::Writer;
use rules::Answer;

// A line's number, kept as digits, so that the next line's is a sum and not a division for each digit. All fields are eight bytes
// wide: no padding to copy.
#[derive(Clone, Copy)]
pub struct Number {
    // the decimal digits and a tab behind them, the first in the lowest byte
    pub digits: u64,
    // 1 in the last digit's place
    pub unit: u64,
    // how often the last digit can be counted up
    pub until: u64,
    // how many digits
    pub len: usize,
}

// The number of a line number's digits, at most six.
#[tactic(auto, unfolding(crate::specs::Text::width_of, masks::specs::Pick::pick))]
fn width(n: u32) -> usize
    ensures { result ≡ width_of n }
{
    match n {
        0..10 => 1,
        10..100 => 2,
        100..1000 => 3,
        1000..10000 => 4,
        10000..100000 => 5,
        _ => 6,
    }
}

// The number n, of one above 999,999 its last six digits. They are found from the last to the first.
pub fn number_of(n: u32) -> Number
    ensures { result ≡ number_of n }
{
    let len = width(n);
    let mut digits: u64 = 9;
    let mut place: u64 = 1;
    let mut rest = n;
    for _ in 0..len {
        digits = digits * 256 + 48 + (rest % 10) as u64;
        place *= 256;
        rest /= 10;
    }
    Number {
        digits,
        unit: place / 256,
        until: 9 - (n % 10) as u64,
        len,
    }
}

// The number m, which comes after x.
#[tactic(auto, unfolding(crate::specs::CodeNumbers::next_number, crate::specs::CodeNumbers::counted_up, masks::specs::Pick::pick))]
pub fn number_next(x: Number, m: u32) -> Number
    ensures { result ≡ next_number x m }
{
    if 0 < x.until {
        return Number {
            digits: x.digits.wrapping_add(x.unit),
            until: x.until - 1,
            ..x
        };
    }
    number_of(m)
}

// A room of so many bytes has place for so many more from the index on. Told without their sum, which may be too large.
pub fn has_room(size: usize, at: usize, need: usize) -> bool
    ensures { result ≡ nat_le (at + need) size }
{
    need <= size && at <= size - need
}

// The row of a step: its line's number, its answer with the frame that was sent, of which only fourteen bytes count, the five lines
// after it, and how many buffers were examined. Answers the index behind the row. Where fewer than 64 bytes are left, nothing is written
// and the index stays. Room and index come apart: who calls keeps the index, and has the room lent anew for each piece. What a row shows
// comes as it is: both callers would make a struct of it for this call alone.
pub fn row(
    out: &mut [u8],
    at: usize,
    x: Number,
    a: Answer,
    sent: &[u8],
    irq: u8,
    looked: u8,
) -> usize
    ensures { Put out.old at (fitting out.old at (numbered_row x (word_text (word_of a)) (detail_text (detail_of a (take 14 sent.now))) irq looked)) out.new result }
{
    if !has_room(out.len(), at, 64) {
        return at;
    }
    let sent = &sent[..sent.len().min(14)];
    let mut row = Writer { out, at };
    row.number(x);
    row.answer(a, sent);
    row.end(irq, looked);
    row.at
}

// The row of a line that is no step, in the same way.
pub fn unread_row(out: &mut [u8], at: usize, x: Number, irq: u8) -> usize
    ensures { Put out.old at (fitting out.old at (numbered_row x unread_text (45 ∷ []) irq 0)) out.new result }
{
    if !has_room(out.len(), at, 64) {
        return at;
    }
    let mut row = Writer { out, at };
    row.number(x);
    row.put(*b"unread\t-\t");
    row.end(irq, 0);
    row.at
}

// The heading, in the same way.
pub fn heading(out: &mut [u8], at: usize) -> usize
    ensures { Put out.old at (fitting out.old at heading_of) out.new result }
{
    if !has_room(out.len(), at, 64) {
        return at;
    }
    let mut row = Writer { out, at };
    row.put(*b"line\tanswer\tdetail\tirq\tlooked\n");
    row.at
}
