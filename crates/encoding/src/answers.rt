// The numbers of the answers. Answer and Answered are of other crates, which alone may write a From for them: here it is functions.
ghost use Rattle.std.specs.Prelude.{◌≡◌};
ghost use Rattle.rules.specs.Answers.{word_of, given_of, number_in};
ghost use Rattle.encoding.specs.Answers.{number_of, said_number};

use crate::Wrong;
use controller::Answered;
use rules::Answer;

// The number of an answer's word. A table, as no order gives these: 5 is unused, and Waiting has 15.
fn word(a: Answer) -> u8
    ensures { result ≡ word_of a }
{
    match a {
        Answer::Ok => 0,
        Answer::Value(_) => 1,
        Answer::Stored(_) => 2,
        Answer::Queued(_) => 3,
        Answer::Waiting(_) => 15,
        Answer::HeldOff(_) => 4,
        Answer::Sent(_) => 6,
        Answer::Pulse(_) => 7,
        Answer::Refused(_) => 8,
        Answer::Overrun => 9,
        Answer::Unmatched => 10,
        Answer::BadFrame => 11,
        Answer::Ignored => 12,
        Answer::Woke => 13,
        Answer::NotSent => 14,
    }
}

// The detail of an answer, 0 where it has none. Not what a row shows in hex: a sent frame's size and a pulse's kind count here too.
fn detail(a: Answer) -> u8
    ensures { result ≡ number_in (given_of a) }
{
    match a {
        Answer::Value(n)
        | Answer::Stored(n)
        | Answer::Queued(n)
        | Answer::Waiting(n)
        | Answer::HeldOff(n)
        | Answer::Sent(n)
        | Answer::Refused(n) => n,
        Answer::Pulse(kind) => kind as u8,
        _ => 0,
    }
}

// An answer with its count as a number.
#[tactic(auto, unfolding(crate::specs::Answers::number_of))]
pub fn number(a: Answered) -> u32
    ensures { result ≡ number_of a }
{
    u32::from_be_bytes([0, a.looked, word(a.answer), detail(a.answer)])
}

// The number, or that of what is wrong.
#[tactic(auto, unfolding(crate::specs::Answers::said_number))]
pub fn said(number: Result<u32, Wrong>) -> u32
    ensures { result ≡ said_number number }
{
    number.unwrap_or_else(u32::from)
}
