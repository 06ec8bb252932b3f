// The parts of a row.
ghost use Rattle.std.specs.Prelude.{◌≡◌, ◌+◌, ◌<◌, ◌≤◌, [], ◌∷◌, ◌++◌, length};
ghost use Rattle.rules.specs.Answers.{word_of, given_of, detail_of};
ghost use Rattle.report.specs.Text.{digit_of, hex_of, hexes_of, word_text, kind_text, detail_text, count_text, end_text};
ghost use Rattle.report.specs.CodeAnswer.{hex_in, before_hex};
ghost use Rattle.report.specs.CodeWriter.{Appends, AppendsNumber};

use crate::Number;
use crate::puts::Writer;
use rules::{Answer, SyncKind};

// An upper-case hexadecimal digit.
#[tactic(auto, unfolding(crate::specs::Text::digit_of, masks::specs::Pick::pick))]
fn digit(d: u8) -> u8
    requires { d < 16 }
    ensures { result ≡ digit_of d }
{
    b"0123456789ABCDEF"[d as usize]
}

// The value, buffer or refusal that a row shows in hex.
fn hex_in(a: Answer) -> Option<u8>
    ensures { result ≡ hex_in (given_of a) }
{
    match a {
        Answer::Value(n)
        | Answer::Stored(n)
        | Answer::Queued(n)
        | Answer::HeldOff(n)
        | Answer::Refused(n)
        | Answer::Waiting(n) => Some(n),
        _ => None,
    }
}

impl Writer<'_> {
    // A number and its tab, by one store of eight bytes: what the row puts next covers those behind the tab.
    pub(crate) fn number(&mut self, x: Number)
        requires { self.old.at + 8 ≤ length self.old.out.now }
        ensures { AppendsNumber self.old x self.new }
    {
        let at = self.at;
        self.put(x.digits.to_le_bytes());
        self.at = at + x.len % 8 + 1;
    }

    #[tactic(auto, unfolding(crate::specs::Text::hex_of))]
    fn hex(&mut self, v: u8)
        requires { self.old.at + 2 ≤ length self.old.out.now }
        ensures { Appends self.old (hex_of v) self.new }
    {
        self.put([digit(v / 16), digit(v % 16)]);
    }

    // A frame's bytes, run together.
    fn hexes(&mut self, s: &[u8])
        requires { self.old.at + (length s.now + length s.now) ≤ length self.old.out.now }
        ensures { Appends self.old (hexes_of s.now) self.new }
    {
        for v in s {
            self.hex(*v);
        }
    }

    // A value and a tab.
    fn hex_field(&mut self, v: u8)
        requires { self.old.at + 3 ≤ length self.old.out.now }
        ensures { Appends self.old (hex_of v ++ (9 ∷ [])) self.new }
    {
        self.hex(v);
        self.put([b'\t']);
    }

    // A frame and a tab.
    fn frame_field(&mut self, s: &[u8])
        requires { (self.old.at + 29 ≤ length self.old.out.now) × (length s.now ≤ 14) }
        ensures { Appends self.old (hexes_of s.now ++ (9 ∷ [])) self.new }
    {
        self.hexes(s);
        self.put([b'\t']);
    }

    #[tactic(auto, unfolding(crate::specs::Text::word_texts, crate::specs::Text::kind_text))]
    fn pulse(&mut self, k: SyncKind)
        requires { self.old.at + 8 ≤ length self.old.out.now }
        ensures { Appends self.old (word_text 7 ++ (9 ∷ []) ++ kind_text k ++ (9 ∷ [])) self.new }
    {
        match k {
            SyncKind::Normal => self.put(*b"pulse\tN\t"),
            SyncKind::Alarm => self.put(*b"pulse\tA\t"),
        }
    }

    // A row's answer with its tab, and its detail with its tab unless that is a number in hex.
    #[tactic(auto, unfolding(crate::specs::CodeAnswer::before_hex, masks::specs::Pick::pick, crate::specs::Text::word_texts, crate::specs::Text::given_text, crate::specs::Text::detail_text))]
    fn word(&mut self, a: Answer, sent: &[u8])
        requires { (self.old.at + 34 ≤ length self.old.out.now) × (length sent.now ≤ 14) }
        ensures { Appends self.old (before_hex a sent.now) self.new }
    {
        match a {
            Answer::Ok => self.put(*b"ok\t-\t"),
            Answer::Value(_) => self.put(*b"read\t"),
            Answer::Stored(_) => self.put(*b"stored\t"),
            Answer::Queued(_) => self.put(*b"queued\t"),
            Answer::HeldOff(_) => self.put(*b"heldoff\t"),
            Answer::Sent(_) => {
                self.put(*b"sent\t");
                self.frame_field(sent);
            }
            Answer::Pulse(k) => self.pulse(k),
            Answer::Refused(_) => self.put(*b"refused\t"),
            Answer::Overrun => self.put(*b"overrun\t-\t"),
            Answer::Unmatched => self.put(*b"unmatched\t-\t"),
            Answer::BadFrame => self.put(*b"badframe\t-\t"),
            Answer::Ignored => self.put(*b"ignored\t-\t"),
            Answer::Woke => self.put(*b"woke\t-\t"),
            Answer::NotSent => self.put(*b"notsent\t-\t"),
            Answer::Waiting(_) => self.put(*b"waiting\t"),
        }
    }

    // A row's answer and detail, each with its tab. The number in hex is put in one place for the six answers that have one: with a
    // place in each, the loop over the lines outgrew what the compiler inlines.
    pub(crate) fn answer(&mut self, a: Answer, sent: &[u8])
        requires { (self.old.at + 34 ≤ length self.old.out.now) × (length sent.now ≤ 14) }
        ensures { Appends self.old (word_text (word_of a) ++ (9 ∷ []) ++ detail_text (detail_of a sent.now) ++ (9 ∷ [])) self.new }
    {
        self.word(a, sent);
        if let Some(n) = hex_in(a) {
            self.hex_field(n);
        }
    }

    // A count in decimal, between its tab and the row's LF. Most rows have a 0 here, and none has more than 16.
    fn count(&mut self, k: u8)
        requires { self.old.at + 5 ≤ length self.old.out.now }
        ensures { Appends self.old (count_text k) self.new }
    {
        if k == 0 {
            self.put(*b"\t0\n");
        } else if k < 10 {
            self.put([b'\t', b'0' + k, b'\n']);
        } else if k < 100 {
            self.put([b'\t', b'0' + k / 10, b'0' + k % 10, b'\n']);
        } else {
            self.put([
                b'\t',
                b'0' + k / 100,
                b'0' + k / 10 % 10,
                b'0' + k % 10,
                b'\n',
            ]);
        }
    }

    // The five lines and the count, a row's end.
    pub(crate) fn end(&mut self, irq: u8, looked: u8)
        requires { self.old.at + 7 ≤ length self.old.out.now }
        ensures { Appends self.old (end_text irq looked) self.new }
    {
        self.hex(irq);
        self.count(looked);
    }
}
