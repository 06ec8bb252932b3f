// What the first unread line looks like, said on standard error: a recording with other line ends or blanks is unread from end to end, and
// nothing else would say why. Document 01's answers are not touched.
use pieces::Held;
use std::fmt;

// A line as it is held: all of it, or of one over 64 bytes the first ones.
#[derive(Clone, Copy)]
enum Looks<'a> {
    Line(&'a [u8]),
    Start(&'a [u8]),
}

// It has marks of another encoding than plain text.
fn encoded(s: &[u8]) -> Option<&'static str> {
    match s {
        [0xFE | 0xFF, ..] => Some("begins with a byte that no text has; saved as UTF-16?"),
        [0xEF, 0xBB, 0xBF, ..] => Some("begins with a byte-order mark; saved as UTF-8 with BOM?"),
        _ if s.contains(&0) => Some("has a NUL byte; UTF-16, or no text at all?"),
        _ => None,
    }
}

// The lower case of an event's letter.
fn lower(b: u8) -> bool {
    matches!(
        b,
        b'z' | b'w' | b'r' | b'f' | b's' | b'p' | b'm' | b't' | b'q'
    )
}

// What is said behind a first byte that is no event's letter.
fn behind(s: &[u8]) -> &'static str {
    match s {
        [b'#', ..] => "; a recording has no comments",
        [letter, ..] if lower(*letter) => "; letters and digits are upper case",
        [b'0'..=b'9', ..] => "; a report instead of a recording?",
        [b'u', _, _, _, _, b'd'] => {
            "; in a blanked recording 'unread' stands for a line that was unread"
        }
        _ => ", which is no event's letter",
    }
}

// A line whose first byte is no event's letter: that byte is shown as a sign or by its number.
fn unknown<W: fmt::Write>(f: &mut fmt::Formatter<W>, s: &[u8], letter: u8) -> fmt::Result {
    let words = behind(s);
    match letter {
        b' ' => f.write_str("begins with a space"),
        b'\t' => f.write_str("begins with a tab"),
        b'!'..=b'~' => {
            let sign = char::from(letter);
            write!(f, "begins with '{sign}'{words}")
        }
        _ => write!(f, "begins with byte 0x{letter:02x}{words}"),
    }
}

// A frame's line, its blanks and cases being right.
fn frame(s: &[u8]) -> &'static str {
    let [_, b'\t', b'G' | b'B', b'\t', digits @ ..] = s else {
        return "F wants G or B, a tab and the frame's bytes";
    };
    if digits
        .iter()
        .all(|b| matches!(b, b'0'..=b'9' | b'A'..=b'F'))
    {
        return "an odd number of digits; each byte of a frame has two";
    }
    "a frame's bytes are hex digits, run together"
}

// What an event's letter wants behind it.
fn fields(s: &[u8], letter: u8) -> &'static str {
    match letter {
        b'W' => "W wants an address and a value, two hex digits each",
        b'R' => "R wants an address of two hex digits",
        b'T' => "T wants a slot of two hex digits",
        b'S' => "S wants N or A",
        b'P' => "P wants E, L, I or M",
        b'F' => frame(s),
        _ => "Z, M and Q have nothing behind them",
    }
}

// A line that begins with an event's letter.
fn known(s: &[u8], letter: u8) -> &'static str {
    let tabs = s.contains(&b'\t');
    if s.contains(&b' ') {
        if tabs {
            return "has a space; a tab parts two fields, and nothing parts a frame's bytes";
        }
        return "has a space and no tab; spaces instead of tabs?";
    }
    if s.contains(&b'$') || s.contains(&b'x') {
        return "has $ or x; a number is two hex digits alone";
    }
    if s.iter().any(|b| matches!(b, b'a'..=b'z')) {
        return "has lower case; letters and digits are upper case";
    }
    if !tabs && 1 < s.len() {
        return "has no tab; a tab parts two fields";
    }
    fields(s, letter)
}

// What the line looks like.
impl fmt::Display for Looks<'_> {
    fn fmt<W: fmt::Write>(&self, f: &mut fmt::Formatter<W>) -> fmt::Result {
        let (Looks::Line(s) | Looks::Start(s)) = self;
        if let Some(words) = encoded(s) {
            return f.write_str(words);
        }
        match self {
            Looks::Start(s) if s.contains(&b'\r') => {
                f.write_str("over 64 bytes, with CR inside; line ends without LF?")
            }
            Looks::Start(_) => f.write_str("over 64 bytes"),
            Looks::Line([]) => f.write_str("empty"),
            Looks::Line([.., b'\r']) => f.write_str("ends in CR; Windows line ends?"),
            Looks::Line([letter, ..]) => match *letter {
                b'Z' | b'W' | b'R' | b'F' | b'S' | b'P' | b'M' | b'T' | b'Q' => {
                    f.write_str(known(s, *letter))
                }
                letter => unknown(f, s, letter),
            },
        }
    }
}

// The line that is held; a length of 65 stands for any above 64.
fn seen(held: &Held) -> Looks<'_> {
    match held.bytes.get(..held.len as usize) {
        Some(line) => Looks::Line(line),
        None => Looks::Start(&held.bytes),
    }
}

// Says it of the line that is held, of this number.
pub(crate) fn give(rt: &impl Eprint, held: &Held, number: u32) {
    let looks = seen(held);
    let _ = eprintln!(rt; "hevrukan: line {number} unread: {looks}");
}

// The line that is held is no step.
fn unread(held: &Held) -> bool {
    match seen(held) {
        Looks::Line(line) => lines::parse(line).line.is_none(),
        Looks::Start(_) => true,
    }
}

// Goes through a piece that has the recording's first unread line, whose first line is held and has this number.
pub(crate) fn seek(rt: &impl Eprint, held: Held, first: u32, piece: &[u8]) {
    let mut line = held;
    let mut number = first;
    for part in piece.split_inclusive(|b| *b == b'\n') {
        let g = pieces::gather(line, part, 0, part.len());
        if !g.ended {
            return;
        }
        if unread(&g.held) {
            give(rt, &g.held, number);
            return;
        }
        line = pieces::none();
        number = pieces::number_after(number);
    }
}
