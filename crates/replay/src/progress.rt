// How many lines were read so far, on standard error where that is a terminal, and never otherwise.
use console::Source;
use std::io::IsTerminal;
use std::rt::Clock;

// Whether it is shown at all, whether it stands on the terminal now, whether rows go there too; when it was shown last, and how many
// lines there were. Flags and no enum: each of the three is asked by itself.
#[derive(Clone, Copy)]
pub(crate) struct Progress {
    on: bool,
    stands: bool,
    shared: bool,
    second: u64,
    lines: u32,
}

// The clock's second, which only has to change: 0 where there is no clock.
fn now(rt: &impl Clock) -> u64 {
    rt.since_1970().map_or(0, |time| time.as_secs())
}

// Where the recording is typed in, none is shown: it would stand where the next line is typed.
pub(crate) fn start(rt: &HostRuntime, input: &Source) -> Progress {
    Progress {
        on: rt.stderr().is_terminal() && !input.is_terminal(),
        stands: false,
        shared: rt.stdout().is_terminal(),
        second: now(rt),
        lines: 0,
    }
}

// Takes it off the terminal, for a message or for rows. Functions, here and below, that give the next state: who looks on keeps it beside
// the runtime.
pub(crate) fn cleared(rt: &impl Eprint, p: Progress) -> Progress {
    if !p.stands {
        return p;
    }
    let _ = rt.eprint("                                        \r");
    Progress { stands: false, ..p }
}

// Takes it off for rows.
pub(crate) fn before_rows(rt: &impl Eprint, p: Progress) -> Progress {
    if p.shared { cleared(rt, p) } else { p }
}

// Shows it again after a second, or a hundred thousand lines.
pub(crate) fn after(rt: &HostRuntime, p: Progress, lines: u32) -> Progress {
    if !p.on {
        return p;
    }
    let second = now(rt);
    if second == p.second && lines / 100000 == p.lines / 100000 {
        return p;
    }
    // the next message begins where this one does, and is longer
    let _ = eprint!(rt; "hevrukan: lines so far: {lines}\r");
    Progress {
        stands: true,
        second,
        lines,
        ..p
    }
}
