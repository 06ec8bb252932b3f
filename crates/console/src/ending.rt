// How a program ends: the closing line, or what failed.
ghost use Rattle.std.specs.Prelude.{◌≡◌, ◌⊎◌, OnOk, OnErr};
ghost use Rattle.std.specs.Process.{exit_status};

use std::alloc::{AllocError, Global};
use std::fmt;
use std::fs::File;
use std::io::{self, ErrorKind, Write};
use std::process::ExitCode;

// Why a recording isn't worked through to its end.
#[derive(Drop)]
pub enum Trouble {
    Reading(io::Error),
    Writing(io::Error),
}

// Why the program ends before its end: words that say it, or what failed and the error.
#[derive(Drop)]
pub(crate) enum Failure {
    Words(&'static str),
    Arguments(io::Error),
    Recording(String, io::Error),
    Input(io::Error),
    Output(io::Error),
}

// What was done to the recording, how many lines came, and how many of them had no effect.
#[derive(Clone, Copy)]
pub struct Closing {
    pub done: &'static str,
    pub lines: u32,
    pub unread: u32,
    pub refused: u32,
}

// The closing line. 999,999 is the last line that is read: `pieces::is_read` asks it of one number, here lines are counted up to it.
impl fmt::Display for Closing {
    fn fmt<W: fmt::Write>(&self, f: &mut fmt::Formatter<W>) -> fmt::Result {
        let done = self.done;
        let read = self.lines.min(999999);
        let unread = self.unread;
        let refused = self.refused;
        let dropped = self.lines.saturating_sub(999999);
        writeln!(
            f,
            "hevrukan: {done}: lines read {read}, unread {unread}, refused {refused}, dropped {dropped}"
        )
    }
}

// Says it on standard error, as far as that takes it.
fn say<D: fmt::Display + Drop>(rt: &impl Eprint, text: D) {
    let _ = rt.eprint(text);
}

// Says the closing line, and writes it to who watches.
pub(crate) fn close(rt: &impl Eprint, closing: Closing, watcher: Option<File>) {
    say(rt, closing);
    if let Some(mut watcher) = watcher {
        let _ = write!(watcher, "{closing}");
    }
}

// The error's text, without the number that std puts behind it.
fn cause(alloc: Global, error: &io::Error) -> Result<String, AllocError> {
    let text = format!(in alloc; "{error}")?;
    match text.split_once(" (os error ") {
        Some((words, _)) => String::from_str(alloc, words),
        None => Ok(text),
    }
}

// Says that something failed, and why. No Display of Failure: it couldn't ask for the memory that the shorter text takes.
fn say_why(rt: &HostRuntime, what: &str, error: &io::Error) {
    match cause(rt.alloc(), error) {
        Ok(why) => say(rt, format_args!("hevrukan: {what}: {why}\n")),
        Err(_) => say(rt, format_args!("hevrukan: {what}: {error}\n")),
    }
}

// The status of a run that ended so. It says what failed, but for a pipe that nobody reads: there a signal would end the program, and the
// status is the one that a shell gives after it.
pub(crate) fn status(rt: &HostRuntime, ended: Result<(), Failure>) -> ExitCode
    ensures ok { OnOk ended (exit_status result ≡ 0) }
    ensures err { OnErr ended ((exit_status result ≡ 1) ⊎ (exit_status result ≡ 141)) }
{
    match ended {
        Ok(()) => return ExitCode::from(0),
        Err(Failure::Output(error)) if error.kind() == ErrorKind::BrokenPipe => {
            return ExitCode::from(141);
        }
        Err(Failure::Words(words)) => say(rt, format_args!("hevrukan: {words}\n")),
        Err(Failure::Arguments(error)) => say_why(rt, "the arguments", &error),
        Err(Failure::Recording(name, error)) => say_why(rt, &name, &error),
        Err(Failure::Input(error)) => say_why(rt, "standard input", &error),
        Err(Failure::Output(error)) => say_why(rt, "writing to standard output", &error),
    }
    ExitCode::from(1)
}

#[cfg(test)]
mod tests {
    use super::*;
    use std::test::Fail;

    #[test]
    fn number_dropped(rt: HostRuntime) -> Result<(), Fail> {
        let error = io::Error::from_raw_os_error(2);
        let text = cause(rt.alloc(), &error)?;
        assert_eq!(rt; text.as_str(), "No such file or directory");
        Ok(())
    }

    #[test]
    fn closing_line(rt: HostRuntime) -> Result<(), Fail> {
        let closing = Closing {
            done: "replayed",
            lines: 1000002,
            unread: 5,
            refused: 7,
        };
        let text = format!(in rt.alloc(); "{closing}")?;
        assert_eq!(rt;
            text.as_str(),
            "hevrukan: replayed: lines read 999999, unread 5, refused 7, dropped 3\n"
        );
        Ok(())
    }
}
