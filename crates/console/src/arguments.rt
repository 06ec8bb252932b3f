// What the arguments ask for.
use crate::ending::Failure;
use std::env::FillError;
use std::fs::{File, OpenOptions};
use std::io;
use std::rt::Env;

// Help, or a recording by its name, and who else gets the closing line.
#[derive(Drop)]
pub(crate) enum Asked {
    Help,
    Recording(Option<String>, Option<File>),
}

// The first argument is this option.
fn option(rt: &impl Env, name: &[u8; 2]) -> bool {
    let mut word = [0u8; 2];
    matches!(rt.arg(1, &mut word), Ok(2)) && word == *name
}

// An argument stands at this place.
fn given(rt: &impl Env, at: usize) -> bool {
    !matches!(rt.arg(at, &mut [0u8; 1]), Err(FillError::NotPresent))
}

// The recording's name, the argument at this place. std opens a file only by a name that is text. By rt.arg and a fixed place: `env::args`
// gives text alone, and a name that is none has words of its own here.
fn name(rt: &HostRuntime, at: usize) -> Result<String, Failure> {
    let mut word = [0u8; 4096];
    // too long and empty are told alike, so that 0 stands for both
    let n = rt.arg(at, &mut word).unwrap_or(0);
    if n == 0 {
        return Err(Failure::Words("the recording's name is empty or too long"));
    }
    let Ok(text) = str::from_utf8(&word[..n]) else {
        return Err(Failure::Words(
            "the recording's name is no UTF-8 text; standard input takes such a recording",
        ));
    };
    String::from_str(rt.alloc(), text).map_err(|e| Failure::Arguments(io::Error::from(e)))
}

// Descriptor 3, where it is open: std reaches it by this name alone. It is opened before the recording, whose descriptor would else be 3,
// and for reading too, so that a pipe with no reader doesn't make the program wait.
fn watcher(rt: &HostRuntime) -> Option<File> {
    OpenOptions::new()
        .read(true)
        .append(true)
        .open(rt, "/dev/fd/3")
        .ok()
}

// Reads the arguments: the name of one recording, or none for standard input. A script puts the word -3 in front, and reads the closing line
// from descriptor 3 too: it says what was counted.
pub(crate) fn arguments(rt: &HostRuntime) -> Result<Asked, Failure> {
    if option(rt, b"-h") {
        return Ok(Asked::Help);
    }
    let watched = option(rt, b"-3");
    let watcher = if watched { watcher(rt) } else { None };
    let at = if watched { 2 } else { 1 };
    if !given(rt, at) {
        return Ok(Asked::Recording(None, watcher));
    }
    if given(rt, at + 1) {
        return Err(Failure::Words("one recording at a time; -h says more"));
    }
    Ok(Asked::Recording(Some(name(rt, at)?), watcher))
}
