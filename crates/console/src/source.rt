// What the recording is read from.
use crate::ending::{Failure, Trouble};
use std::fs::File;
use std::io::{self, IsTerminal, Read, Stdin};

// A file, with its name, or standard input.
#[derive(Drop)]
pub enum Source {
    Named(String, File),
    Input(Stdin),
}

impl Source {
    // Opens the file of this name, or standard input where there is none.
    pub(crate) fn open(rt: &HostRuntime, name: Option<String>) -> Result<Source, Failure> {
        let Some(name) = name else {
            return Ok(Source::Input(rt.stdin()));
        };
        let mut file = match File::open(rt, name.as_str()) {
            Ok(file) => file,
            Err(e) => return Err(Failure::Recording(name, e)),
        };
        // a directory can be opened, not read: that is said before anything is written
        match file.read(&mut []) {
            Ok(_) => Ok(Source::Named(name, file)),
            Err(e) => Err(Failure::Recording(name, e)),
        }
    }

    // Reading it, or writing what it gives, failed.
    pub(crate) fn failed(self, trouble: Trouble) -> Failure {
        match (trouble, self) {
            (Trouble::Reading(e), Source::Named(name, _)) => Failure::Recording(name, e),
            (Trouble::Reading(e), Source::Input(_)) => Failure::Input(e),
            (Trouble::Writing(e), _) => Failure::Output(e),
        }
    }
}

impl Read for Source {
    fn read(&mut self, piece: &mut [u8]) -> io::Result<usize> {
        match self {
            Source::Named(_, file) => file.read(piece),
            Source::Input(input) => input.read(piece),
        }
    }
}

impl IsTerminal for Source {
    fn is_terminal(&self) -> bool {
        match self {
            Source::Named(_, file) => file.is_terminal(),
            Source::Input(input) => input.is_terminal(),
        }
    }
}
