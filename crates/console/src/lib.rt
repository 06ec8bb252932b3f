// What a program is around its work: what it is asked for, the recording fed piece by piece and what that gives written, the closing line, and
// what is said on standard error.
#![tactic(auto)]

mod arguments;
mod ending;
mod passing;
mod source;

ghost use Rattle.std.specs.Prelude.{◌≡◌, ◌⊎◌};
ghost use Rattle.std.specs.Process.{exit_status};

use arguments::{Asked, arguments};
pub use ending::{Closing, Trouble};
use ending::{Failure, close, status};
pub use passing::{Watching, feed_all, put};
pub use source::Source;
use std::process::ExitCode;

// What a program does to a recording.
pub trait Program {
    // What -h says.
    const HELP: &'static [u8];

    // Does it, and says what was counted. Somebody watches where the script reads the closing line.
    fn work(rt: &HostRuntime, source: &mut Source, watched: bool) -> Result<Closing, Trouble>;
}

fn ended<P: Program>(rt: &HostRuntime) -> Result<(), Failure> {
    match arguments(rt)? {
        Asked::Help => rt.write_all(P::HELP).map_err(Failure::Output),
        Asked::Recording(name, watcher) => {
            let mut source = Source::open(rt, name)?;
            match P::work(rt, &mut source, watcher.is_some()) {
                Ok(closing) => {
                    close(rt, closing, watcher);
                    Ok(())
                }
                Err(trouble) => Err(source.failed(trouble)),
            }
        }
    }
}

// Runs a program, and answers its exit status: 0 where all was read and written, 141 where nobody reads what it writes, 1 for any other failure.
pub fn run<P: Program>(rt: &HostRuntime) -> ExitCode
    ensures { (exit_status result ≡ 0) ⊎ (exit_status result ≡ 1) ⊎ (exit_status result ≡ 141) }
{
    status(rt, ended::<P>(rt))
}
