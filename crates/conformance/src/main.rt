// Runs the controller through the fixed sessions that it reads from standard input, and prints each step with its report: answer,
// detail and the five lines, as the replay text writes them. What it prints is compared with the file stdout.
#![tactic(auto)]

mod bench;

use std::io::{self, Read};

fn main(rt: HostRuntime) -> io::Result<()> {
    let mut piece = [0u8; 4096];
    let mut b = bench::start();
    let mut input = rt.stdin();
    // no proof can know that input ends: the count of turns does
    for _ in 0..u64::MAX {
        let n = input.read(&mut piece)?;
        if n == 0 {
            break;
        }
        b = bench::fed(&rt, b, &piece[..n])?;
    }
    Ok(())
}
