// Plays the schedule on standard input as the player does, repairs the board that it left, and prints the lines of both.
// `program_player` reads in the same way: a function for both would be public, and hand back what a read
// gives, which no contract determines; that would be a new exception in docs/CONTRACTS.md.
#![tactic(auto)]

use std::io;
use std::io::Read;

fn main(rt: HostRuntime) -> io::Result<()> {
    let mut input = Vec::new(rt.alloc());
    rt.stdin().take(65537).read_to_end(&mut input)?;
    program_job::repair_lines(rt.stdout(), &input);
    Ok(())
}
