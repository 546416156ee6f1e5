// Plays each file that its arguments name, as the player would, after a line with the file's name. A file that cannot be opened is named on
// standard error, and the next one follows.
// `cases_repair` differs in the job alone: a function for both would be public, and hand back what a file
// gives, which no contract determines; that would be a new exception in docs/CONTRACTS.md.
#![tactic(auto)]

use std::io::Read;
use std::{env, fs, io};

fn play_file(rt: &HostRuntime, path: &str) -> io::Result<()> {
    println!(rt; "== {path}")?;
    match fs::open(rt, path) {
        Ok(file) => {
            let mut input = Vec::new(rt.alloc());
            file.take(65537).read_to_end(&mut input)?;
            program_job::play_lines(rt.stdout(), &input);
            Ok(())
        }
        Err(why) => eprintln!(rt; "{path}: {why}"),
    }
}

fn main(rt: HostRuntime) -> io::Result<()> {
    for path in env::args(&rt)?.skip(1) {
        play_file(&rt, path.as_str())?;
    }
    Ok(())
}
