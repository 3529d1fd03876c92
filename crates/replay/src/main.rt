// Runs session scripts: a source, memory sizes, sessions and their calls, a line each. Prints what each came to.
#![tactic(auto)]

mod hex;
mod line;
mod printer;
mod run_calls;
mod script;

use line::parse_line;
use script::Script;
use std::io;
use std::io::{BufRead, BufReader};

// Says what is wrong with a line, and ends the program.
fn refuse(rt: &impl Print, why: &str, line: &str) -> io::Result<()> {
    println!(rt; "{why}: {line}")?;
    Err(io::Error::from(io::ErrorKind::InvalidData))
}

// A line that may not stand where it does ends the program.
fn take_lines(rt: &HostRuntime) -> io::Result<()> {
    let alloc = rt.alloc();
    let mut script = Script::new(alloc);
    for line in BufReader::new(alloc, rt.reader())?.lines(alloc) {
        let line = line?;
        match parse_line(alloc, line.as_str())? {
            Some(read) if script.admits(&read) => script.take(rt, read)?,
            Some(_) => return refuse(rt, "a call without a session", line.as_str()),
            None => {
                script.finish(rt)?;
                return refuse(rt, "no line of a script", line.as_str());
            }
        }
    }
    script.finish(rt)
}

fn main(rt: HostRuntime) -> io::Result<()> {
    take_lines(&rt)
}
