// Prints an account of one real task: which text does the charge controller get for a password that has `${LIMIT}` in it?
#![tactic(auto)]

mod cabinet;
mod file;
mod gateway;
mod ledger;
mod refused;
mod reply;
mod sources;

use cabinet::{TARIFF_PASS, book};
use file::{take_file, take_other_syntaxes};
use ledger::heading;
use refused::{compare_passwords, pass_limit};
use sources::ask_sources;
use std::io;

fn question(rt: &impl Print) -> io::Result<()> {
    println!(rt;
        "The installer asks: My tariff password has ${{LIMIT}} in it. Which text does the charge controller get?"
    )?;
    println!(rt;
        "Read: bytes of a text or a source. Asked: the length that a source tells. Written, zero: bytes of the output area."
    )?;
    println!(rt; "Work: units of one call. Total: units of the session so far.")?;
    println!(rt; "A dash stands where a step has no such count.")?;
    println!(rt)?;
    heading(rt)
}

fn main(rt: HostRuntime) -> io::Result<()> {
    question(&rt)?;
    let bytes = book(TARIFF_PASS);
    ask_sources(&rt, &bytes)?;
    take_file(&rt, &bytes)?;
    take_other_syntaxes(&rt, &bytes)?;
    compare_passwords(&rt, &bytes)?;
    pass_limit(&rt, &bytes)
}
