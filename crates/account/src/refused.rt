// Files that are refused: one line for two passwords, and a limit that is passed.
use crate::cabinet::{METER_LOGIN, OTHER_PASS, PASS, book};
use crate::file::MAX_WORK;
use crate::gateway::Gateway;
use crate::ledger::{Counts, line, note, part, told};
use names::PropertySyntax;
use scopes::marks::RedactionMarks;
use session::breach::BudgetBreach;
use std::io;

// The work limit of the last session.
const SMALL_WORK: usize = 30;

// Takes a file that is refused. Answers the line that is shown for it.
fn refuse_file(rt: &HostRuntime, book: &[u8]) -> io::Result<String> {
    let mut gateway = Gateway::new(book, PropertySyntax::Braced, MAX_WORK);
    let mut marks = RedactionMarks::new();
    let scope = marks.open();
    told(
        rt,
        &gateway.value(scope.marks, PASS.value),
        "docs/WALK.md, Rules",
    )?;
    let refused = gateway.value(scope.marks, METER_LOGIN);
    told(rt, &refused, "docs/REFUSALS.md")?;
    let total = refused.work.map_or(0, |work| work.total);
    Ok(format!(in rt.alloc(); "{refused}; total {total}")?)
}

// The same file under two books whose passwords differ.
pub(crate) fn compare_passwords(rt: &HostRuntime, first: &[u8]) -> io::Result<()> {
    part(rt, "A refused file, with two passwords")?;
    let one = refuse_file(rt, first)?;
    let other = refuse_file(rt, &book(OTHER_PASS))?;
    line(
        rt,
        Counts::default(),
        "the lines that the service display shows",
        "docs/WALK.md, Laws",
    )?;
    note(rt, &one)?;
    note(rt, &other)?;
    if one == other {
        note(rt, &"equal")
    } else {
        note(rt, &"not equal")
    }
}

fn kept_breach(rt: &impl Print, gateway: &Gateway) -> io::Result<()> {
    line(
        rt,
        Counts::default(),
        "the first limit passed, kept by the session",
        "docs/SESSIONS.md, Session",
    )?;
    match gateway.breach() {
        None => note(rt, &"none"),
        Some(BudgetBreach::PropertyExpansionDepth(depth, limit)) => {
            println!(rt; "{:50}depth {depth}, limit {limit}", "")
        }
        Some(BudgetBreach::PropertyInterpolationWork(work, limit)) => {
            println!(rt; "{:50}work {work}, limit {limit}", "")
        }
    }
}

// A session with a small work limit: the first limit that was passed stays.
pub(crate) fn pass_limit(rt: &impl Print, book: &[u8]) -> io::Result<()> {
    part(rt, "A work limit")?;
    let mut gateway = Gateway::new(book, PropertySyntax::Braced, SMALL_WORK);
    let mut marks = RedactionMarks::new();
    let scope = marks.open();
    told(
        rt,
        &gateway.value(scope.marks, PASS.value),
        "docs/WALK.md, Rules",
    )?;
    kept_breach(rt, &gateway)?;
    for _ in 0..2 {
        told(
            rt,
            &gateway.value(scope.marks, PASS.value),
            "docs/REFUSALS.md",
        )?;
        kept_breach(rt, &gateway)?;
    }
    Ok(())
}
