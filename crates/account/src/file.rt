// The cabinet file: its keys and values, what is shown of them, and the pair memory.
use crate::cabinet::{Entry, LAMP, LIMIT, METER, METER_LOGIN, PASS, TARIFF_PASS};
use crate::gateway::{AREA, FRAMES, Gateway, MAX_DEPTH, PAIR_BYTES, RECORDS, Shown};
use crate::ledger::{Counts, line, note, part, told};
use crate::reply::Reply;
use names::PropertySyntax;
use scopes::marks::RedactionMarks;
use std::io;

const CALLS: &str = "docs/SESSIONS.md, Calls";

const RULES: &str = "docs/WALK.md, Rules";

const REFUSALS: &str = "docs/REFUSALS.md";

const REDACTION: &str = "docs/REDACTION.md";

pub(crate) const MAX_WORK: usize = 1000;

// The session, the memory that is lent, and the frames that the longest text needs.
// Gateway and marks stay two parameters here and below: the guard of a scope holds the marks.
fn begin(rt: &impl Print, gateway: &mut Gateway, marks: &mut RedactionMarks) -> io::Result<()> {
    line(
        rt,
        Counts::default(),
        "a session over the book, Braced",
        "docs/SESSIONS.md, Session",
    )?;
    println!(rt; "{:50}depth limit {MAX_DEPTH}, work limit {MAX_WORK}", "")?;
    line(
        rt,
        Counts::default(),
        "memory is lent",
        "docs/SESSIONS.md, Memory",
    )?;
    println!(rt;
        "{:50}{AREA} bytes of output, {FRAMES} frames, {RECORDS} pair records, {PAIR_BYTES} pair bytes",
        ""
    )?;
    line(
        rt,
        Counts::default(),
        "the longest text of all, with no frame lent",
        "docs/SESSIONS.md, Memory",
    )?;
    told(rt, &gateway.value_in(0, marks, METER_LOGIN), REFUSALS)
}

// How much of the pair memory is in use.
fn in_use(rt: &impl Print, step: &str, marks: &RedactionMarks) -> io::Result<()> {
    line(rt, Counts::default(), step, "docs/SESSIONS.md, Scopes")?;
    let records = marks.records;
    let bytes = marks.bytes;
    println!(rt;
        "{:50}in use: {records} pair records, {bytes} pair bytes",
        ""
    )
}

// Whether the charge controller gets the password as it was typed.
fn compare(rt: &impl Print, reply: &Reply) -> io::Result<()> {
    match reply.answered() {
        Some(text) if text == TARIFF_PASS => {
            note(
                rt,
                &"the charge controller gets this: the password as typed",
            )
        }
        _ => note(rt, &"not the password as typed"),
    }
}

// The line with the password.
fn pass_line(rt: &impl Print, gateway: &mut Gateway, marks: &mut RedactionMarks) -> io::Result<()> {
    told(rt, &gateway.key(marks, PASS.key), CALLS)?;
    let reply = gateway.value(marks, PASS.value);
    told(rt, &reply, RULES)?;
    compare(rt, &reply)
}

// Any line of the file; the page is that of its value.
fn file_line(
    rt: &impl Print,
    gateway: &mut Gateway,
    marks: &mut RedactionMarks,
    entry: Entry,
    page: &str,
) -> io::Result<()> {
    told(rt, &gateway.key(marks, entry.key), CALLS)?;
    told(rt, &gateway.value(marks, entry.value), page)
}

// What the service display shows of messages, values and identifiers of the charge controller.
fn display(rt: &impl Print, gateway: &mut Gateway, marks: &RedactionMarks) -> io::Result<()> {
    for (what, text) in [
        (Shown::Message, b"login s0l${LIMIT}ar refused".as_slice()),
        (Shown::Value, TARIFF_PASS),
        (Shown::Identifier, b"lamp_hall7"),
        (Shown::Identifier, b"lamp_hall8"),
    ] {
        told(rt, &gateway.show(what, marks, text), REDACTION)?;
    }
    Ok(())
}

// The calls of one scope.
fn read_file(rt: &impl Print, gateway: &mut Gateway, marks: &mut RedactionMarks) -> io::Result<()> {
    part(rt, "The cabinet file, inside a scope")?;
    in_use(rt, "the scope is open", marks)?;
    pass_line(rt, gateway, marks)?;
    file_line(rt, gateway, marks, LAMP, RULES)?;
    file_line(rt, gateway, marks, LIMIT, RULES)?;
    part(rt, "A required property that is missing")?;
    file_line(rt, gateway, marks, METER, REFUSALS)?;
    part(
        rt,
        "On the service display, for what the charge controller says",
    )?;
    display(rt, gateway, marks)?;
    in_use(rt, "before the end of the scope", marks)
}

// The file under Braced, from the session to the end of the scope.
pub(crate) fn take_file(rt: &impl Print, book: &[u8]) -> io::Result<()> {
    part(rt, "A session")?;
    let mut gateway = Gateway::new(book, PropertySyntax::Braced, MAX_WORK);
    let mut marks = RedactionMarks::new();
    begin(rt, &mut gateway, &mut marks)?;
    {
        let scope = marks.open();
        read_file(rt, &mut gateway, scope.marks)?;
    }
    in_use(rt, "after the end of the scope", &marks)
}

// Two lines of the file under another syntax, in a session and a scope of their own.
fn take_lines(rt: &impl Print, title: &str, book: &[u8], syntax: PropertySyntax) -> io::Result<()> {
    part(rt, title)?;
    let mut gateway = Gateway::new(book, syntax, MAX_WORK);
    let mut marks = RedactionMarks::new();
    let scope = marks.open();
    pass_line(rt, &mut gateway, scope.marks)?;
    file_line(rt, &mut gateway, scope.marks, LAMP, RULES)
}

pub(crate) fn take_other_syntaxes(rt: &impl Print, book: &[u8]) -> io::Result<()> {
    take_lines(
        rt,
        "The same lines in BracedOrBare",
        book,
        PropertySyntax::BracedOrBare,
    )?;
    take_lines(
        rt,
        "The same lines in DockerCompose, where a key has no references",
        book,
        PropertySyntax::DockerCompose,
    )
}
