// The lines of the account: what a step did, and its counts.
use crate::reply::Reply;
use source::error::SourceError;
use source::fetch::fetch_value;
use source::source::PropertySource;
use std::{fmt, io};

// The bytes of the output area that a value is laid into.
const AREA: usize = 24;

// What a step counts; none where it has no such count.
#[derive(Clone, Copy, Default)]
pub(crate) struct Counts {
    pub read: Option<usize>,
    pub asked: Option<usize>,
    pub written: Option<usize>,
    pub zero: Option<usize>,
    pub work: Option<usize>,
    pub total: Option<usize>,
}

fn cell(rt: &impl Print, count: Option<usize>) -> io::Result<()> {
    match count {
        Some(n) => print!(rt; "{n:>8}"),
        None => print!(rt; "{:>8}", "-"),
    }
}

fn cells(rt: &impl Print, counts: Counts) -> io::Result<()> {
    cell(rt, counts.read)?;
    cell(rt, counts.asked)?;
    cell(rt, counts.written)?;
    cell(rt, counts.zero)?;
    cell(rt, counts.work)?;
    cell(rt, counts.total)
}

pub(crate) fn line(rt: &impl Print, counts: Counts, step: &str, page: &str) -> io::Result<()> {
    cells(rt, counts)?;
    println!(rt; "  {step:<52}  {page}")
}

// What came of a step, below its line.
pub(crate) fn note(rt: &impl Print, what: &impl fmt::Display) -> io::Result<()> {
    println!(rt; "{:50}{what}", "")
}

pub(crate) fn heading(rt: &impl Print) -> io::Result<()> {
    println!(rt;
        "{:>8}{:>8}{:>8}{:>8}{:>8}{:>8}  {:<52}  page",
        "read", "asked", "written", "zero", "work", "total", "step"
    )
}

// A part of the account.
pub(crate) fn part(rt: &impl Print, title: &str) -> io::Result<()> {
    println!(rt)?;
    println!(rt; "{title}")
}

// The check of a source of `read` bytes.
pub(crate) fn checked(
    rt: &impl Print,
    step: &str,
    read: usize,
    verdict: Result<(), SourceError>,
    page: &str,
) -> io::Result<()> {
    let counts = Counts {
        read: Some(read),
        ..Counts::default()
    };
    line(rt, counts, step, page)?;
    match verdict {
        Ok(()) => note(rt, &"lawful"),
        Err(error) => println!(rt; "{:50}refused: {error:?}", ""),
    }
}

// The value of a property, asked of any source and laid into an area.
pub(crate) fn delivered<S: PropertySource>(
    rt: &impl Print,
    step: &str,
    source: &S,
    name: &[u8],
    typed: &[u8],
) -> io::Result<()> {
    let mut area = [0u8; AREA];
    let asked = fetch_value(source, name, &mut area);
    let end = asked.unwrap_or(0).min(AREA);
    let counts = Counts {
        read: Some(name.len()),
        asked,
        written: Some(end),
        zero: Some(AREA - end),
        ..Counts::default()
    };
    line(rt, counts, step, "docs/SOURCES.md, Questions")?;
    let laid = &area[0..end];
    arrived(rt, asked.map(|_| laid), typed)
}

// What arrived, beside what was typed; nothing of a name that is unset.
fn arrived(rt: &impl Print, bytes: Option<&[u8]>, typed: &[u8]) -> io::Result<()> {
    let Some(bytes) = bytes else {
        return note(rt, &"unset");
    };
    let text = text_of(bytes);
    if bytes == typed {
        println!(rt; "{:50}text, as typed: {text}", "")
    } else {
        println!(rt; "{:50}text, not as typed: {text}", "")
    }
}

// A call of a session, and what it told.
pub(crate) fn told(rt: &impl Print, reply: &Reply, page: &str) -> io::Result<()> {
    cells(rt, reply.counts())?;
    let call = reply.call;
    let text = text_of(reply.text);
    println!(rt; "  {call:<10} {text:<41}  {page}")?;
    note(rt, reply)
}

pub(crate) fn text_of(bytes: &[u8]) -> &str {
    match std::str::from_utf8(bytes) {
        Ok(text) => text,
        Err(_) => "(no text)",
    }
}
