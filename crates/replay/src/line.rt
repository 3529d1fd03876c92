// The lines of a script.
use crate::hex::unhex;
use names::PropertySyntax;
use std::alloc::{AllocError, Global};

// A source with bytes of its own.
#[derive(Drop)]
pub(crate) enum OwnSource {
    Empty,
    Book(Vec<u8>),
    Block(Vec<u8>),
}

// How much memory the sessions from here on are lent.
#[derive(Clone, Copy)]
pub(crate) struct Sizes {
    pub output: usize,
    pub frames: usize,
    pub records: usize,
    pub bytes: usize,
}

// How a session is made.
#[derive(Clone, Copy)]
pub(crate) struct Settings {
    pub syntax: PropertySyntax,
    pub depth: usize,
    pub work: usize,
}

// A call with bytes of its own. No generic `Call`: the contract and the model of a run speak of bytes that are lent.
#[derive(Drop)]
pub(crate) enum OwnCall {
    Key(Vec<u8>),
    Value(Vec<u8>),
    Message(Vec<u8>),
    Dynamic(Vec<u8>, Vec<u8>),
    Identifier(Vec<u8>, Vec<u8>),
    Open,
    End,
}

#[derive(Drop)]
pub(crate) enum Line {
    // Nothing, or a remark.
    Blank,
    Source(OwnSource),
    Stem(Vec<u8>),
    Memory(Sizes),
    Session(Settings),
    Call(OwnCall),
}

fn number(word: &str) -> Option<usize> {
    word.parse::<usize>().ok()
}

fn memory_line(output: &str, frames: &str, records: &str, bytes: &str) -> Option<Line> {
    Some(Line::Memory(Sizes {
        output: number(output)?,
        frames: number(frames)?,
        records: number(records)?,
        bytes: number(bytes)?,
    }))
}

fn syntax(word: &str) -> Option<PropertySyntax> {
    match word {
        "braced" => Some(PropertySyntax::Braced),
        "bare" => Some(PropertySyntax::BracedOrBare),
        "compose" => Some(PropertySyntax::DockerCompose),
        _ => None,
    }
}

fn session_line(name: &str, depth: &str, work: &str) -> Option<Line> {
    Some(Line::Session(Settings {
        syntax: syntax(name)?,
        depth: number(depth)?,
        work: number(work)?,
    }))
}

// A line with one word of bytes.
fn with_bytes(kind: &str, bytes: Vec<u8>) -> Option<Line> {
    match kind {
        "stem" => Some(Line::Stem(bytes)),
        "key" => Some(Line::Call(OwnCall::Key(bytes))),
        "value" => Some(Line::Call(OwnCall::Value(bytes))),
        "message" => Some(Line::Call(OwnCall::Message(bytes))),
        _ => None,
    }
}

// A redaction with a fallback.
fn with_fallback(kind: &str, bytes: Vec<u8>, fallback: Vec<u8>) -> Option<Line> {
    match kind {
        "dynamic" => Some(Line::Call(OwnCall::Dynamic(bytes, fallback))),
        "identifier" => Some(Line::Call(OwnCall::Identifier(bytes, fallback))),
        _ => None,
    }
}

// A line of two words.
fn of_two(alloc: Global, kind: &str, word: &str) -> Result<Option<Line>, AllocError> {
    if kind == "source" && word == "empty" {
        return Ok(Some(Line::Source(OwnSource::Empty)));
    }
    match unhex(alloc, word)? {
        Some(bytes) => Ok(with_bytes(kind, bytes)),
        None => Ok(None),
    }
}

// A line of three words.
fn of_three(
    alloc: Global,
    kind: &str,
    first: &str,
    second: &str,
) -> Result<Option<Line>, AllocError> {
    let Some(last) = unhex(alloc, second)? else {
        return Ok(None);
    };
    match (kind, first) {
        ("source", "book") => Ok(Some(Line::Source(OwnSource::Book(last)))),
        ("source", "block") => Ok(Some(Line::Source(OwnSource::Block(last)))),
        _ => match unhex(alloc, first)? {
            Some(bytes) => Ok(with_fallback(kind, bytes, last)),
            None => Ok(None),
        },
    }
}

// The line of a text; None where a script has no such line.
pub(crate) fn parse_line(alloc: Global, text: &str) -> Result<Option<Line>, AllocError> {
    let mut words = Vec::new(alloc);
    for word in text.split(' ') {
        words.push(word)?;
    }
    match words.as_slice() {
        [""] | ["#", ..] => Ok(Some(Line::Blank)),
        ["open"] => Ok(Some(Line::Call(OwnCall::Open))),
        ["end"] => Ok(Some(Line::Call(OwnCall::End))),
        [kind, word] => of_two(alloc, kind, word),
        [kind, first, second] => of_three(alloc, kind, first, second),
        ["session", name, depth, work] => Ok(session_line(name, depth, work)),
        ["memory", output, frames, records, bytes] => Ok(memory_line(
            output, frames, records, bytes,
        )),
        _ => Ok(None),
    }
}
