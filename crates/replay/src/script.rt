// A script, line by line.
use crate::line::{Line, OwnCall, OwnSource, Settings, Sizes};
use crate::printer::Printer;
use crate::run_calls::{Begun, Layers};
use source::error::SourceError;
use std::alloc::{AllocError, Global};
use std::io;
use stem::check_stem;
use tables::block::check_block;
use tables::book::check_book;

// The sizes before the first line that sets them.
const AMPLE: Sizes = Sizes {
    output: 1_048_576,
    frames: 4096,
    records: 4096,
    bytes: 1_048_576,
};

// Where a script stands: the source and the sizes for sessions to come, and the session begun with its calls.
#[derive(Drop)]
pub(crate) struct Script {
    alloc: Global,
    layers: Layers,
    sizes: Sizes,
    session: Option<Settings>,
    calls: Vec<OwnCall>,
}

fn show_verdict(rt: &impl Print, verdict: Result<(), SourceError>) -> io::Result<()> {
    match verdict {
        Ok(()) => println!(rt; "lawful"),
        Err(error) => {
            let number = error.number();
            match error {
                SourceError::BadBook(at) | SourceError::BadBlock(at) => {
                    println!(rt; "refused {number} {at}")
                }
                SourceError::BadStem => println!(rt; "refused {number}"),
            }
        }
    }
}

impl Script {
    pub(crate) fn new(alloc: Global) -> Self {
        Script {
            alloc,
            layers: Layers {
                source: OwnSource::Empty,
                stems: Vec::new(alloc),
            },
            sizes: AMPLE,
            session: None,
            calls: Vec::new(alloc),
        }
    }

    // Runs the calls of the session that was begun.
    pub(crate) fn finish(&mut self, rt: &impl Print) -> io::Result<()> {
        let Some(settings) = self.session.take() else {
            return Ok(());
        };
        let mut printer = Printer {
            out: String::new(self.alloc),
            open: 0,
            told: Ok(()),
        };
        let begun = Begun {
            alloc: self.alloc,
            settings,
            sizes: self.sizes,
            calls: self.calls.as_slice(),
        };
        begun.run_on(&self.layers, &mut printer)?;
        self.calls.clear();
        let out = printer.out.as_str();
        print!(rt; "{out}")?;
        Ok(printer.told?)
    }

    // Whether a line may stand here: a call needs a session that was begun, and that no line has ended.
    pub(crate) fn admits(&self, line: &Line) -> bool {
        self.session.is_some() || !matches!(line, Line::Call(_))
    }

    pub(crate) fn take(&mut self, rt: &impl Print, line: Line) -> io::Result<()> {
        match line {
            Line::Blank => Ok(()),
            Line::Call(call) => Ok(self.calls.push(call)?),
            Line::Source(source) => self.take_source(rt, source),
            Line::Stem(bytes) => self.take_stem(rt, bytes),
            Line::Memory(sizes) => {
                self.finish(rt)?;
                self.sizes = sizes;
                Ok(())
            }
            Line::Session(settings) => {
                self.finish(rt)?;
                self.session = Some(settings);
                println!(rt; "session")
            }
        }
    }

    fn take_source(&mut self, rt: &impl Print, source: OwnSource) -> io::Result<()> {
        self.finish(rt)?;
        let verdict = match &source {
            OwnSource::Empty => Ok(()),
            OwnSource::Book(bytes) => check_book(bytes.as_slice()),
            OwnSource::Block(bytes) => check_block(bytes.as_slice()),
        };
        self.layers.source = source;
        self.layers.stems.clear();
        show_verdict(rt, verdict)
    }

    fn take_stem(&mut self, rt: &impl Print, bytes: Vec<u8>) -> io::Result<()> {
        self.finish(rt)?;
        show_verdict(rt, check_stem(bytes.as_slice()))?;
        self.layers.stems.push(bytes)?;
        Ok(())
    }
}
