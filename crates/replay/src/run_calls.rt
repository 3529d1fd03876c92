// The calls of one session, run.
use crate::line::{OwnCall, OwnSource, Settings, Sizes};
use crate::printer::Printer;
use pairs::record::PairRecord;
use runs::call::Call;
use runs::run::run;
use source::source::{Empty, PropertySource};
use std::alloc::{AllocError, Global};
use stem::Stem;
use tables::block::Block;
use tables::book::Book;
use walk::frame::ExpansionFrame;

// A source with the stems over it, the first the lowest.
#[derive(Drop)]
pub(crate) struct Layers {
    pub source: OwnSource,
    pub stems: Vec<Vec<u8>>,
}

// A session that was begun, with its calls and how much it is lent.
#[derive(Clone, Copy)]
pub(crate) struct Begun<'a> {
    pub alloc: Global,
    pub settings: Settings,
    pub sizes: Sizes,
    pub calls: &'a [OwnCall],
}

impl OwnCall {
    fn lend(&self) -> Call<'_> {
        match self {
            OwnCall::Key(text) => Call::Key(text.as_slice()),
            OwnCall::Value(text) => Call::Value(text.as_slice()),
            OwnCall::Message(text) => Call::Message(text.as_slice()),
            OwnCall::Dynamic(text, fallback) => Call::Dynamic(text.as_slice(), fallback.as_slice()),
            OwnCall::Identifier(name, fallback) => {
                Call::Identifier(name.as_slice(), fallback.as_slice())
            }
            OwnCall::Open => Call::Open,
            OwnCall::End => Call::End,
        }
    }
}

impl Begun<'_> {
    // Runs the calls over the source. A place for the start of each scope is lent, so that the run is never refused.
    fn run<S: PropertySource>(self, source: &S, printer: &mut Printer) -> Result<(), AllocError> {
        let alloc = self.alloc;
        let settings = self.settings;
        let sizes = self.sizes;
        let mut calls = Vec::new(alloc);
        for call in self.calls {
            calls.push(call.lend())?;
        }
        let mut frames = vec![in alloc; ExpansionFrame::EMPTY; sizes.frames]?;
        let mut records = vec![in alloc; PairRecord::EMPTY; sizes.records]?;
        let mut bytes = vec![in alloc; 0u8; sizes.bytes]?;
        let mut area = vec![in alloc; 0u8; sizes.output]?;
        let mut formers = vec![in alloc; None; calls.len()]?;
        let _ = run(
            source,
            settings.syntax,
            settings.depth,
            settings.work,
            calls.as_slice(),
            frames.as_mut_slice(),
            records.as_mut_slice(),
            bytes.as_mut_slice(),
            area.as_mut_slice(),
            formers.as_mut_slice(),
            printer,
        );
        Ok(())
    }

    // The same over the source with the stems. Two at most: each layer is a type of its own.
    fn run_over<S: PropertySource + Drop>(
        self,
        source: S,
        stems: &[Vec<u8>],
        printer: &mut Printer,
    ) -> Result<(), AllocError> {
        match stems {
            [] => self.run(&source, printer),
            [stem] => self.run(&Stem::new(stem.as_slice(), source), printer),
            [low, high, ..] => {
                let below = Stem::new(low.as_slice(), source);
                self.run(&Stem::new(high.as_slice(), below), printer)
            }
        }
    }

    pub(crate) fn run_on(self, layers: &Layers, printer: &mut Printer) -> Result<(), AllocError> {
        let stems = layers.stems.as_slice();
        match &layers.source {
            OwnSource::Empty => self.run_over(Empty, stems, printer),
            OwnSource::Book(bytes) => self.run_over(Book::new(bytes.as_slice()), stems, printer),
            OwnSource::Block(bytes) => self.run_over(Block::new(bytes.as_slice()), stems, printer),
        }
    }
}
