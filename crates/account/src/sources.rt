// The sources: checked, and asked for passwords.
use crate::cabinet::{BLOCK, METER_PASS, METER_STEM, SHARED, TARIFF_PASS};
use crate::ledger::{checked, delivered, part};
use std::io;
use stem::{Stem, check_stem};
use tables::block::{Block, check_block};
use tables::book::{Book, check_book};

fn ask_book(rt: &impl Print, book: &[u8]) -> io::Result<()> {
    checked(
        rt,
        "the book is checked",
        book.len(),
        check_book(book),
        "docs/SOURCES.md, Book",
    )?;
    delivered(
        rt,
        "TARIFF_PASS from the book",
        &Book::new(book),
        b"TARIFF_PASS",
        TARIFF_PASS,
    )
}

fn ask_block(rt: &impl Print) -> io::Result<()> {
    checked(
        rt,
        "the block with the same entries is checked",
        BLOCK.len(),
        check_block(BLOCK),
        "docs/SOURCES.md, Block",
    )?;
    delivered(
        rt,
        "TARIFF_PASS from the block",
        &Block::new(BLOCK),
        b"TARIFF_PASS",
        TARIFF_PASS,
    )
}

fn ask_driver(rt: &impl Print, book: &[u8]) -> io::Result<()> {
    checked(
        rt,
        "the meter driver's stem is checked",
        METER_STEM.len(),
        check_stem(METER_STEM),
        "docs/SOURCES.md, Stem layer",
    )?;
    let driver = Stem::new(METER_STEM, Book::new(book));
    delivered(
        rt,
        "PASS from the stem layer over the book",
        &driver,
        b"PASS",
        METER_PASS,
    )?;
    delivered(
        rt,
        "TARIFF_PASS from the same layer",
        &driver,
        b"TARIFF_PASS",
        b"",
    )
}

pub(crate) fn ask_sources(rt: &impl Print, book: &[u8]) -> io::Result<()> {
    part(rt, "The password in the sources")?;
    let shared = &book[..SHARED.min(book.len())];
    ask_book(rt, shared)?;
    ask_block(rt)?;
    ask_driver(rt, shared)
}
