use source::error::SourceError;
use source::fetch::fetch_value;
use std::alloc::{AllocError, Global};
use std::test::Fail;
use tables::book::{Book, check_book};

// Appends a record; a name of over 63 bytes or a value of over 191 makes it longer than a record is.
// The zeros are pushed: `resize` would have to be told how long the book is then, which is no shorter.
pub(crate) fn push_record(book: &mut Vec<u8>, name: &[u8], value: &[u8]) -> Result<(), AllocError> {
    book.push((name.len() % 256) as u8)?;
    book.extend_from_slice(name)?;
    for _ in name.len()..63 {
        book.push(0)?;
    }
    book.push((value.len() % 256) as u8)?;
    book.extend_from_slice(value)?;
    for _ in value.len()..191 {
        book.push(0)?;
    }
    Ok(())
}

// A book of n records with names of two letters, all different up to 676.
fn numbered(heap: Global, n: u32) -> Result<Vec<u8>, AllocError> {
    let mut book = Vec::new(heap);
    for i in 0..n {
        let name = [b'a' + (i / 26 % 26) as u8, b'a' + (i % 26) as u8];
        push_record(&mut book, &name, b"v")?;
    }
    Ok(book)
}

// The record `AB` with the value `12`, one byte of it replaced.
pub(crate) fn patched(at: usize, byte: u8) -> [u8; 256] {
    let mut row = [0u8; 256];
    row[0] = 2;
    row[1] = b'A';
    row[2] = b'B';
    row[64] = 2;
    row[65] = b'1';
    row[66] = b'2';
    if at < 256 {
        row[at] = byte;
    }
    row
}

#[test]
fn one_byte_of_a_record(rt: HostRuntime) {
    let cases = [
        (1, b'C', true),
        (0, 0, false),
        (0, 1, false),
        (0, 3, true),
        (0, 63, true),
        (0, 64, false),
        (3, 1, false),
        (63, 1, false),
        (64, 1, false),
        (64, 191, true),
        (64, 192, false),
        (67, 1, false),
        (255, 1, false),
        (1, 0x80, false),
        (1, 0xc3, false),
        (66, 0xff, false),
    ];
    for (at, byte, lawful) in cases {
        let verdict = check_book(&patched(at, byte));
        assert_eq!(rt; verdict.is_ok(), lawful);
    }
}

#[test]
fn lengths_of_names_and_values(rt: HostRuntime) -> Result<(), Fail> {
    for (name_len, value_len) in [(1, 0), (1, 191), (63, 0), (63, 191)] {
        let name = vec![in rt.alloc(); b'N'; name_len]?;
        let value = vec![in rt.alloc(); b'v'; value_len]?;
        let mut book = Vec::new(rt.alloc());
        push_record(&mut book, &name, &value)?;
        let mut area = [7u8; 200];
        assert_eq!(rt;
            fetch_value(&Book::new(&book), &name, &mut area),
            Some(value_len)
        );
        assert_eq!(rt; area[199], 0);
        assert_eq!(rt; fetch_value(&Book::new(&book), b"NN", &mut area), None);
    }
    Ok(())
}

#[test]
fn numbers_of_records(rt: HostRuntime) -> Result<(), Fail> {
    for (n, verdict) in [
        (0, Ok(())),
        (256, Ok(())),
        (257, Err(SourceError::BadBook(256))),
    ] {
        let book = numbered(rt.alloc(), n)?;
        assert_eq!(rt; check_book(&book), verdict);
    }
    let book = numbered(rt.alloc(), 256)?;
    let mut area = [0u8; 2];
    assert_eq!(rt; fetch_value(&Book::new(&book), b"jv", &mut area), Some(1));
    assert_eq!(rt; area[0], b'v');
    Ok(())
}

#[test]
fn first_bad_records(rt: HostRuntime) -> Result<(), Fail> {
    let mut book = numbered(rt.alloc(), 3)?;
    push_record(&mut book, b"ab", b"w")?;
    assert_eq!(rt; check_book(&book), Err(SourceError::BadBook(3)));
    for (len, bad) in [(1, 0), (255, 0), (257, 1), (767, 2)] {
        let short = numbered(rt.alloc(), 3)?;
        assert_eq!(rt;
            check_book(short.get(0..len).unwrap_or(&[])),
            Err(SourceError::BadBook(bad))
        );
    }
    let mut area = [7u8; 2];
    assert_eq!(rt; fetch_value(&Book::new(&book), b"aa", &mut area), None);
    assert_eq!(rt; area[0], 0);
    Ok(())
}
