use crate::blocks::entry;
use crate::books::{patched, push_record};
use source::fetch::fetch_value;
use source::source::PropertySource;
use std::test::Fail;
use tables::block::{Block, check_block};
use tables::book::{Book, check_book};
use tables::view::{BlockView, BookView};

// The first byte of a name's value and the value's length; a space and a length for a value of no byte.
fn read<S: PropertySource>(source: &S, name: &[u8]) -> Option<(u8, usize)> {
    let mut area = [b' '; 1];
    source.lay_value(name, &mut area);
    source.value_len(name).map(|len| (area[0], len))
}

#[test]
fn lawful_tables(rt: HostRuntime) -> Result<(), Fail> {
    let mut book = Vec::new(rt.alloc());
    push_record(&mut book, b"AB", b"12")?;
    push_record(&mut book, b"A", b"")?;
    push_record(&mut book, b"C", b"3")?;
    let block = b"AB=12\0A=\0C=3\0\0";
    assert_eq!(rt; check_book(&book), Ok(()));
    assert_eq!(rt; check_block(block), Ok(()));
    let cases: [(&[u8], Option<(u8, usize)>); 5] = [
        (b"AB", Some((b'1', 2))),
        (b"A", Some((b' ', 0))),
        (b"C", Some((b'3', 1))),
        (b"B", None),
        (b"", None),
    ];
    for (name, want) in cases {
        assert_eq!(rt; read(&BookView::new(&book), name), want);
        assert_eq!(rt; read(&Book::new(&book), name), want);
        assert_eq!(rt; read(&BlockView::new(block), name), want);
        assert_eq!(rt; read(&Block::new(block), name), want);
    }
    Ok(())
}

#[test]
fn values_in_areas(rt: HostRuntime) {
    let block = BlockView::new(b"V=123\0");
    let mut area = [9u8; 4];
    assert_eq!(rt; fetch_value(&block, b"V", &mut area), Some(3));
    assert_eq!(rt; area, [b'1', b'2', b'3', 0]);
    assert_eq!(rt; fetch_value(&block, b"W", &mut area), None);
    assert_eq!(rt; area, [0, 0, 0, 0]);
    let mut short = [9u8; 2];
    assert_eq!(rt; fetch_value(&block, b"V", &mut short), Some(3));
    assert_eq!(rt; short, [b'1', b'2']);
}

// A book that was lawful when it was checked, and one byte of it changed since.
#[test]
fn book_changed_after_its_check(rt: HostRuntime) {
    let cases: [(usize, u8, &[u8], Option<(u8, usize)>); 9] = [
        (65, b'7', b"AB", Some((b'7', 2))),
        (1, b'C', b"CB", Some((b'1', 2))),
        (1, b'C', b"AB", None),
        // a name that is cut short, with a byte behind it
        (0, 1, b"A", Some((b'1', 2))),
        (0, 1, b"AB", None),
        // a name of no byte
        (0, 0, b"", Some((b'1', 2))),
        // a value that is no UTF-8, and one that is as long as the record lets it be
        (65, 0xff, b"AB", Some((0xff, 2))),
        (64, 192, b"AB", Some((b'1', 191))),
        (64, 255, b"AB", Some((b'1', 191))),
    ];
    assert_eq!(rt; check_book(&patched(256, 0)), Ok(()));
    for (at, byte, name, want) in cases {
        assert_eq!(rt; read(&BookView::new(&patched(at, byte)), name), want);
    }
}

#[test]
fn bytes_that_are_no_book(rt: HostRuntime) -> Result<(), Fail> {
    let cases: [(&[u8], &[u8], Option<(u8, usize)>); 4] = [
        (b"\x02AB", b"AB", Some((b' ', 0))),
        (b"\x09AB", b"AB", Some((b' ', 0))),
        (b"\x09", b"", Some((b' ', 0))),
        (b"\x01AB", b"AB", None),
    ];
    for (bytes, name, want) in cases {
        assert!(rt; check_book(bytes).is_err());
        assert_eq!(rt; read(&BookView::new(bytes), name), want);
    }
    // of two records with a name, the first one is read
    let mut book = Vec::new(rt.alloc());
    push_record(&mut book, b"A", b"1")?;
    push_record(&mut book, b"A", b"2")?;
    assert!(rt; check_book(&book).is_err());
    assert_eq!(rt; read(&BookView::new(&book), b"A"), Some((b'1', 1)));
    Ok(())
}

#[test]
fn bytes_that_are_no_block(rt: HostRuntime) {
    let cases: [(&[u8], &[u8], Option<(u8, usize)>); 9] = [
        // no zero byte, no `=`, neither
        (b"A=12", b"A", Some((b'1', 2))),
        (b"A\0B=2\0", b"B", Some((b'2', 1))),
        (b"A\0B=2\0", b"A\0", Some((b' ', 0))),
        (b"A", b"A", Some((b' ', 0))),
        // no name
        (b"=1\0", b"", Some((b'1', 1))),
        // a zero byte where an entry would start
        (b"A=1\0\0B=2\0", b"B", Some((b'2', 1))),
        // a name twice
        (b"A=1\0A=2\0", b"A", Some((b'1', 1))),
        // no UTF-8
        (b"\xff=\xfe\0", b"\xff", Some((0xfe, 1))),
        (b"\xff=\xfe\0", b"A", None),
    ];
    for (bytes, name, want) in cases {
        assert!(rt; check_block(bytes).is_err());
        assert_eq!(rt; read(&BlockView::new(bytes), name), want);
    }
}

#[test]
fn names_and_values_too_long(rt: HostRuntime) -> Result<(), Fail> {
    let cases = [
        (63, 1024, true),
        (64, 1024, false),
        (63, 1025, false),
        (64, 0, false),
        (1, 5000, false),
    ];
    for (name_len, value_len, set) in cases {
        let block = entry(rt.alloc(), name_len, value_len)?;
        let name = block.get(0..name_len).unwrap_or(&[]);
        let len = BlockView::new(&block).value_len(name);
        assert_eq!(rt; len, set.then_some(value_len));
    }
    for (name_len, len) in [(63, Some(1)), (64, None)] {
        let mut book = [b'N'; 256];
        book[0] = name_len;
        book[64] = if name_len == 63 { 1 } else { b'N' };
        let name = [b'N'; 64];
        assert_eq!(rt;
            BookView::new(&book).value_len(&name[..name_len as usize]),
            len
        );
    }
    Ok(())
}
