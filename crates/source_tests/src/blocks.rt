use source::error::SourceError;
use source::fetch::fetch_value;
use std::alloc::{AllocError, Global};
use std::test::Fail;
use tables::block::{Block, check_block};

// One entry with a name and a value of these lengths.
pub(crate) fn entry(
    heap: Global,
    name_len: usize,
    value_len: usize,
) -> Result<Vec<u8>, AllocError> {
    let mut bytes = vec![in heap; b'N'; name_len]?;
    bytes.push(b'=')?;
    bytes.resize(bytes.len().saturating_add(value_len), b'v')?;
    bytes.push(0)?;
    Ok(bytes)
}

#[test]
fn entries(rt: HostRuntime) {
    let lawful: [&[u8]; 7] = [
        b"",
        b"\0\0",
        b"A=1\0",
        b"A=\0",
        b"A==\0",
        b"A=1\0B=2\0",
        b"A=1\0\0\0",
    ];
    for bytes in lawful {
        assert_eq!(rt; check_block(bytes), Ok(()));
    }
    let unlawful: [(&[u8], usize); 12] = [
        (b"A=1", 0),
        (b"A", 0),
        (b"A\0", 0),
        (b"=1\0", 0),
        (b"A=1\0B", 4),
        (b"A=1\0B\0", 4),
        (b"A=1\0\0B=2\0", 4),
        (b"\0A=1\0", 0),
        (b"A=1\0B=2\0A=3\0", 8),
        (b"A=1\0\xffB=2\0", 4),
        (b"A=\xc3\0", 0),
        (b"A=1\0B=\xed\xa0\x80\0", 4),
    ];
    for (bytes, offset) in unlawful {
        assert_eq!(rt; check_block(bytes), Err(SourceError::BadBlock(offset)));
    }
}

#[test]
fn lengths_of_names_and_values(rt: HostRuntime) -> Result<(), Fail> {
    let cases = [
        (1, 0, true),
        (63, 0, true),
        (64, 0, false),
        (1, 1024, true),
        (1, 1025, false),
        (63, 1024, true),
    ];
    for (name_len, value_len, lawful) in cases {
        let bytes = entry(rt.alloc(), name_len, value_len)?;
        assert_eq!(rt; check_block(&bytes).is_ok(), lawful);
        let mut area = [7u8; 2];
        let name = bytes.get(0..name_len).unwrap_or(&[]);
        let len = fetch_value(&Block::new(&bytes), name, &mut area);
        assert_eq!(rt; len, if lawful { Some(value_len) } else { None });
    }
    Ok(())
}

#[test]
fn lengths_of_blocks(rt: HostRuntime) -> Result<(), Fail> {
    let cases = [
        (16383, Ok(())),
        (16384, Ok(())),
        (16385, Err(SourceError::BadBlock(16384))),
    ];
    for (len, verdict) in cases {
        let mut bytes = entry(rt.alloc(), 2, 3)?;
        bytes.resize(len, 0)?;
        assert_eq!(rt; check_block(&bytes), verdict);
    }
    Ok(())
}
