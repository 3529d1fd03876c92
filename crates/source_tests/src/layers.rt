use source::error::SourceError;
use source::fetch::fetch_value;
use source::source::Empty;
use stem::{Stem, check_stem};
use tables::block::Block;
use text::{TextError, check_text, is_utf8};

#[test]
fn faults_of_utf8(rt: HostRuntime) {
    let lawful: [&[u8]; 5] = [
        b"",
        b"a$\x7f",
        b"\xc2\x80",
        b"\xe2\x84\xaa",
        b"\xf4\x8f\xbf\xbf",
    ];
    for bytes in lawful {
        assert!(rt; is_utf8(bytes));
    }
    let unlawful: [&[u8]; 9] = [
        b"\x80",
        b"\xc1\x81",
        b"\xc3",
        b"\xe0\x80\x80",
        b"\xed\xa0\x80",
        b"\xe2\x84",
        b"\xf0\x80\x80\x80",
        b"\xf4\x90\x80\x80",
        b"\xff",
    ];
    for bytes in unlawful {
        assert!(rt; !is_utf8(bytes));
    }
}

#[test]
fn texts(rt: HostRuntime) {
    let long = [b'a'; 8193];
    for (len, verdict) in [(0, Ok(())), (8192, Ok(())), (8193, Err(TextError::TooLong))] {
        assert_eq!(rt; check_text(long.get(0..len).unwrap_or(&[])), verdict);
    }
    assert_eq!(rt; check_text(b"ab\xc3"), Err(TextError::NotUtf8(2)));
    assert_eq!(rt; check_text(b"\xc3\xa9\xffb"), Err(TextError::NotUtf8(2)));
}

#[test]
fn stems(rt: HostRuntime) {
    let long = [b's'; 33];
    for (len, verdict) in [(0, Ok(())), (32, Ok(())), (33, Err(SourceError::BadStem))] {
        assert_eq!(rt; check_stem(long.get(0..len).unwrap_or(&[])), verdict);
    }
    assert_eq!(rt; check_stem(b"\xc3"), Err(SourceError::BadStem));
}

#[test]
fn layers_over_layers(rt: HostRuntime) {
    let block = Block::new(b"app.C=12\0C=7\0");
    let mut area = [9u8; 3];
    assert_eq!(rt;
        fetch_value(&Stem::new(b".", Stem::new(b"app", block)), b"C", &mut area),
        Some(2)
    );
    assert_eq!(rt; area, [b'1', b'2', 0]);
    assert_eq!(rt;
        fetch_value(&Stem::new(b"app", Stem::new(b".", block)), b"C", &mut area),
        None
    );
    assert_eq!(rt;
        fetch_value(&Stem::new(b"", block), b"C", &mut area),
        Some(1)
    );
    assert_eq!(rt;
        fetch_value(&Stem::new(b"\xff", block), b"C", &mut area),
        None
    );
    assert_eq!(rt;
        fetch_value(&Stem::new(b"app", Empty), b".C", &mut area),
        None
    );
    assert_eq!(rt; area, [0, 0, 0]);
}

#[test]
fn areas_shorter_than_the_value(rt: HostRuntime) {
    let block = Block::new(b"V=12345\0");
    for len in [0, 1, 4, 5, 6, 8] {
        let mut area = [9u8; 8];
        if let Some(part) = area.get_mut(0..len) {
            assert_eq!(rt; fetch_value(&block, b"V", part), Some(5));
        }
        for (i, byte) in area.iter().enumerate() {
            let want = if i >= len {
                9
            } else if i >= 5 {
                0
            } else {
                b'1' + i as u8
            };
            assert_eq!(rt; *byte, want);
        }
    }
}
