use crate::redact::{redact_identifier, redact_message, redact_value};
use answers::{Answer, OutputTooShort};
use pairs::list::PairList;
use pairs::record::PairRecord;

fn value(
    text: &[u8],
    records: &[PairRecord],
    bytes: &[u8],
    area: &mut [u8],
) -> Result<Answer, OutputTooShort> {
    redact_value(text, b"no", &PairList::since(records, 0, bytes), area)
}

#[test]
fn trials(rt: HostRuntime) {
    let mut area = [7u8; 16];
    let cell = [PairRecord {
        at: 0,
        text: 4,
        result: 2,
    }];
    assert_eq!(rt;
        value(b"cell 12 bad", &cell, b"${C}12", &mut area),
        Ok(Answer::Replaced(13))
    );
    assert!(rt; area == *b"cell ${C} bad\0\0\0");
    assert_eq!(rt;
        value(b"12 12", &cell, b"${C}12", &mut area),
        Ok(Answer::Replaced(2))
    );
    assert!(rt; area == *b"no\0\0\0\0\0\0\0\0\0\0\0\0\0\0");
    assert_eq!(rt;
        value(b"a text without one", &cell, b"${C}12", &mut area),
        Ok(Answer::Replaced(2))
    );
    assert_eq!(rt;
        value(b"123456789abcdef", &cell, b"${C}12", &mut area),
        Err(OutputTooShort { needed: 17 })
    );
    assert!(rt; area == [0u8; 16]);
    let aba = [PairRecord {
        at: 0,
        text: 1,
        result: 3,
    }];
    assert_eq!(rt;
        value(b"ababa", &aba, b"Xaba", &mut area),
        Ok(Answer::Replaced(3))
    );
    assert!(rt; area == *b"Xba\0\0\0\0\0\0\0\0\0\0\0\0\0");
    // the longer result first, the repeat left out
    let two = [
        PairRecord {
            at: 0,
            text: 1,
            result: 1,
        },
        PairRecord {
            at: 2,
            text: 1,
            result: 2,
        },
        PairRecord {
            at: 0,
            text: 1,
            result: 1,
        },
    ];
    assert_eq!(rt;
        value(b"bab", &two, b"AbBba", &mut area),
        Ok(Answer::Replaced(2))
    );
    assert!(rt; area == *b"BA\0\0\0\0\0\0\0\0\0\0\0\0\0\0");
}

#[test]
fn others(rt: HostRuntime) {
    let mut area = [7u8; 40];
    let cell = [PairRecord {
        at: 0,
        text: 4,
        result: 2,
    }];
    let pairs = PairList::since(&cell, 0, b"${C}12");
    assert_eq!(rt;
        redact_message(b"nothing", &pairs, &mut area),
        Ok(Answer::Replaced(33))
    );
    assert_eq!(rt;
        redact_message(b"nothing", &PairList::since(&cell, 1, b"${C}12"), &mut area),
        Ok(Answer::Unchanged)
    );
    assert_eq!(rt;
        redact_identifier(b"12", b"?", &pairs, &mut area),
        Ok(Answer::Replaced(4))
    );
    assert_eq!(rt;
        redact_identifier(b"1", b"?", &pairs, &mut area),
        Ok(Answer::Replaced(1))
    );
}
