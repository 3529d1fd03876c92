use answers::Answer;
use names::PropertySyntax;
use pairs::record::PairRecord;
use references::error::{PropertyError, Span};
use scopes::marks::RedactionMarks;
use session::breach::BudgetBreach;
use session::error::{CallError, ValueError};
use session::redactions::{redact_custom_message, redact_dynamic_identifier};
use session::session::PropertyInterpolation;
use source::source::Empty;
use std::test::Fail;
use tables::block::Block;
use walk::frame::ExpansionFrame;
use walk::record::FrameRecord;

// A text with the password goes out; what is said of it is shown without the password.
#[test]
fn password_is_not_shown(rt: HostRuntime) -> Result<(), Fail> {
    let source = Block::new(b"TARIFF_PASS=s0l${LIMIT}ar\0");
    let mut session = PropertyInterpolation::new(source, PropertySyntax::Braced, 8, 100_000);
    let mut frames = [ExpansionFrame::EMPTY; 8];
    let mut records = [PairRecord::EMPTY; 4];
    let mut bytes = [0u8; 128];
    let mut area = [0u8; 64];
    let mut marks = RedactionMarks::new();
    let scope = marks.open();

    let text = b"pass: ${TARIFF_PASS}";
    let answer = session.interpolate_value(
        text,
        scope.marks,
        &mut frames,
        &mut records,
        &mut bytes,
        &mut area,
    )?;
    assert!(rt; answer.text(text, &area) == b"pass: s0l${LIMIT}ar".as_slice());

    let said = b"refused: pass: s0l${LIMIT}ar";
    let shown = redact_custom_message(said, scope.marks, &records, &bytes, &mut area)?;
    assert!(rt; shown.text(said, &area) == b"refused: pass: ${TARIFF_PASS}".as_slice());
    Ok(())
}

// A scope inside another: both hold the pair, and the end of the outer one frees the memory.
#[test]
fn scopes_in_scopes(rt: HostRuntime) -> Result<(), Fail> {
    let mut session = PropertyInterpolation::new(
        Block::new(b"C=12\0"),
        PropertySyntax::Braced,
        8,
        1000,
    );
    let mut frames = [ExpansionFrame::EMPTY; 2];
    let mut records = [PairRecord::EMPTY; 2];
    let mut bytes = [0u8; 16];
    let mut area = [0u8; 64];
    let mut marks = RedactionMarks::new();
    {
        let outer = marks.open();
        {
            let inner = outer.marks.open();
            session.interpolate_key(
                b"${C}",
                inner.marks,
                &mut frames,
                &mut records,
                &mut bytes,
                &mut area,
            )?;
        }
        assert_eq!(rt; outer.marks.records, 1);
        let shown = redact_custom_message(
            b"cell 12 bad",
            outer.marks,
            &records,
            &bytes,
            &mut area,
        )?;
        assert_eq!(rt; shown, Answer::Replaced(13));
        assert!(rt; shown.text(b"", &area) == b"cell ${C} bad".as_slice());
        let named = redact_dynamic_identifier(
            b"12",
            b"?",
            outer.marks,
            &records,
            &bytes,
            &mut area,
        )?;
        assert!(rt; named.text(b"", &area) == b"${C}".as_slice());
    }
    assert_eq!(rt; marks.records, 0);
    let shown = redact_custom_message(b"cell 12 bad", &marks, &records, &bytes, &mut area)?;
    assert_eq!(rt; shown, Answer::Unchanged);
    Ok(())
}

// The first limit that is passed is kept, and a refused call charges.
#[test]
fn breach_is_kept(rt: HostRuntime) {
    let mut session = PropertyInterpolation::new(Empty, PropertySyntax::Braced, 0, 20);
    let mut frames = [ExpansionFrame::EMPTY; 3];
    let mut records = [PairRecord::EMPTY; 1];
    let mut bytes = [0u8; 1];
    let mut area = [0u8; 8];
    let mut marks = RedactionMarks::new();
    let first = session.interpolate_value(
        b"${A:-${C}}",
        &mut marks,
        &mut frames,
        &mut records,
        &mut bytes,
        &mut area,
    );
    assert_eq!(rt;
        first,
        Err(ValueError(CallError::Property(PropertyError::ExpansionDepthLimitExceeded(1, 0))))
    );
    let second = session.interpolate_value(
        b"abcd",
        &mut marks,
        &mut frames,
        &mut records,
        &mut bytes,
        &mut area,
    );
    assert_eq!(rt;
        second,
        Err(ValueError(CallError::Property(PropertyError::ExpansionWorkLimitExceeded(21, 20))))
    );
    assert_eq!(rt;
        session.breach(),
        Some(BudgetBreach::PropertyExpansionDepth(1, 0))
    );
    assert_eq!(rt; session.total_work(), 21);
}

// A session is taken up where it was left: its total goes on, and its breach stays.
#[test]
fn session_is_taken_up(rt: HostRuntime) {
    let left = BudgetBreach::PropertyExpansionDepth(1, 0);
    let mut session = PropertyInterpolation::new(Empty, PropertySyntax::Braced, 0, 20).resume(
        17,
        Some(left),
    );
    let mut frames = [ExpansionFrame::EMPTY; 1];
    let mut marks = RedactionMarks::new();
    let answer = session.interpolate_value(
        b"abcd",
        &mut marks,
        &mut frames,
        &mut [],
        &mut [],
        &mut [],
    );
    assert_eq!(rt;
        answer,
        Err(ValueError(CallError::Property(PropertyError::ExpansionWorkLimitExceeded(21, 20))))
    );
    assert_eq!(rt; session.total_work(), 21);
    assert_eq!(rt; session.breach(), Some(left));
}

// Frames lent as plain numbers: text that is walked in text, and a message with its name.
#[test]
fn frames_as_numbers(rt: HostRuntime) -> Result<(), Fail> {
    let source = Block::new(b"E=\0C=12\0");
    let mut session = PropertyInterpolation::new(source, PropertySyntax::Braced, 8, 1000);
    let mut frames = [FrameRecord::EMPTY; 4];
    let mut records = [PairRecord::EMPTY; 1];
    let mut bytes = [0u8; 32];
    let mut area = [0u8; 8];
    let mut marks = RedactionMarks::new();

    let text = b"${A:-a${B:-b${C}}}";
    let answer = session.interpolate_value(
        text,
        &mut marks,
        &mut frames,
        &mut records,
        &mut bytes,
        &mut area,
    )?;
    assert!(rt; answer.text(text, &area) == b"ab12".as_slice());

    let refused = session.interpolate_value(
        b"${E:?no ${D:-d}}",
        &mut marks,
        &mut frames,
        &mut records,
        &mut bytes,
        &mut area,
    );
    assert_eq!(rt;
        refused,
        Err(ValueError(CallError::Property(PropertyError::RequiredButEmpty(
            Span { start: 2, end: 3 },
            4
        ))))
    );
    assert!(rt; area == *b"no d\0\0\0\0");
    Ok(())
}
