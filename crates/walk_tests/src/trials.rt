use answers::Answer;
use budget::WorkBudget;
use names::PropertySyntax;
use references::error::{PropertyError, Span};
use std::process::Abort;
use tables::block::Block;
use walk::frame::ExpansionFrame;
use walk::interpolate::{InterpolateError, interpolate_compose_style_with_limits};
use walk::record::FrameRecord;
use walk::slot::FrameSlot;

// Frame memory as a caller may lend it: any numbers.
const USED: FrameRecord = FrameRecord {
    start: usize::MAX,
    cursor: 7,
    end: 3,
    name_start: 9,
    name_end: 1,
    syntax: u32::MAX,
    completion: 5,
};

// Walks a text into an area of eight bytes, and tells whether answer, area and work total are these, in both kinds of frame memory.
fn walks(
    rt: &impl Abort,
    text: &[u8],
    syntax: PropertySyntax,
    depth: usize,
    limit: usize,
    answer: Result<Answer, InterpolateError>,
    area: &[u8],
    total: usize,
) {
    let mut frames = [ExpansionFrame::EMPTY; 4];
    walks_in(
        rt,
        &mut frames,
        text,
        syntax,
        depth,
        limit,
        answer,
        area,
        total,
    );
    let mut records = [USED; 4];
    walks_in(
        rt,
        &mut records,
        text,
        syntax,
        depth,
        limit,
        answer,
        area,
        total,
    );
}

fn walks_in<F: FrameSlot>(
    rt: &impl Abort,
    frames: &mut [F],
    text: &[u8],
    syntax: PropertySyntax,
    depth: usize,
    limit: usize,
    answer: Result<Answer, InterpolateError>,
    area: &[u8],
    total: usize,
) {
    let mut out = [9u8; 8];
    let mut work = WorkBudget { total: 0, limit };
    let source = Block::new(b"E=\0C=12\0");
    let r = interpolate_compose_style_with_limits(
        text, &source, syntax, depth, &mut work, frames, &mut out,
    );
    assert_eq!(rt; r, answer);
    assert!(rt; &out[..] == area);
    assert_eq!(rt; work.total, total);
}

#[test]
fn texts(rt: HostRuntime) {
    let most = usize::MAX;
    let zeros = b"\0\0\0\0\0\0\0\0";
    walks(
        &rt,
        b"abc",
        PropertySyntax::Braced,
        most,
        most,
        Ok(Answer::Unchanged),
        zeros,
        3,
    );
    walks(
        &rt,
        b"a$$b",
        PropertySyntax::Braced,
        most,
        most,
        Ok(Answer::Replaced(3)),
        b"a$b\0\0\0\0\0",
        6,
    );
    walks(
        &rt,
        b"${C}",
        PropertySyntax::DockerCompose,
        most,
        most,
        Ok(Answer::Replaced(2)),
        b"12\0\0\0\0\0\0",
        6,
    );
    walks(
        &rt,
        b"${A:-${C}}",
        PropertySyntax::Braced,
        most,
        most,
        Ok(Answer::Replaced(2)),
        b"12\0\0\0\0\0\0",
        22,
    );
    walks(
        &rt,
        b"${",
        PropertySyntax::Braced,
        most,
        most,
        Ok(Answer::Unchanged),
        zeros,
        4,
    );
    walks(
        &rt,
        b"${A:-$C}",
        PropertySyntax::BracedOrBare,
        most,
        most,
        Ok(Answer::Replaced(2)),
        b"$C\0\0\0\0\0\0",
        13,
    );
    walks(
        &rt,
        b"${A:-$C}",
        PropertySyntax::DockerCompose,
        most,
        most,
        Ok(Answer::Replaced(2)),
        b"12\0\0\0\0\0\0",
        15,
    );
    walks(
        &rt,
        b"${A:-{}}${C}",
        PropertySyntax::Braced,
        most,
        most,
        Ok(Answer::Replaced(4)),
        b"{}12\0\0\0\0",
        17,
    );
}

#[test]
fn refusals(rt: HostRuntime) {
    let most = usize::MAX;
    let zeros = b"\0\0\0\0\0\0\0\0";
    let name = Span { start: 2, end: 3 };
    let long = InterpolateError::OutputTooShort(9);
    walks(
        &rt,
        b"abc",
        PropertySyntax::Braced,
        most,
        2,
        Err(InterpolateError::Refused(PropertyError::ExpansionWorkLimitExceeded(3, 2))),
        zeros,
        3,
    );
    walks(
        &rt,
        b"${A:-${C}}",
        PropertySyntax::Braced,
        0,
        most,
        Err(InterpolateError::Refused(PropertyError::ExpansionDepthLimitExceeded(1, 0))),
        zeros,
        17,
    );
    walks(
        &rt,
        b"${A:?no ${C}}",
        PropertySyntax::Braced,
        most,
        most,
        Err(InterpolateError::Refused(PropertyError::RequiredButUnset(name, 7))),
        b"no ${C}\0",
        31,
    );
    walks(
        &rt,
        b"${A:?no ${E}}",
        PropertySyntax::Braced,
        most,
        most,
        Err(InterpolateError::Refused(PropertyError::RequiredButUnset(name, 3))),
        b"no \0\0\0\0\0",
        31,
    );
    walks(
        &rt,
        b"$$12345678",
        PropertySyntax::Braced,
        most,
        most,
        Err(long),
        zeros,
        11,
    );
    walks(
        &rt,
        b"12345678901234567890",
        PropertySyntax::Braced,
        most,
        most,
        Err(InterpolateError::TooFewFrames(5)),
        zeros,
        0,
    );
}
