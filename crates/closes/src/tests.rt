use crate::find_braced_reference_close;
use budget::WorkBudget;
use names::PropertySyntax;

#[test]
fn balanced(rt: HostRuntime) {
    let mut work = WorkBudget {
        total: 0,
        limit: 20,
    };
    let close = find_braced_reference_close(b"A:-${C}{}}", PropertySyntax::Braced, &mut work);
    assert_eq!(rt; close.ok(), Some(Some(8)));
    assert_eq!(rt; work.total, 9);
    let open = find_braced_reference_close(b"A:-${C}", PropertySyntax::BracedOrBare, &mut work);
    assert_eq!(rt; open.ok(), Some(None));
    assert_eq!(rt; work.total, 16);
}

#[test]
fn on_the_line(rt: HostRuntime) {
    let mut work = WorkBudget {
        total: 0,
        limit: 12,
    };
    let latest = find_braced_reference_close(
        b"A:-{}}${C}",
        PropertySyntax::DockerCompose,
        &mut work,
    );
    assert_eq!(rt; latest.ok(), Some(Some(9)));
    assert_eq!(rt; work.total, 9);
    let refused = find_braced_reference_close(
        b"\xc5\xbf1}",
        PropertySyntax::DockerCompose,
        &mut work,
    );
    assert!(rt; refused.is_err());
    assert_eq!(rt; work.total, 13);
}
