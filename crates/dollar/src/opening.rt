ghost use Rattle.std.specs.Prelude.{◌≡◌};
ghost use Rattle.dollar.specs.Opening.{Opens, open_checked, open_refused, open_told, opened};
ghost use Rattle.dollar.specs.declared.opening.OpenError.TheVariants.{Unlawful};
ghost use Rattle.dollar.specs.Tables.{kind_verdict};

use crate::outcome::DollarOutcome;
use crate::sessions::{DollarSession, syntax_numbered};
use crate::table::TableKind;
use source::error::SourceError;
use stem::check_stem;
use tables::block::check_block;
use tables::book::check_book;

// Why no session is opened.
#[derive(Clone, Copy, PartialEq, Eq, Debug)]
enum OpenError {
    // The kind or the syntax has no such number.
    Unknown,
    // The table or the stem is unlawful.
    Unlawful(SourceError),
}

impl From<SourceError> for OpenError {
    ghost from_gives = { λ e r. r ≡ Unlawful e };

    fn from(error: SourceError) -> Self {
        OpenError::Unlawful(error)
    }
}

impl From<OpenError> for DollarOutcome {
    ghost from_gives = { λ e r. r ≡ open_refused e };

    fn from(error: OpenError) -> Self {
        match error {
            OpenError::Unknown => DollarOutcome::bad_session(),
            OpenError::Unlawful(error) => DollarOutcome::from(error),
        }
    }
}

// Whether the bytes are a lawful table of the kind.
fn check_table(kind: TableKind, table: &[u8]) -> Result<(), SourceError>
    ensures { result ≡ kind_verdict kind table.now }
{
    match kind {
        TableKind::Empty => Ok(()),
        TableKind::Book => check_book(table),
        TableKind::Block => check_block(table),
    }
}

// The numbers of the kind and the syntax first, then the table, then the stem.
fn check_open(table_kind: u32, syntax: u32, table: &[u8], stem: &[u8]) -> Result<(), OpenError>
    ensures { result ≡ open_checked table_kind syntax table.now stem.now }
{
    let (Some(kind), Some(_)) = (TableKind::numbered(table_kind), syntax_numbered(syntax)) else {
        return Err(OpenError::Unknown);
    };
    check_table(kind, table)?;
    check_stem(stem)?;
    Ok(())
}

// The session that an opening leaves.
fn opened(
    checked: Result<(), OpenError>,
    table_kind: u32,
    syntax: u32,
    max_depth: usize,
    max_work: usize,
) -> DollarSession
    ensures { result ≡ opened checked table_kind syntax max_depth max_work }
{
    let closed = DollarSession::closed();
    if checked.is_err() {
        return closed;
    }
    DollarSession {
        table_kind,
        syntax,
        max_depth,
        max_work,
        ..closed
    }
}

// The outcome of an opening.
fn told_open(checked: Result<(), OpenError>) -> DollarOutcome
    ensures { result ≡ open_told checked }
{
    match checked {
        Ok(()) => DollarOutcome::numbered(0),
        Err(error) => DollarOutcome::from(error),
    }
}

// Opens a session, with no work done and no limit passed. An empty stem is none.
// Refused are a kind or a syntax of another number (100), an unlawful table (13, 14) and an unlawful stem (15); then there is no session.
#[unsafe(no_mangle)]
pub extern "C" fn dollar_open(
    session: &mut DollarSession,
    table_kind: u32,
    syntax: u32,
    max_depth: usize,
    max_work: usize,
    table: &[u8],
    stem: &[u8],
) -> DollarOutcome
    ensures outcome { result ≡ open_told (open_checked table_kind syntax table.now stem.now) }
    ensures session { session.new ≡ opened (open_checked table_kind syntax table.now stem.now) table_kind syntax max_depth max_work }
    ensures opens { Opens table_kind syntax max_depth max_work table.now stem.now result session.new }
{
    let checked = check_open(table_kind, syntax, table, stem);
    *session = opened(checked, table_kind, syntax, max_depth, max_work);
    told_open(checked)
}
