ghost use Rattle.std.specs.Prelude.{◌≡◌};
ghost use Rattle.tables.specs.ViewLaws.{bounded_laws};
ghost use Rattle.dollar.specs.Tables.{kind_numbered, row_value, table_means};

use source::source::PropertySource;
use tables::view::{BlockView, BookView};

// What the bytes of a table are.
#[derive(Clone, Copy, PartialEq, Eq, Debug)]
pub(crate) enum TableKind {
    Empty,
    Book,
    Block,
}

impl TableKind {
    // The kind with a number.
    pub(crate) fn numbered(number: u32) -> Option<Self>
        ensures { result ≡ kind_numbered number }
    {
        match number {
            1 => Some(TableKind::Empty),
            2 => Some(TableKind::Book),
            3 => Some(TableKind::Block),
            _ => None,
        }
    }
}

// A table of some kind, lent for one call.
#[derive(Clone, Copy)]
pub(crate) struct LentTable<'a> {
    pub(crate) kind: TableKind,
    pub(crate) bytes: &'a [u8],
}

impl<'a> PropertySource for LentTable<'a> {
    ghost means = { λ s n. table_means s.kind s.bytes.now n };

    ghost laws = { bounded_laws (λ s. row_value s.kind s.bytes.now) };

    fn value_len(&self, name: &[u8]) -> Option<usize> {
        match self.kind {
            TableKind::Empty => None,
            TableKind::Book => BookView::new(self.bytes).value_len(name),
            TableKind::Block => BlockView::new(self.bytes).value_len(name),
        }
    }

    fn lay_value(&self, name: &[u8], area: &mut [u8]) {
        match self.kind {
            TableKind::Empty => {}
            TableKind::Book => BookView::new(self.bytes).lay_value(name, area),
            TableKind::Block => BlockView::new(self.bytes).lay_value(name, area),
        }
    }
}
