ghost use Rattle.std.specs.Prelude.{◌≡◌};
ghost use Rattle.stem.specs.Stems.{stem_verdict};
ghost use Rattle.tables.specs.Blocks.{block_verdict};
ghost use Rattle.tables.specs.Books.{book_verdict};
ghost use Rattle.dollar.specs.Outcomes.{checked_as};

use crate::outcome::{DollarOutcome, checked};
use stem::check_stem;
use tables::block::check_block;
use tables::book::check_book;

// Whether the bytes are a lawful book: refusal 13.
#[unsafe(no_mangle)]
pub extern "C" fn dollar_check_book(book: &[u8]) -> DollarOutcome
    ensures { result ≡ checked_as (book_verdict book.now) }
{
    checked(check_book(book))
}

// Whether the bytes are a lawful block: refusal 14.
#[unsafe(no_mangle)]
pub extern "C" fn dollar_check_block(block: &[u8]) -> DollarOutcome
    ensures { result ≡ checked_as (block_verdict block.now) }
{
    checked(check_block(block))
}

// Whether the bytes may be a stem: refusal 15.
#[unsafe(no_mangle)]
pub extern "C" fn dollar_check_stem(stem: &[u8]) -> DollarOutcome
    ensures { result ≡ checked_as (stem_verdict stem.now) }
{
    checked(check_stem(stem))
}
