// The properties of one cabinet, as a book and as a block, and the texts of its file.
ghost use Rattle.std.specs.Prelude.{◌≤◌, length};

use tables::book::{RECORD_LEN, RECORD_VALUE_MAX};

// The password as the installer typed it.
pub(crate) const TARIFF_PASS: &[u8] = b"s0l${LIMIT}ar";

// The password of another cabinet.
pub(crate) const OTHER_PASS: &[u8] = b"quiet-9";

// The meter's own password; its name stands behind the driver's stem.
pub(crate) const METER_PASS: &[u8] = b"m${LIMIT}8";

pub(crate) const METER_STEM: &[u8] = b"METER_";

pub(crate) const BLOCK: &[u8] = b"TARIFF_PASS=s0l${LIMIT}ar\0LIMIT=16\0METER_PASS=m${LIMIT}8\0";

// A line of a cabinet file.
#[derive(Clone, Copy)]
pub(crate) struct Entry {
    pub key: &'static [u8],
    pub value: &'static [u8],
}

pub(crate) const PASS: Entry = Entry {
    key: b"pass",
    value: b"${TARIFF_PASS}",
};

pub(crate) const LAMP: Entry = Entry {
    key: b"lamp_${SITE}",
    value: b"blue",
};

pub(crate) const LIMIT: Entry = Entry {
    key: b"limit",
    value: b"${CHARGE_LIMIT:-16}",
};

// No property METER_ID is set.
pub(crate) const METER: Entry = Entry {
    key: b"meter",
    value: b"${METER_ID:?no meter in ${SITE}}",
};

// A value that is refused, with the password in the text of its message.
pub(crate) const METER_LOGIN: &[u8] = b"${METER_ID:?no meter for ${TARIFF_PASS}}";

const RECORDS: usize = 4;

const BOOK: usize = RECORDS * RECORD_LEN;

// The records of the properties that the block has too.
pub(crate) const SHARED: usize = 3 * RECORD_LEN;

// Writes one record of a book into the zeros at `at`; of the value what a record holds.
fn put_record(book: &mut [u8; BOOK], at: usize, name: &[u8], value: &[u8])
    requires { (at ≤ 768) × (length name.now ≤ 63) }
{
    let len = value.len().min(RECORD_VALUE_MAX);
    book[at] = name.len() as u8;
    book[at + 64] = len as u8;
    let name_at = at + 1;
    book[name_at..name_at + name.len()].copy_from_slice(name);
    let value_at = at + 65;
    book[value_at..value_at + len].copy_from_slice(&value[..len]);
}

// A book with the entries of the block, but for the tariff password, and the site behind them.
pub(crate) fn book(tariff_pass: &[u8]) -> [u8; BOOK] {
    let mut bytes = [0u8; BOOK];
    put_record(&mut bytes, 0, b"TARIFF_PASS", tariff_pass);
    put_record(&mut bytes, RECORD_LEN, b"LIMIT", b"16");
    put_record(&mut bytes, 2 * RECORD_LEN, b"METER_PASS", METER_PASS);
    put_record(&mut bytes, 3 * RECORD_LEN, b"SITE", b"hall7");
    bytes
}
