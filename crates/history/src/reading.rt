//! The reader of records, from a row and the texts that have its bytes.

ghost use Rattle.std.specs.Prelude.{◌≡◌, true};
ghost use Rattle.history.specs.Records.{record_in, IsRow};
ghost use Rattle.history.specs.View.{shown_record, shown_reply};

use crate::numbers::{NUMBERS_LEN, Numbers};
use crate::packing::{Row, reply_of, unpack};
use crate::texts::Texts;
use crate::view::{RecordRef, ReplyRef, ValueRef};

/// Returns the record of a row whose bytes lie in these texts.
#[inline(always)]
pub(crate) fn read_row<'a>(texts: &'a Texts, row: &Row) -> RecordRef<'a>
    requires { IsRow texts.now row.now }
    ensures { shown_record result ≡ record_in texts.entry.now row.now }
{
    if row.is_long {
        return read_long(texts, row);
    }
    let key_len = row.key_len as usize;
    let len = key_len + row.value_len as usize;
    let bytes = texts.part(row.block, row.start as usize, len);
    let (key, value) = bytes.split_at(key_len);
    unpack(row, &row.small_numbers(), key, value)
}

/// Returns the record of a row whose numbers lie before its key.
#[inline(never)]
fn read_long<'a>(texts: &'a Texts, row: &Row) -> RecordRef<'a>
    requires row { IsRow texts.now row.now }
    requires long { row.now.is_long ≡ true }
    ensures { shown_record result ≡ record_in texts.entry.now row.now }
{
    let key_len = row.key_len as usize;
    let len = NUMBERS_LEN + key_len + row.value_len as usize;
    let bytes = texts.part(row.block, row.start as usize, len);
    let (front, bytes) = bytes.split_at(NUMBERS_LEN);
    let (key, value) = bytes.split_at(key_len);
    unpack(row, &Numbers::from_bytes(front), key, value)
}

/// Returns the reply of a row whose value lies in these texts.
#[inline(always)]
pub(crate) fn read_reply<'a>(texts: &'a Texts, row: &Row) -> ReplyRef<'a>
    requires { IsRow texts.now row.now }
    ensures { shown_reply result ≡ (record_in texts.entry.now row.now).reply }
{
    let start = row.start as usize + row.front_len() + row.key_len as usize;
    let value = texts.part(row.block, start, row.value_len as usize);
    reply_of(row.reply, row.version, ValueRef { bytes: value })
}
