//! The entries of a segment, one after the other.

ghost use Rattle.std.specs.Iterator.{YieldsFirstBy, item_count};
ghost use Rattle.entry.specs.View.{shown};

use entry::EntryRef;

/// The entries that are still to come, in the order of their offsets.
#[derive(Drop)]
pub struct Entries<'a> {
    pub(crate) rest: &'a [u8],
}

impl<'a> Iterator for Entries<'a> {
    ghost use Rattle.segment.specs.View.{entries_left};

    type Item = EntryRef<'a>;

    ghost next_gives = { YieldsFirstBy shown entries_left };

    ghost remaining = { item_count entries_left };

    fn next(&mut self) -> Option<EntryRef<'a>> {
        let bytes = self.rest;
        match EntryRef::read(bytes) {
            Ok((entry, taken)) => {
                self.rest = &bytes[taken..];
                Some(entry)
            }
            Err(_) => None,
        }
    }
}
