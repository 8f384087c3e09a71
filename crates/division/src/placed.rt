//! The entries of a group, kept as their places in the segment.

ghost use Rattle.std.specs.Prelude.{◌≡◌, length};
ghost use Rattle.std.specs.Iterator.{YieldsFirstBy, at_most};
ghost use Rattle.entry.specs.Text.{text_of};
ghost use Rattle.entry.specs.View.{shown};
ghost use Rattle.division.specs.Placed.{AllStand, entries_at};

use entry::EntryRef;
use segment::SegmentRef;
use std::marker::Model;

/// Some entries of one segment, in its order. Each takes 4 bytes: the offset at which it lies in the segment's bytes. A
/// contract sees the list of the entries.
#[derive(Drop)]
pub struct GroupEntries<'a> {
    segment: SegmentRef<'a>,
    places: Vec<u32>,
}

impl<'a> Model for GroupEntries<'a> {
    ghost use Rattle.std.specs.Prelude.{List};
    ghost use Rattle.entry.specs.declared.entry.Entry.{Entry};
    ghost use Rattle.entry.specs.Text.{text_of};
    ghost use Rattle.division.specs.Placed.{AllStand, entries_at};

    ghost Value = { List Entry };

    ghost view = { λ g. entries_at (text_of g.segment) g.places.items };

    ghost invariant = { λ g. AllStand (text_of g.segment) g.places.items };
}

/// An iterator over the entries of a group. Each entry is read from the segment's bytes when it is asked for.
#[derive(Drop)]
pub struct EntriesLeft<'a, 'g> {
    segment: SegmentRef<'a>,
    places: &'g [u32],
}

impl<'a, 'g> Model for EntriesLeft<'a, 'g> {
    ghost use Rattle.std.specs.Prelude.{List};
    ghost use Rattle.entry.specs.declared.entry.Entry.{Entry};
    ghost use Rattle.entry.specs.Text.{text_of};
    ghost use Rattle.division.specs.Placed.{AllStand, entries_at};

    ghost Value = { List Entry };

    ghost view = { λ it. entries_at (text_of it.segment) it.places.now };

    ghost invariant = { λ it. AllStand (text_of it.segment) it.places.now };
}

impl<'a> GroupEntries<'a> {
    /// The entries at these places of the segment.
    pub(crate) fn at_places(segment: SegmentRef<'a>, places: Vec<u32>) -> GroupEntries<'a>
        requires { AllStand (text_of segment) places.items }
        ensures { result ≡ entries_at (text_of segment.entry) places.items }
    {
        GroupEntries { segment, places }
    }

    /// How many entries there are. None of them is read.
    pub fn len(&self) -> usize
        ensures { result ≡ length self.now }
    {
        self.places.len()
    }

    /// The entries in order. Each is read again from the segment's bytes, which takes no memory. They borrow from those
    /// bytes alone, and may outlive the group.
    pub fn iter<'g>(&'g self) -> EntriesLeft<'a, 'g>
        ensures { result ≡ self.entry.now }
    {
        EntriesLeft {
            segment: self.segment.copy(),
            places: self.places.as_slice(),
        }
    }
}

impl<'a, 'g> Iterator for EntriesLeft<'a, 'g> {
    type Item = EntryRef<'a>;

    ghost next_gives = { YieldsFirstBy shown (λ es. es) };

    ghost remaining = { λ es. at_most (length es) };

    #[inline(always)]
    fn next(&mut self) -> Option<EntryRef<'a>> {
        let Some((at, rest)) = self.places.split_first() else {
            return None;
        };
        self.places = rest;
        match self.segment.entry_at(*at as usize) {
            Some(entry) => Some(entry),
            None => unreachable!(),
        }
    }
}
