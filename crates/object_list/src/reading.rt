//! Reading the object at the front of a text.

ghost use Rattle.std.specs.Prelude.{◌≡◌, ◌<◌, ◌≤◌, ◌∷◌, length, drop};
ghost use Rattle.entry.specs.View.{shown_object};
ghost use Rattle.object_list.specs.Spelled.{objects_in, IsObjectText};

use entry::{EntryRef, ObjectRef};

/// Returns the object at the front of the text, and how many bytes its spelling has.
#[inline(always)]
pub(crate) fn read_first(text: &[u8]) -> (ObjectRef<'_>, usize)
    requires some { 0 < length text.now }
    requires text { IsObjectText text.now }
    ensures within { result.1 ≤ length text.entry.now }
    ensures first { objects_in text.entry.now ≡ shown_object result.0 ∷ objects_in (drop result.1 text.entry.now) }
    ensures rest { IsObjectText (drop result.1 text.entry.now) }
{
    match EntryRef::read(text) {
        Ok((entry, taken)) => match entry {
            EntryRef::Object(object) => (object, taken),
            _ => unreachable!(),
        },
        Err(_) => unreachable!(),
    }
}
