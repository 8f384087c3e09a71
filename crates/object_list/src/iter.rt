//! The objects of a list, one after the other.

ghost use Rattle.std.specs.Prelude.{◌≡◌, ◌==◌, length};
ghost use Rattle.std.specs.Iterator.{YieldsFirstBy, at_most};
ghost use Rattle.entry.specs.View.{shown_object};

use crate::reading::read_first;
use entry::ObjectRef;
use std::marker::Model;

/// The objects that are still to come, in order. A contract sees them as a list.
#[derive(Drop)]
pub struct ObjectsIn<'a> {
    pub(crate) rest: &'a [u8],
}

impl<'a> Model for ObjectsIn<'a> {
    ghost use Rattle.std.specs.Prelude.{List};
    ghost use Rattle.entry.specs.declared.entry.Object.{Object};
    ghost use Rattle.object_list.specs.Spelled.{objects_in, IsObjectText};

    ghost Value = { List Object };

    ghost view = { λ it. objects_in it.rest.now };

    ghost invariant = { λ it. IsObjectText it.rest.now };
}

impl<'a> ObjectsIn<'a> {
    /// Returns true if no object is still to come.
    pub fn is_empty(&self) -> bool
        ensures { result ≡ (length self.now == 0) }
    {
        self.rest.is_empty()
    }
}

impl<'a> Iterator for ObjectsIn<'a> {
    type Item = ObjectRef<'a>;

    ghost next_gives = { YieldsFirstBy shown_object (λ os. os) };

    ghost remaining = { λ os. at_most (length os) };

    #[inline(always)]
    fn next(&mut self) -> Option<ObjectRef<'a>> {
        let text = self.rest;
        if text.is_empty() {
            return None;
        }
        let (object, taken) = read_first(text);
        self.rest = &text[taken..];
        Some(object)
    }
}
