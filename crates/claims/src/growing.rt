//! A list of objects that grows.

ghost use Rattle.std.specs.Prelude.{◌≡◌, ◌++◌, ◌∷◌, [], IfOk, OnOk};
ghost use Rattle.entry.specs.View.{shown_object};

use crate::objects::Objects;
use entry::{NoMemory, ObjectRef};
use object_list::ObjectList;
use std::alloc::Global;
use std::marker::Model;
use std::mem::replace;

/// The memory of the first list, in bytes of objects.
const FIRST: usize = 4_096;

/// The greatest memory of a list, in bytes of objects, unless one object needs more. A history takes memory of this
/// size too, so a list fits into memory that a history gave back.
const MOST: usize = 131_040;

/// A list of objects that grows at its end. The objects lie in several lists and never move. Each list has twice the
/// memory of the one before, up to `MOST`. A contract sees one list.
#[derive(Drop)]
pub(crate) struct Growing {
    alloc: Global,
    whole: Objects,
    last: ObjectList,
}

impl Model for Growing {
    ghost use Rattle.std.specs.Prelude.{List, ◌++◌};
    ghost use Rattle.entry.specs.declared.entry.Object.{Object};

    ghost Value = { List Object };

    ghost view = { λ g. g.whole ++ g.last };
}

impl Growing {
    /// A list without objects. It takes no memory.
    pub(crate) fn new(alloc: Global) -> Growing
        ensures { result ≡ [] }
    {
        Growing {
            alloc,
            whole: Objects::new(alloc, ObjectList::new(alloc)),
            last: ObjectList::new(alloc),
        }
    }

    /// Appends an object.
    pub(crate) fn push(&mut self, object: &ObjectRef<'_>) -> Result<(), NoMemory>
        ensures { OnOk result (self.new ≡ self.old ++ shown_object object.now ∷ []) }
    {
        if !self.last.has_room(object) {
            self.begin_list(object.spelled_len())?;
        }
        self.last.push(object)
    }

    /// Begins the next list, with memory for at least `len` bytes.
    #[inline(never)]
    fn begin_list(&mut self, len: usize) -> Result<(), NoMemory>
        ensures { OnOk result (self.new ≡ self.old) }
    {
        let room = self.last.capacity().saturating_mul(2).clamp(FIRST, MOST);
        let next = ObjectList::with_capacity(self.alloc, room.max(len))?;
        let full = replace(&mut self.last, next);
        self.whole.add(full)
    }

    /// Ends the list and returns its objects, which aren't copied.
    pub(crate) fn finish(self) -> Result<Objects, NoMemory>
        ensures { IfOk result (λ objects. objects ≡ self) }
    {
        let Growing {
            alloc: _,
            whole,
            last,
        } = self;
        let mut objects = whole;
        objects.add(last)?;
        Ok(objects)
    }
}
