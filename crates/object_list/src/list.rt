//! Lists of objects.

ghost use Rattle.std.specs.Prelude.{◌≡◌, ◌==◌, ◌++◌, ◌∷◌, [], List, length, IsNone, IfSome, IfOk, OnOk, OnErr, All};
ghost use Rattle.entry.specs.declared.entry.Object.{Object};
ghost use Rattle.entry.specs.Format.{IsObject};
ghost use Rattle.entry.specs.View.{shown_object};

use crate::iter::ObjectsIn;
use crate::reading::read_first;
use entry::{NoMemory, ObjectRef};
use std::alloc::Global;
use std::marker::Model;

/// A list of objects. Their spellings lie one after the other in one block of memory. A contract sees the objects as a
/// list.
#[derive(Drop)]
pub struct ObjectList {
    text: Vec<u8>,
    count: usize,
    // The offset at which the spelling of the last object begins; 0 if there is no object.
    last: usize,
}

impl Model for ObjectList {
    ghost use Rattle.std.specs.Prelude.{List};
    ghost use Rattle.entry.specs.declared.entry.Object.{Object};
    ghost use Rattle.object_list.specs.Spelled.{objects_in, IsObjectList};

    ghost Value = { List Object };

    ghost view = { λ l. objects_in l.text.items };

    ghost invariant = { λ l. IsObjectList l.text.items l.count l.last };
}

impl ObjectList {
    /// Makes an empty list. The call takes no memory.
    pub fn new(alloc: Global) -> ObjectList
        ensures { result ≡ [] }
    {
        ObjectList {
            text: Vec::new(alloc),
            count: 0,
            last: 0,
        }
    }

    /// Makes an empty list, with memory for objects whose spellings have `bytes` bytes together.
    pub fn with_capacity(alloc: Global, bytes: usize) -> Result<ObjectList, NoMemory>
        ensures { IfOk result (λ list. list ≡ []) }
    {
        Ok(ObjectList {
            text: Vec::with_capacity(alloc, bytes)?,
            count: 0,
            last: 0,
        })
    }

    /// Appends an object. If memory runs out, nothing changes.
    pub fn push(&mut self, object: &ObjectRef<'_>) -> Result<(), NoMemory>
        ensures ok { OnOk result (self.new ≡ self.old ++ shown_object object.now ∷ []) }
        ensures err { OnErr result (self.new ≡ self.old) }
    {
        let at = self.text.len();
        // The clause `valid` of this call says that the object is within the limits.
        object.spelled_len();
        object.write(&mut self.text)?;
        self.count += 1;
        self.last = at;
        Ok(())
    }

    /// Returns true if the list can append this object without more memory.
    #[inline(always)]
    pub fn has_room(&self, object: &ObjectRef<'_>) -> bool {
        object.spelled_len() <= self.text.capacity() - self.text.len()
    }

    /// Returns for how many bytes of spellings the list has memory, those of its objects included.
    pub fn capacity(&self) -> usize {
        self.text.capacity()
    }

    /// Returns how many objects there are.
    pub fn len(&self) -> usize
        ensures { result ≡ length self.now }
    {
        self.count
    }

    /// Returns true if there is no object.
    pub fn is_empty(&self) -> bool
        ensures { result ≡ (length self.now == 0) }
    {
        self.count == 0
    }

    /// Returns the first object, or None if the list is empty.
    pub fn first(&self) -> Option<ObjectRef<'_>>
        ensures some { IfSome result (λ o. (rest : List Object) × (self.entry.now ≡ shown_object o ∷ rest)) }
        ensures none { IsNone result → self.entry.now ≡ [] }
    {
        self.iter().next()
    }

    /// Returns the last object, or None if the list is empty. The other objects are not read.
    pub fn last(&self) -> Option<ObjectRef<'_>>
        ensures some { IfSome result (λ o. (front : List Object) × (self.entry.now ≡ front ++ shown_object o ∷ [])) }
        ensures none { IsNone result → self.entry.now ≡ [] }
    {
        if self.count == 0 {
            return None;
        }
        let (object, _) = read_first(&self.text.as_slice()[self.last..]);
        Some(object)
    }

    /// Returns the objects in order.
    pub fn iter(&self) -> ObjectsIn<'_>
        ensures objects { result ≡ self.entry.now }
        ensures valid { All IsObject self.entry.now }
    {
        ObjectsIn {
            rest: self.text.as_slice(),
        }
    }
}
