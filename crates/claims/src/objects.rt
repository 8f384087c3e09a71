//! The objects that a log is rebuilt to, in one list or in several behind one another.

ghost use Rattle.std.specs.Prelude.{◌≡◌, ◌++◌, ◌∷◌, [], List, length, IsNone, IfSome, OnOk, OnErr};
ghost use Rattle.std.specs.Iterator.{YieldsFirstBy, at_most};
ghost use Rattle.entry.specs.declared.entry.Object.{Object};
ghost use Rattle.entry.specs.View.{shown_object};

use entry::{NoMemory, ObjectRef};
use object_list::{ObjectList, ObjectsIn};
use std::alloc::Global;
use std::marker::Model;

/// Objects, in an order that the maker of the list promises. The objects of several partitions stay in the lists of
/// their partitions, so nothing is copied to join them. A contract sees one list.
#[derive(Drop)]
pub struct Objects {
    first: ObjectList,
    others: Vec<ObjectList>,
    // How many objects all the lists have.
    count: usize,
}

impl Model for Objects {
    ghost use Rattle.std.specs.Prelude.{◌≡◌, List, length};
    ghost use Rattle.entry.specs.declared.entry.Object.{Object};
    ghost use Rattle.claims.specs.Objects.{behind};

    ghost Value = { List Object };

    ghost view = { λ o. behind o.first o.others.items };

    ghost invariant = { λ o. o.count ≡ length (behind o.first o.others.items) };
}

/// An iterator over the objects that are still to come.
#[derive(Drop)]
pub struct ObjectsLeft<'a> {
    part: ObjectsIn<'a>,
    others: &'a [ObjectList],
}

impl<'a> Model for ObjectsLeft<'a> {
    ghost use Rattle.std.specs.Prelude.{List};
    ghost use Rattle.entry.specs.declared.entry.Object.{Object};
    ghost use Rattle.claims.specs.Objects.{behind};

    ghost Value = { List Object };

    ghost view = { λ it. behind it.part it.others.now };
}

impl Objects {
    /// A list of these objects. It takes no memory.
    pub fn new(alloc: Global, objects: ObjectList) -> Objects
        ensures { result ≡ objects }
    {
        let count = objects.len();
        Objects {
            first: objects,
            others: Vec::new(alloc),
            count,
        }
    }

    /// Appends a list, which is not copied. If memory runs out, nothing changes.
    pub fn add(&mut self, objects: ObjectList) -> Result<(), NoMemory>
        ensures ok { OnOk result (self.new ≡ self.old ++ objects) }
        ensures err { OnErr result (self.new ≡ self.old) }
    {
        let Some(count) = self.count.checked_add(objects.len()) else {
            return Err(NoMemory);
        };
        self.others.reserve(1)?;
        self.others.push_reserved(objects);
        self.count = count;
        Ok(())
    }

    /// Appends the objects of another list, which are not copied. If memory runs out, nothing changes.
    pub fn append(&mut self, later: Objects) -> Result<(), NoMemory>
        ensures ok { OnOk result (self.new ≡ self.old ++ later) }
        ensures err { OnErr result (self.new ≡ self.old) }
    {
        let Some(count) = self.count.checked_add(later.count) else {
            return Err(NoMemory);
        };
        let Objects {
            first,
            others,
            count: _,
        } = later;
        let mut lists = others;
        if lists.insert(0, first).is_err() {
            return Err(NoMemory);
        }
        self.others.append(&mut lists)?;
        self.count = count;
        Ok(())
    }

    /// How many objects there are.
    pub fn len(&self) -> usize
        ensures { result ≡ length self.now }
    {
        self.count
    }

    /// The first object, or None. It skips the lists that are empty.
    pub fn first(&self) -> Option<ObjectRef<'_>>
        ensures some { IfSome result (λ o. (rest : List Object) × (self.entry.now ≡ shown_object o ∷ rest)) }
        ensures none { IsNone result → self.entry.now ≡ [] }
    {
        self.iter().next()
    }

    /// The last object, or None. It skips the lists that are empty.
    pub fn last(&self) -> Option<ObjectRef<'_>>
        ensures some { IfSome result (λ o. (front : List Object) × (self.entry.now ≡ front ++ shown_object o ∷ [])) }
        ensures none { IsNone result → self.entry.now ≡ [] }
    {
        let mut n = self.others.len();
        while n > 0 {
            n -= 1;
            if let Some(object) = self.others[n].last() {
                return Some(object);
            }
        }
        self.first.last()
    }

    /// The objects in order.
    pub fn iter(&self) -> ObjectsLeft<'_>
        ensures { result ≡ self.entry.now }
    {
        ObjectsLeft {
            part: self.first.iter(),
            others: self.others.as_slice(),
        }
    }
}

impl<'a> Iterator for ObjectsLeft<'a> {
    type Item = ObjectRef<'a>;

    ghost next_gives = { YieldsFirstBy shown_object (λ os. os) };

    ghost remaining = { λ os. at_most (length os) };

    #[inline(always)]
    fn next(&mut self) -> Option<ObjectRef<'a>> {
        while self.part.is_empty() {
            let Some((next, rest)) = self.others.split_first() else {
                return None;
            };
            self.part = next.iter();
            self.others = rest;
        }
        self.part.next()
    }
}
