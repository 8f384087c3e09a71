//! The objects that a master was loaded with. Only clauses of contracts read the list.

ghost use Rattle.std.specs.Prelude.{◌≡◌, List, [], ◌∷◌};
ghost use Rattle.std.specs.Borrow.{ftrue};
ghost use Rattle.entry.specs.declared.entry.Object.{Object};
ghost use Rattle.entry.specs.View.{shown_object};

use entry::ObjectRef;
use std::marker::Model;

/// The objects that were loaded, the last one first. The list has no bytes when the program runs.
#[derive(Drop)]
pub struct Loaded {
    pub ghost objects: { List Object },
}

impl Model for Loaded {
    ghost also_owns = { λ _. ftrue };
}

// A struct with `also_owns` is neither Send nor Sync by itself. This one owns nothing, so it may be both.
unsafe impl Send for Loaded {}

unsafe impl Sync for Loaded {}

impl Loaded {
    /// Makes the list without objects.
    pub fn nothing() -> Loaded
        ensures { result.objects ≡ [] }
    {
        Loaded {}
    }

    /// Makes the list with one object more.
    pub fn with(_before: &Loaded, _object: &ObjectRef<'_>) -> Loaded
        ensures { result.objects ≡ shown_object _object.now ∷ _before.now.objects }
    {
        Loaded {}
    }
}
