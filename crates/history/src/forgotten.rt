//! The records that a history has forgotten. Only contracts see them.

ghost use Rattle.std.specs.Prelude.{◌≡◌, ◌++◌, [], List, take};
ghost use Rattle.std.specs.Borrow.{ftrue};
ghost use Rattle.versioned_map.specs.declared.command.Record.{Record};
ghost use Rattle.history.specs.Records.{records_in};

use crate::rows::Rows;
use crate::texts::Texts;
use std::marker::Model;

/// The forgotten records, in order, as contracts see them. This value takes no memory.
#[derive(Drop)]
pub(crate) struct Forgotten {
    pub ghost records: { List Record },
}

impl Model for Forgotten {
    ghost also_owns = { λ _. ftrue };
}

// A type with `also_owns` is neither by itself. This one owns nothing.
unsafe impl Send for Forgotten {}

unsafe impl Sync for Forgotten {}

impl Forgotten {
    /// Makes a value that has no records.
    pub(crate) fn none() -> Forgotten
        ensures { result.records ≡ [] }
    {
        Forgotten {}
    }

    /// Makes a value that has the records of `_before`, and then those of the first 1,024 rows.
    pub(crate) fn with(_before: &Forgotten, _texts: &Texts, _rows: &Rows) -> Forgotten
        ensures { result.records ≡ _before.now.records ++ records_in _texts.now (take 1024 _rows.now.rows) }
    {
        Forgotten {}
    }
}
