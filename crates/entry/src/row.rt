//! Lists of values that don't change.

use std::marker::Model;

/// A list of values that doesn't change. A contract sees it as a list.
#[derive(Drop)]
pub struct Row<T> {
    values: Vec<T>,
}

impl<T> Model for Row<T> {
    ghost use Rattle.std.specs.Prelude.{List};

    ghost Value = { List T };

    ghost view = { λ r. r.values.items };
}

impl<T> Row<T> {
    ghost use Rattle.std.specs.Prelude.{◌≡◌};

    /// Makes the row of these values. This call allocates no memory.
    pub fn new(values: Vec<T>) -> Row<T>
        ensures { result ≡ values.items }
    {
        Row { values }
    }

    pub fn as_slice(&self) -> &[T]
        ensures { result.now ≡ self.now }
    {
        self.values.as_slice()
    }
}
