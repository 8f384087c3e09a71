//! What the parts of a store are called, and what it was made of.

use history_row::Labels;
use std::marker::Brand;

/// Names the parts of one store: its ledger, its cells and the table of its mark. It also has what the store was made
/// of. Each call of a program that opens a store picks such a name.
pub trait Naming: Labels {
    ghost use Rattle.atomic_table.specs.Seated.{TableId};
    ghost use Rattle.store_seat.specs.Made.{Made};

    ghost table: { TableId };

    ghost made: { Made };
}

impl Naming for Brand {
    ghost use Rattle.std.specs.Prelude.{[]};
    ghost use Rattle.store_seat.specs.Made.{nobody};

    ghost table = { record {
      words = 0;
      slots = 0;
      views_name = 0;
      atom = 0;
      block = 0;
      offset = 0;
      slot_names = [];
    } };

    ghost made = { nobody };
}
