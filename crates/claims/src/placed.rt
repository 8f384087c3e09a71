//! A key beside its place.

ghost use Rattle.std.specs.Prelude.{◌≡◌};
ghost use Rattle.entry.specs.Key.{place_of};

use entry::KeyRef;
use std::cmp::Ordering;
use std::hash::{Hash, Hasher};

/// A key and its place. Two keys of one table with different places are told apart without a look at their bytes.
#[derive(Clone, Copy)]
pub struct PlacedKey<'a> {
    key: KeyRef<'a>,
    place: u64,
    ghost placed: { place ≡ place_of key.bytes.now },
}

impl<'a> PlacedKey<'a> {
    /// The key, with its place.
    pub fn of(key: KeyRef<'a>) -> PlacedKey<'a>
        ensures { result.key ≡ key.entry }
    {
        let place = key.place();
        PlacedKey { key, place }
    }

    /// The key.
    pub fn key(&self) -> KeyRef<'a>
        ensures { result ≡ self.now.key }
    {
        self.key
    }
}

impl<'a> PartialEq for PlacedKey<'a> {
    ghost use Rattle.std.specs.Cmp.{partial_equiv_from_equiv, on_equiv};
    ghost use Rattle.std.specs.Ordering.{on};
    ghost use Rattle.entry.specs.Order.{key_eq};
    ghost use Rattle.claims.specs.Placed.{placed_key, key_eq_equiv};

    ghost eq = { on placed_key key_eq };

    ghost laws = { partial_equiv_from_equiv (on_equiv placed_key key_eq_equiv) };

    fn eq(&self, other: &PlacedKey<'a>) -> bool {
        self.place == other.place && self.key == other.key
    }
}

impl<'a> Eq for PlacedKey<'a> {
    ghost use Rattle.std.specs.Cmp.{on_equiv};
    ghost use Rattle.claims.specs.Placed.{placed_key, key_eq_equiv};

    ghost laws = { on_equiv placed_key key_eq_equiv };
}

impl<'a> PartialOrd for PlacedKey<'a> {
    ghost use Rattle.std.specs.Prelude.{refl};
    ghost use Rattle.std.specs.Cmp.{partial_order_from_agreeing_total, on_total};
    ghost use Rattle.std.specs.Ordering.{on, as_partial_cmp};
    ghost use Rattle.entry.specs.Order.{key_cmp, key_cmp_total, key_eq_ties};
    ghost use Rattle.claims.specs.Placed.{placed_key};

    ghost partial_cmp = { as_partial_cmp (on placed_key key_cmp) };

    ghost laws = { partial_order_from_agreeing_total (on placed_key key_cmp) (on_total placed_key key_cmp_total)
        (λ x y. refl) (λ x y. key_eq_ties (placed_key x) (placed_key y)) };

    fn partial_cmp(&self, other: &PlacedKey<'a>) -> Option<Ordering> {
        Some(self.cmp(other))
    }
}

impl<'a> Ord for PlacedKey<'a> {
    ghost use Rattle.std.specs.Prelude.{refl};
    ghost use Rattle.std.specs.Cmp.{on_total};
    ghost use Rattle.std.specs.Ordering.{on};
    ghost use Rattle.entry.specs.Order.{key_cmp, key_cmp_total, key_eq_ties};
    ghost use Rattle.claims.specs.Placed.{placed_key};

    ghost cmp = { on placed_key key_cmp };

    ghost total = { on_total placed_key key_cmp_total };

    ghost matches_partial_cmp = { λ x y. refl };

    ghost matches_eq = { λ x y. key_eq_ties (placed_key x) (placed_key y) };

    fn cmp(&self, other: &PlacedKey<'a>) -> Ordering {
        if self.key.table == other.key.table && self.place != other.place {
            self.place.cmp(&other.place)
        } else {
            self.key.cmp(&other.key)
        }
    }
}

impl<'a> Hash for PlacedKey<'a> {
    ghost use Rattle.claims.specs.Placed.{placed_key, key_writes, key_writes_alike};

    ghost hash_input = { λ k. key_writes (placed_key k) };

    ghost respects_eq = { λ x y. key_writes_alike (placed_key x) (placed_key y) };

    fn hash<H: Hasher>(&self, state: &mut H) {
        state.write_u64(self.key.table);
        state.write(self.key.bytes);
    }
}
