//! Views of entries: they borrow the bytes of a text and copy nothing.

ghost use Rattle.std.specs.Prelude.{◌≡◌, ◌≤◌, true, false, length};
ghost use Rattle.entry.specs.Key.{IsKeyBytes};
ghost use Rattle.entry.specs.Limits.{IsValue, AreIds, AreLengths};
ghost use Rattle.entry.specs.Format.{ids_at, listed_at, digest_len};

use crate::entry::Header;
use crate::limits::{SafeVersion, Version};
use std::cmp::Ordering;

/// A view of a key, which borrows its bytes. Keys are ordered by table, then by bytes.
#[derive(Clone, Copy, PartialEq, Eq)]
pub struct KeyRef<'a> {
    pub table: u64,
    /// 1 to 1,024 bytes.
    pub bytes: &'a [u8],
    ghost limits: { IsKeyBytes bytes.now },
}

/// A view of an object, which borrows the bytes of its key and its value.
#[derive(Clone, Copy)]
pub struct ObjectRef<'a> {
    pub key: KeyRef<'a>,
    pub version: Version,
    /// At most 2,097,152 bytes.
    pub value: &'a [u8],
    ghost limits: { IsValue value.now },
}

/// A view of a tombstone, which borrows the bytes of its key.
#[derive(Clone, Copy)]
pub struct TombstoneRef<'a> {
    pub key: KeyRef<'a>,
    pub version: Version,
    /// The segment where the ended object lay.
    pub segment: u64,
}

/// A view of a digest. It borrows bytes that begin with the digest, and knows the number of listed segments and
/// whether the digest lists their lengths.
#[derive(Clone, Copy)]
pub struct DigestRef<'a> {
    pub(crate) count: usize,
    pub(crate) text: &'a [u8],
    pub(crate) has_lengths: bool,
    ghost within: { digest_len has_lengths count ≤ length text.now },
    ghost ids: { has_lengths ≡ false → AreIds (ids_at count 5 text.now) },
    ghost lengths: { has_lengths ≡ true → AreLengths (listed_at count 5 text.now) },
}

/// A view of an entry, which borrows its bytes. A view allocates no memory.
#[derive(Clone, Copy)]
pub enum EntryRef<'a> {
    Header(Header),
    Digest(DigestRef<'a>),
    Safe(SafeVersion),
    Object(ObjectRef<'a>),
    Tombstone(TombstoneRef<'a>),
}

impl<'a> PartialOrd for KeyRef<'a> {
    ghost use Rattle.std.specs.Prelude.{refl};
    ghost use Rattle.std.specs.Cmp.{partial_order_from_agreeing_total, on_total};
    ghost use Rattle.std.specs.Ordering.{on, as_partial_cmp};
    ghost use Rattle.entry.specs.Order.{key_cmp, key_cmp_total, key_eq_ties};
    ghost use Rattle.entry.specs.View.{shown_key};

    ghost partial_cmp = { as_partial_cmp (on shown_key key_cmp) };

    ghost laws = { partial_order_from_agreeing_total (on shown_key key_cmp) (on_total shown_key key_cmp_total)
        (λ x y. refl) (λ x y. key_eq_ties (shown_key x) (shown_key y)) };

    fn partial_cmp(&self, other: &KeyRef<'a>) -> Option<Ordering> {
        Some(self.cmp(other))
    }
}

impl<'a> Ord for KeyRef<'a> {
    ghost use Rattle.std.specs.Prelude.{refl};
    ghost use Rattle.std.specs.Cmp.{on_total};
    ghost use Rattle.std.specs.Ordering.{on};
    ghost use Rattle.entry.specs.Order.{key_cmp, key_cmp_total, key_eq_ties};
    ghost use Rattle.entry.specs.View.{shown_key};

    ghost cmp = { on shown_key key_cmp };

    ghost total = { on_total shown_key key_cmp_total };

    ghost matches_partial_cmp = { λ x y. refl };

    ghost matches_eq = { λ x y. key_eq_ties (shown_key x) (shown_key y) };

    fn cmp(&self, other: &KeyRef<'a>) -> Ordering {
        (self.table, self.bytes).cmp(&(other.table, other.bytes))
    }
}
