//! Keys, and the place of each key in its table.

ghost use Rattle.std.specs.Cmp.{partial_equiv_from_equiv, partial_order_from_agreeing_total};
ghost use Rattle.std.specs.Cmp.Lexicographic.{pointwise, nat_list_eq_equiv};
ghost use Rattle.std.specs.Ordering.{as_partial_cmp};
ghost use Rattle.std.specs.Prelude.{refl, nat_eq, ◌≡◌, ◌<◌, ◌≤◌, ◌↔◌, length, IfOk, OnErr, IsErrOf};
ghost use Rattle.entry.specs.Key.{IsKeyBytes, place_of};
ghost use Rattle.entry.specs.Order.{key_cmp, key_cmp_total, key_eq_ties};

use crate::fault::{KeyFault, NoMemory};
use crate::short_bytes::ShortBytes;
use crate::view::KeyRef;
use std::alloc::Global;
use std::cmp::Ordering;
use std::marker::Model;

/// The most bytes that a key may have.
pub const MAX_KEY_LEN: usize = 1024;

/// The bytes of a key: 1 to 1,024 of them. A contract sees them as a list.
#[derive(Clone, Debug, Drop)]
pub struct KeyBytes {
    bytes: ShortBytes,
}

impl Model for KeyBytes {
    ghost use Rattle.std.specs.Prelude.{ℕ, List};
    ghost use Rattle.entry.specs.Key.{IsKeyBytes};

    ghost Value = { List ℕ };

    ghost view = { λ k. k.bytes };

    ghost invariant = { λ k. IsKeyBytes k.bytes };
}

impl KeyBytes {
    /// Copies these bytes. The call allocates memory only if there are more than 15 bytes.
    pub(crate) fn from_slice(alloc: Global, bytes: &[u8]) -> Result<KeyBytes, NoMemory>
        requires not_empty { 0 < length bytes.now }
        requires limit { length bytes.now ≤ MAX_KEY_LEN }
        ensures copy { IfOk result (λ copy. copy ≡ bytes.now) }
        ensures few { OnErr result (15 < length bytes.now) }
    {
        let bytes = ShortBytes::from_slice(alloc, bytes)?;
        Ok(KeyBytes { bytes })
    }

    pub fn as_slice(&self) -> &[u8]
        ensures bytes { result.now ≡ self.now }
        ensures valid { IsKeyBytes self.now }
    {
        self.bytes.as_slice()
    }
}

/// A key: the number of a table, and 1 to 1,024 bytes. Keys are ordered by table, then by bytes.
#[derive(Clone, Debug, Drop, PartialEq, Eq)]
pub struct Key {
    pub table: u64,
    pub bytes: KeyBytes,
}

impl Key {
    /// Makes the key of this table and these bytes. The call fails if `bytes` is empty or longer than 1,024 bytes, or
    /// if memory runs out. It allocates memory only if there are more than 15 bytes.
    pub fn new(alloc: Global, table: u64, bytes: &[u8]) -> Result<Key, KeyFault>
        ensures ok { IfOk result (λ key. (key.table ≡ table) × (key.bytes ≡ bytes.now)) }
        ensures empty { IsErrOf result KeyFault.Empty ↔ (length bytes.now ≡ 0) }
        ensures too_long { IsErrOf result KeyFault.TooLong ↔ (MAX_KEY_LEN < length bytes.now) }
        ensures no_memory { IsErrOf result KeyFault.NoMemory → 15 < length bytes.now }
    {
        if bytes.is_empty() {
            return Err(KeyFault::Empty);
        }
        if bytes.len() > MAX_KEY_LEN {
            return Err(KeyFault::TooLong);
        }
        let bytes = KeyBytes::from_slice(alloc, bytes)?;
        Ok(Key { table, bytes })
    }
}

/// Returns the place of a key with these bytes in its table.
pub(crate) fn place_at(bytes: &[u8]) -> u64
    ensures { result ≡ place_of bytes.now }
{
    let taken = bytes.len().min(8);
    let mut first = [0; 8];
    first[..taken].copy_from_slice(&bytes[..taken]);
    u64::from_be_bytes(first)
}

/// Returns the place of a key in its table: the big-endian number of its first eight bytes. A shorter key is padded
/// with zero bytes at its end.
pub fn place(key: &Key) -> u64
    ensures { result ≡ place_of key.now.bytes }
{
    place_at(key.bytes.as_slice())
}

impl<'a> KeyRef<'a> {
    /// Returns the place of the key in its table, like `place`.
    pub fn place(&self) -> u64
        ensures { result ≡ place_of self.now.bytes.now }
    {
        place_at(self.bytes)
    }
}

impl PartialEq for KeyBytes {
    ghost eq = { pointwise nat_eq };

    ghost laws = { partial_equiv_from_equiv nat_list_eq_equiv };

    fn eq(&self, other: &KeyBytes) -> bool {
        self.as_slice() == other.as_slice()
    }
}

impl Eq for KeyBytes {
    ghost laws = { nat_list_eq_equiv };
}

impl PartialOrd for Key {
    ghost partial_cmp = { as_partial_cmp key_cmp };

    ghost laws = { partial_order_from_agreeing_total key_cmp key_cmp_total (λ x y. refl) key_eq_ties };

    fn partial_cmp(&self, other: &Key) -> Option<Ordering> {
        Some(self.cmp(other))
    }
}

impl Ord for Key {
    ghost cmp = { key_cmp };

    ghost total = { key_cmp_total };

    ghost matches_partial_cmp = { λ x y. refl };

    ghost matches_eq = { key_eq_ties };

    fn cmp(&self, other: &Key) -> Ordering {
        self.view().cmp(&other.view())
    }
}
