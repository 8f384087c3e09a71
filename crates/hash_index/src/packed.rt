//! A place as a slot packs it.

ghost use Rattle.std.specs.Prelude.{◌≡◌, ◌+◌, ◌*◌, ◌<◌, ◌≤◌, IfSome, IfNone};
ghost use Rattle.hash_index.specs.Packing.{IsPackable};

use places::Held;
use std::marker::Model;

/// Offsets in slots are below this number, 2^23. The word of an offset has nine bits of the piece above the offset's
/// 23 bits.
pub(crate) const OFFSETS: u32 = 8_388_608;

/// This many pieces of a hash have the same tag.
pub(crate) const LOWS: u64 = 512;

/// Pieces of a hash are below this number, 2^25.
const PIECES: u64 = 33_554_432;

/// Returns the tag of a piece of a hash, and its other nine bits. Returns `None` if the number is below 512 or at
/// least 2^25, since no key has such a piece.
#[inline(always)]
pub(crate) fn parts(hash: u64) -> Option<(u16, u32)>
    ensures parts { IfSome result (λ p. p.0 * 512 + p.1 ≡ hash) }
    ensures tag { IfSome result (λ p. 0 < p.0) }
    ensures low { IfSome result (λ p. p.1 < 512) }
    ensures other { IfNone result (hash < 33554432 → hash < 512) }
{
    if hash < LOWS || hash >= PIECES {
        return None;
    }
    Some(((hash / LOWS) as u16, (hash % LOWS) as u32))
}

/// A place as a slot packs it: its tag, the word of its offset, and its segment. A contract sees the place and its
/// hash.
#[derive(Drop)]
pub(crate) struct Packed {
    pub(crate) tag: u16,
    pub(crate) at: u32,
    pub(crate) segment: u64,
}

impl Model for Packed {
    ghost use Rattle.std.specs.Prelude.{◌<◌};
    ghost use Rattle.places.specs.declared.place.Held.{Held};
    ghost use Rattle.hash_index.specs.Packing.{unpacked};

    ghost Value = { Held };

    ghost view = { λ p. unpacked p.tag p.at p.segment };

    ghost invariant = { λ p. (0 < p.tag) × (p.at < 4294967296) };
}

impl Packed {
    /// Packs a place as a slot has it; returns `None` if no slot can hold its hash or its offset.
    #[inline(always)]
    pub(crate) fn of(held: Held) -> Option<Packed>
        ensures same { IfSome result (λ p. p ≡ held) }
        ensures hash { IfSome result (λ p. 512 ≤ p.hash) }
        ensures other { IfNone result (IsPackable held → held.hash < 512) }
    {
        if held.place.at >= OFFSETS as usize {
            return None;
        }
        let (tag, low) = parts(held.hash)?;
        Some(Packed {
            tag,
            at: low * OFFSETS + held.place.at as u32,
            segment: held.place.segment,
        })
    }
}
