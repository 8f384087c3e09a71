//! Which replicas of a listed segment may be used.

ghost use Rattle.std.specs.Prelude.{◌≡◌, ◌≤◌, ◌⊎◌, ◌↔◌, length, false, IfSome, IsTrue};

use replica::Holding;

/// Whether a replica may be used for a listed segment. `len` is the length that the digest lists for it, if it lists
/// one.
pub(crate) fn is_usable(holding: &Holding<'_>, len: Option<u64>) -> bool
    ensures { IsTrue result ↔
        ((holding.now.is_open ≡ false) ⊎ IfSome len (λ n. n ≤ length holding.now.bytes)) }
{
    match len {
        Some(len) => !holding.is_open || len <= holding.bytes.as_slice().len() as u64,
        None => true,
    }
}
