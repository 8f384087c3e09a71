//! What is kept of a key.

ghost use Rattle.entry.specs.Limits.{IsValue};

use claims::{Claim, PlacedKey, ReplayFault};
use entry::Version;
use std::collections::HashMap;

/// What is kept of a key: the value that it has at a version, or that it was deleted. The key stands beside it.
#[derive(Clone, Copy)]
pub struct Kept<'a> {
    version: Version,
    dead: bool,
    /// The value of the object. A tombstone has no bytes here.
    value: &'a [u8],
    ghost limits: { IsValue value.now },
}

/// What is kept of each key that came so far.
pub type Keeping<'a> = HashMap<PlacedKey<'a>, Kept<'a>>;

impl<'a> Kept<'a> {
    ghost use Rattle.std.specs.Prelude.{◌≡◌, true, IfOk, IfErr};
    ghost use Rattle.claims.specs.Claims.{claimed, is_clash};
    ghost use Rattle.claims.specs.Placed.{placed_key};
    ghost use Rattle.partition_replay.specs.Keeping.{kept_claim, IsRanked};

    /// What a claim says of its key.
    pub fn of(claim: &Claim<'a>) -> Kept<'a>
        ensures { kept_claim (placed_key claim.now.key) result ≡ claimed claim.now }
    {
        Kept {
            version: claim.version,
            dead: claim.dead,
            value: claim.value,
        }
    }

    /// What is kept, as a claim of the key.
    pub fn to_claim(&self, key: PlacedKey<'a>) -> Claim<'a>
        ensures { claimed result ≡ kept_claim (placed_key key.entry) self.now }
    {
        Claim {
            key,
            version: self.version,
            dead: self.dead,
            value: self.value,
        }
    }

    /// Whether a claim of the same key ranks above this. At one version a tombstone ranks above an object. Two objects
    /// of one version with different values are a Clash.
    pub fn is_below(&self, claim: &Claim<'_>) -> Result<bool, ReplayFault>
        ensures ok { IfOk result (IsRanked (kept_claim (placed_key claim.now.key) self.now) (claimed claim.now)) }
        ensures clash { IfErr result (λ fault. (fault ≡ ReplayFault.Clash)
            × (is_clash (kept_claim (placed_key claim.now.key) self.now) (claimed claim.now) ≡ true)) }
    {
        if self.version != claim.version {
            return Ok(self.version < claim.version);
        }
        if self.dead || claim.dead {
            return Ok(!self.dead);
        }
        if self.value == claim.value {
            return Ok(false);
        }
        Err(ReplayFault::Clash)
    }
}
