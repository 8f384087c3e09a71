//! What an object or a tombstone claims of its key.

ghost use Rattle.std.specs.Prelude.{◌≡◌};
ghost use Rattle.std.specs.Option.{option_map};
ghost use Rattle.entry.specs.Format.{IsObject};
ghost use Rattle.entry.specs.Limits.{IsValue};
ghost use Rattle.entry.specs.View.{shown, shown_object};

use crate::placed::PlacedKey;
use entry::{EntryRef, ObjectRef, Version};

/// What an entry says of its key: at this version it has this value, or was deleted. Claims are ordered by key, then
/// by version. At one version the tombstone's claim is last.
#[derive(Clone, Copy, PartialEq, Eq, PartialOrd, Ord)]
pub struct Claim<'a> {
    pub key: PlacedKey<'a>,
    pub version: Version,
    pub dead: bool,
    /// The value of the object. A tombstone has no bytes here.
    pub value: &'a [u8],
    ghost limits: { IsValue value.now },
}

impl<'a> Claim<'a> {
    ghost use Rattle.claims.specs.Claims.{claimed, claim_of, object_of, is_clash};

    /// The claim of an entry, or None if it is neither an object nor a tombstone.
    #[inline(always)]
    pub fn of(entry: &EntryRef<'a>) -> Option<Claim<'a>>
        ensures { option_map claimed result ≡ claim_of (shown entry.entry.now) }
    {
        match entry {
            EntryRef::Object(object) => Some(Claim {
                key: PlacedKey::of(object.key),
                version: object.version,
                dead: false,
                value: object.value,
            }),
            EntryRef::Tombstone(tombstone) => Some(Claim {
                key: PlacedKey::of(tombstone.key),
                version: tombstone.version,
                dead: true,
                value: &[],
            }),
            _ => None,
        }
    }

    /// A copy of this claim. It borrows the same bytes.
    pub fn copy(&self) -> Claim<'a>
        ensures { claimed result ≡ claimed self.now }
    {
        Claim {
            key: self.key,
            version: self.version,
            dead: self.dead,
            value: self.value,
        }
    }

    /// Returns true if both are claims of objects with one key and version, and with different values.
    pub fn clashes(&self, other: &Claim<'_>) -> bool
        ensures { result ≡ is_clash (claimed self.now) (claimed other.now) }
    {
        let same_key = self.key == other.key;
        let same_version = self.version == other.version;
        if !same_key || !same_version {
            return false;
        }
        let same_value = self.value == other.value;
        !self.dead && !other.dead && !same_value
    }

    /// The object with the key, the version and the value of this claim. The value of a tombstone's claim is empty. No
    /// byte is copied.
    pub fn object(&self) -> ObjectRef<'a>
        ensures object { shown_object result ≡ object_of (claimed self.now) }
        ensures valid { IsObject (object_of (claimed self.now)) }
    {
        self.version.get();
        ObjectRef {
            key: self.key.key(),
            version: self.version,
            value: self.value,
        }
    }
}
