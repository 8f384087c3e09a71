//! Entries: the pieces of a segment.

use crate::digest::Digest;
use crate::key::Key;
use crate::kind::{HEADER_LEN, OBJECT_LEN, SAFE_LEN, TOMBSTONE_LEN};
use crate::limits::{SafeVersion, Value, Version};

/// The role of a segment in the log. A head takes appends, and a survivor has what a pass of the cleaner copied.
#[derive(Clone, Copy)]
pub enum Role {
    Head,
    Survivor,
}

impl Role {
    ghost use Rattle.std.specs.Prelude.{◌≡◌, ◌<◌, IfSome, IfNone};
    ghost use Rattle.entry.specs.Format.{role_byte};

    /// Returns the role that this byte stands for, or None if it stands for no role.
    pub(crate) fn from_byte(byte: u8) -> Option<Role>
        ensures some { IfSome result (λ role. byte ≡ role_byte role) }
        ensures none { IfNone result (1 < byte) }
    {
        match byte {
            0 => Some(Role::Head),
            1 => Some(Role::Survivor),
            _ => None,
        }
    }

    /// Returns the byte that stands for the role.
    pub(crate) fn byte(self) -> u8
        ensures { result ≡ role_byte self }
    {
        match self {
            Role::Head => 0,
            Role::Survivor => 1,
        }
    }
}

/// The first entry of a segment: the number of its master, its id, and its role.
#[derive(Clone, Copy)]
pub struct Header {
    pub master: u64,
    pub segment: u64,
    pub role: Role,
}

/// An entry that puts a value at a key, with a version.
#[derive(Clone, Drop)]
pub struct Object {
    pub key: Key,
    pub version: Version,
    pub value: Value,
}

/// An entry that ends an object: the object of `key` with version `version`, which lay in segment `segment`.
#[derive(Clone, Drop)]
pub struct Tombstone {
    pub key: Key,
    pub version: Version,
    pub segment: u64,
}

/// An entry of the log. Each field is within the limits of the format.
#[derive(Clone, Drop)]
pub enum Entry {
    Header(Header),
    /// The list of all segments of the log.
    Digest(Digest),
    Safe(SafeVersion),
    Object(Object),
    Tombstone(Tombstone),
}

impl Entry {
    ghost use Rattle.std.specs.Prelude.{◌≡◌, length};
    ghost use Rattle.entry.specs.Format.{spelling, IsEntry};

    /// Returns how many bytes the entry has in a text.
    pub(crate) fn spelled_len(&self) -> usize
        ensures len { result ≡ length (spelling self.now) }
        ensures valid { IsEntry self.now }
    {
        match self {
            Entry::Header(header) => {
                let _master = header.master;
                let _segment = header.segment;
                HEADER_LEN
            }
            Entry::Digest(digest) => digest.spelled_len(),
            Entry::Safe(version) => {
                version.get();
                SAFE_LEN
            }
            Entry::Object(object) => {
                object.version.get();
                let _table = object.key.table;
                OBJECT_LEN + object.key.bytes.as_slice().len() + object.value.as_slice().len()
            }
            Entry::Tombstone(tombstone) => {
                tombstone.version.get();
                let _table = tombstone.key.table;
                let _segment = tombstone.segment;
                TOMBSTONE_LEN + tombstone.key.bytes.as_slice().len()
            }
        }
    }
}
