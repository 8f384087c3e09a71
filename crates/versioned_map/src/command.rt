//! The commands of clients, and the replies to them.

ghost use Rattle.std.specs.Prelude.{◌≡◌, IfOk};
ghost use Rattle.versioned_map.specs.Command.{command_key};

use entry::{Key, Value, Version};
use std::alloc::AllocError;

/// The condition under which a put is done.
#[derive(Clone, Copy)]
pub enum If {
    Any,
    /// The put is done only if the key is absent.
    Absent,
    /// The put is done only if the key has this version.
    Version(u64),
}

/// A client's command.
#[derive(Clone, Drop)]
pub enum Command {
    Get(Key),
    Put(Key, Value, If),
    Delete(Key),
}

impl Command {
    /// Returns the key that the command names.
    pub fn key(&self) -> &Key
        ensures { result.now ≡ command_key self.entry.now }
    {
        match self {
            Command::Get(key) => key,
            Command::Put(key, _, _) => key,
            Command::Delete(key) => key,
        }
    }

    /// Copies the command into memory of its own. The call fails only if memory runs out.
    pub fn copy(&self) -> Result<Command, AllocError>
        ensures { IfOk result (λ copy. copy ≡ self.now) }
    {
        self.clone()
    }
}

/// The answer to a command.
#[derive(Clone, Debug, Drop)]
pub enum Reply {
    /// A get found the key at this version, with this value.
    Found(Version, Value),
    /// The key is absent.
    None,
    /// A put gave the key this version, or a delete ended the key's object, which had this version.
    Ok(Version),
    /// A put was not done, since its condition failed: the key has this version, or is absent.
    Mismatch(Option<Version>),
}

/// An accepted command, the seat that gave it, and the reply to it.
#[derive(Drop)]
pub struct Record {
    pub seat: u64,
    pub command: Command,
    pub reply: Reply,
}
