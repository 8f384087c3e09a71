//! The change that a command makes, which follows from the version that its key has.

ghost use Rattle.std.specs.Prelude.{◌≡◌, ◌≤◌, ℕ, List, Option, None, Some, true, IfOk, IfErr};
ghost use Rattle.entry.specs.declared.key.Key.{Key};
ghost use Rattle.entry.specs.Meaning.{Versioned};
ghost use Rattle.history.specs.View.{shown_command};
ghost use Rattle.versioned_map.specs.Versioned.{reply_given};
ghost use Rattle.versioned_map.specs.Versioned.{is_spent};
ghost use Rattle.master_commands.specs.Change.{is_nothing, creates, live_of_change, safe_of_change, with_object_of};
ghost use Rattle.master_state.specs.Budget.{segments_for};
ghost use Rattle.master_state.specs.Causes.{is_longer, is_too_big};
ghost use Rattle.master_commands.specs.Change.{Creates, CreatesSpent, Replaces, ReplacesSpent, IsChangeFrom};
ghost use Rattle.master_commands.specs.Change.{IsSpentFrom, RepliesFrom};

use entry::{OBJECT_LEN, SafeVersion, TOMBSTONE_LEN, Version};
use hash_index::Held;
use history::CommandRef;
use versioned_map::{If, Reply};

/// What a command does to the map, and so what it appends.
#[derive(Clone, Copy)]
pub enum Change {
    /// The command changes nothing, and appends nothing.
    Nothing,
    /// An absent key gets an object of this version.
    Create(Version),
    /// The key's object of the first version is replaced by an object of the second version.
    Replace(Version, Version),
    /// The key's object of this version is deleted.
    Delete(Version),
}

/// What the tests of a command found.
#[derive(Clone, Copy)]
pub struct Judged {
    /// The change that the command makes.
    pub change: Change,
    /// The hash of the command's key, and the place of the key's object. If the key has no object, the place is offset
    /// 0 of segment 0.
    pub held: Held,
    /// The version of the key's object, if there is one.
    pub present: Option<Version>,
    /// The bytes of the key's object; 0 if there is none.
    pub had: u64,
    /// The bytes of the live objects once the command is done.
    pub live: u64,
}

/// No version is left for a put.
#[derive(Clone, Copy)]
pub struct VersionsSpent;

/// The change that a put of an absent key makes under this condition.
fn create(when: &If, safe: SafeVersion) -> Result<Change, VersionsSpent>
    ensures done { IfOk result (λ change. Creates safe when.now change) }
    ensures spent { IfErr result (λ _. CreatesSpent safe when.now) }
{
    match when {
        If::Any | If::Absent => match safe.version() {
            None => Err(VersionsSpent),
            Some(version) => Ok(Change::Create(version)),
        },
        If::Version(_) => Ok(Change::Nothing),
    }
}

/// The change that a put makes under this condition if its key has an object of this version.
fn replace(when: &If, dead: Version) -> Result<Change, VersionsSpent>
    ensures done { IfOk result (λ change. Replaces dead when.now change) }
    ensures spent { IfErr result (λ _. ReplacesSpent dead when.now) }
{
    let is_met = match when {
        If::Any => true,
        If::Absent => false,
        If::Version(wanted) => dead.get() == *wanted,
    };
    if !is_met {
        return Ok(Change::Nothing);
    }
    match dead.next() {
        None => Err(VersionsSpent),
        Some(version) => Ok(Change::Replace(dead, version)),
    }
}

/// The change that a command makes if its key has an object of this version, or none. The error says that no version is
/// left for the put.
pub fn change_of(
    command: &CommandRef<'_>,
    safe: SafeVersion,
    present: Option<Version>,
) -> Result<Change, VersionsSpent>
    ensures done { IfOk result (λ change. IsChangeFrom safe present (shown_command command.now) change) }
    ensures spent { IfErr result (λ _. IsSpentFrom safe present (shown_command command.now)) }
{
    match present {
        None => match command {
            CommandRef::Get(_) | CommandRef::Delete(_) => Ok(Change::Nothing),
            CommandRef::Put(_, _, when) => create(when, safe),
        },
        Some(dead) => match command {
            CommandRef::Get(_) => Ok(Change::Nothing),
            CommandRef::Delete(_) => Ok(Change::Delete(dead)),
            CommandRef::Put(_, _, when) => replace(when, dead),
        },
    }
}

impl Change {
    /// Returns true if the command changes nothing.
    pub fn is_nothing(&self) -> bool
        ensures { result ≡ is_nothing self.now }
    {
        matches!(self, Change::Nothing)
    }

    /// Returns true if an absent key gets an object, so that the index needs one more place.
    pub fn creates(&self) -> bool
        ensures { result ≡ creates self.now }
    {
        matches!(self, Change::Create(_))
    }

    /// The safe version after the change, from the safe version before it.
    pub fn safe_after(&self, safe: SafeVersion) -> SafeVersion
        ensures { result ≡ safe_of_change safe self.now }
    {
        match self {
            Change::Nothing | Change::Replace(_, _) => safe,
            Change::Create(version) => version.safe_above(),
            Change::Delete(dead) => safe.max(dead.safe_above()),
        }
    }

    /// The bytes of the live objects afterwards, where the key's object had this many.
    pub fn live_after(&self, live: u64, had: u64, command: &CommandRef<'_>) -> u64
        ensures { result ≡ live_of_change live had (shown_command command.now) self.now }
    {
        match self {
            Change::Nothing => live,
            Change::Create(_) | Change::Replace(_, _) => with_object(
                live.saturating_sub(had),
                command,
            ),
            Change::Delete(_) => live.saturating_sub(had),
        }
    }

    /// The reply to a put or a delete that makes this change, if its key has an object of this version, or none. Such a
    /// reply has no value.
    pub fn reply(&self, command: &CommandRef<'_>, present: Option<Version>) -> Reply
        ensures { RepliesFrom present (shown_command command.now) self.now result }
    {
        match self {
            Change::Nothing => unchanged_reply(command, present),
            Change::Create(version) => Reply::Ok(*version),
            Change::Replace(_, version) => Reply::Ok(*version),
            Change::Delete(dead) => Reply::Ok(*dead),
        }
    }
}

/// The reply to a put or a delete that changes nothing, if its key has an object of this version, or none.
fn unchanged_reply(command: &CommandRef<'_>, present: Option<Version>) -> Reply
    ensures { RepliesFrom present (shown_command command.now) Change.Nothing result }
{
    match command {
        CommandRef::Get(_) => Reply::None,
        CommandRef::Delete(_) => Reply::None,
        CommandRef::Put(_, _, _) => Reply::Mismatch(present),
    }
}

/// So many bytes of live objects, with those of the object that a put makes.
fn with_object(live: u64, command: &CommandRef<'_>) -> u64
    ensures { result ≡ with_object_of live (shown_command command.now) }
{
    match command {
        CommandRef::Put(key, value, _) => {
            let bytes = OBJECT_LEN + key.bytes.len() + value.bytes.len();
            live.saturating_add(bytes as u64)
        }
        _ => live,
    }
}

/// Returns true for a put whose object has more than so many bytes.
pub fn is_longer(command: &CommandRef<'_>, largest: u64) -> bool
    ensures { result ≡ is_longer (shown_command command.now) largest }
{
    match command {
        CommandRef::Put(key, value, _) => {
            let bytes = OBJECT_LEN + key.bytes.len() + value.bytes.len();
            bytes as u64 > largest
        }
        _ => false,
    }
}

/// Returns true for a put whose tombstone and object together are longer than a quarter of a segment of this many
/// bytes.
pub fn is_too_big(command: &CommandRef<'_>, segment: u64) -> bool
    ensures { result ≡ is_too_big (shown_command command.now) segment }
{
    match command {
        CommandRef::Put(key, value, _) => {
            let bytes = OBJECT_LEN + TOMBSTONE_LEN + 2 * key.bytes.len() + value.bytes.len();
            bytes as u64 > segment / 4
        }
        _ => false,
    }
}

/// How many whole segments have to be free when a roll begins for a command: 3 for a put, and 2 for other commands.
pub fn segments_for(command: &CommandRef<'_>) -> u64
    ensures needed { result ≡ segments_for (shown_command command.now) }
    ensures few { result ≤ 3 }
{
    match command {
        CommandRef::Get(_) | CommandRef::Delete(_) => 2,
        CommandRef::Put(_, _, _) => 3,
    }
}
