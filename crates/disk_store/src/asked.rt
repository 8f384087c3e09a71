//! Options as a registry has them.

ghost use Rattle.std.specs.Prelude.{◌≡◌};
ghost use Rattle.disk_store.specs.Opened.{asked_of, numbers_of};

use file_store::Options;

/// How many numbers the registry of a store in several folders has. That of a store in one lacks the last one.
pub(crate) const NUMBERS: usize = 12;

/// The numbers of a new store in so many folders, in the order of `store_folders::OPTIONS`.
pub(crate) fn numbers_of(options: &Options, folders: u64) -> [u64; NUMBERS]
    ensures { result ≡ numbers_of options.now folders }
{
    [
        options.backups,
        options.replicas,
        options.step,
        options.segment,
        options.seglet,
        options.seglets,
        options.tables,
        options.history,
        options.format,
        options.largest,
        options.live,
        folders,
    ]
}

/// Those numbers of a new store that its registry keeps.
pub(crate) fn kept_of(numbers: &[u64; NUMBERS]) -> &[u64] {
    if numbers[NUMBERS - 1] == 1 {
        &numbers[..NUMBERS - 1]
    } else {
        numbers
    }
}

/// What each life of a store has in common. How much it takes may be another number in each.
pub(crate) fn asked_of(options: &Options) -> [Option<u64>; 9]
    ensures { result ≡ asked_of options.now }
{
    [
        Some(options.backups),
        Some(options.replicas),
        Some(options.step),
        Some(options.segment),
        Some(options.seglet),
        None,
        Some(options.tables),
        None,
        Some(options.format),
    ]
}
