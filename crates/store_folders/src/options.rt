//! The options with which a store was made.

ghost use Rattle.std.specs.Prelude.{◌≡◌, IfErr, OnOk, length};
ghost use Rattle.fleet_start.specs.Options.{AreMet};
ghost use Rattle.registry_file.specs.File.{kept_by};
ghost use Rattle.store_folders.specs.Faults.{TellsFirst};

use crate::fault::StoreFault;
use disk_file::DiskFile;
use fleet_start::first_other;
use registry_file::RegistryFile;

/// The names of a store's options, in the order in which its registry has them. `dir` is how many folders it has; the
/// registry of a store in one folder lacks it.
pub const OPTIONS: [&str; 12] = [
    "backups", "replicas", "step", "segment", "seglet", "seglets", "tables", "history", "format",
    "largest", "live", "dir",
];

/// The name of an option.
pub(crate) fn option_name(option: usize) -> &'static str {
    if option < OPTIONS.len() {
        OPTIONS[option]
    } else {
        "of another version"
    }
}

/// Tests whether a store was made with these options. An option that is `None` isn't asked for. The fault names the
/// first option that is asked for and that the store lacks or has another one of.
pub fn test_options(
    registry: &RegistryFile<DiskFile>,
    asked: &[Option<u64>],
) -> Result<(), StoreFault>
    ensures met { OnOk result (AreMet (length asked.now) (kept_by registry.now).fleet.options asked.now) }
    ensures first { IfErr result (λ fault. TellsFirst fault (kept_by registry.now).fleet.options asked.now) }
{
    match first_other(&registry.registry().fleet().options, asked) {
        None => Ok(()),
        Some(option) => Err(StoreFault::OtherOption(option)),
    }
}
