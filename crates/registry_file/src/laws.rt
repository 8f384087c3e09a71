//! A law about registries, for the proofs of callers.

ghost use Rattle.registry_file.specs.File.{CrashesAreOpened};

/// Whatever a crash in a put leaves is opened by the next start, unless memory runs out or the device fails. The
/// registry then keeps what was kept before the record, or after it.
pub fn crashes_are_opened()
    ensures { CrashesAreOpened }
{}
