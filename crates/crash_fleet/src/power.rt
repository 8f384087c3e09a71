//! Whether the power of a fleet is on.

ghost use Rattle.std.specs.Prelude.{◌≡◌, ◌↔◌, IsTrue};

use registry_file::RegistryFile;
use take_journal::Device;

/// Whether the power is on.
#[derive(Drop)]
pub(crate) enum Power<D: Device> {
    /// Each call is made.
    On,
    /// It was cut amid a call. The image of the registry's file keeps what this registry keeps, and so many ops and
    /// raises are in the images.
    Cut(RegistryFile<D>, u64),
    /// It was cut amid a call, and the images weren't read: memory ran out, or a file wasn't opened.
    Unread,
}

impl<D: Device> Power<D> {
    /// Whether each call is made.
    pub(crate) fn is_on(&self) -> bool
        ensures { IsTrue result ↔ self.now ≡ Power.On }
    {
        match self {
            Power::On => true,
            _ => false,
        }
    }
}
