//! A replica in memory.

ghost use Rattle.std.specs.Prelude.{◌≡◌, None, Some, Err, is_some};
ghost use Rattle.replica.specs.Op.{shown_act, Extend, Close};
ghost use Rattle.replica.specs.Take.{effect};
ghost use Rattle.backup.specs.Acts.{Acts};
ghost use Rattle.backup.specs.Shelf.{holding_of};

use replica::{Act, Bytes, Holding, TakeFault};
use std::marker::Model;

/// Memory of long replicas comes in pages of this many bytes.
const PAGE: usize = 4096;

/// That of short ones comes in lines of this many.
const LINE: usize = 64;

/// How much memory a replica of this length gets. Those of about one length get as much, so that each serves where
/// another was.
pub(crate) fn block_len(len: usize) -> usize {
    let unit = if len < 16 * PAGE { LINE } else { PAGE };
    len.saturating_add(unit - 1) / unit * unit
}

/// A replica that a backup holds.
#[derive(Drop)]
pub struct Stored {
    bytes: Vec<u8>,
    is_open: bool,
}

impl Model for Stored {
    ghost use Rattle.replica.specs.Picture.{Replica};

    ghost Value = { Replica };

    ghost view = { λ s. record { bytes = s.bytes.items; is_open = s.is_open } };
}

/// Whether an act fits where no replica is.
pub(crate) fn is_making(act: &Act<'_>) -> bool
    ensures { result ≡ is_some (effect (shown_act act.now) None) }
{
    match act {
        Act::Open(_) => true,
        Act::Extend { .. } => false,
        Act::Close => false,
        Act::Seal(_) => true,
        Act::Free => false,
    }
}

impl Stored {
    /// A replica with these bytes, open or closed. It takes no memory.
    pub fn new(bytes: Vec<u8>, is_open: bool) -> Stored
        ensures { result ≡ record { bytes = bytes.items; is_open = is_open } }
    {
        Stored { bytes, is_open }
    }

    /// How many bytes it has.
    pub fn len(&self) -> usize {
        self.bytes.len()
    }

    /// Its bytes, in their memory.
    pub fn into_bytes(self) -> Vec<u8> {
        self.bytes
    }

    /// The replica as its backup shows it. Its bytes stay here.
    pub fn show(&self, backup: u64, master: u64, segment: u64) -> Holding<'_>
        ensures { result ≡ holding_of backup ((master, segment), self.entry.now) }
    {
        Holding {
            backup,
            master,
            segment,
            bytes: Bytes::new(&self.bytes),
            is_open: self.is_open,
        }
    }

    /// Whether an act on it fits.
    pub fn allows(&self, act: &Act<'_>) -> bool
        ensures { result ≡ is_some (effect (shown_act act.now) (Some self.now)) }
    {
        match act {
            Act::Open(_) | Act::Seal(_) => false,
            Act::Extend { at, .. } => self.is_open && *at == self.bytes.len(),
            Act::Close => self.is_open,
            Act::Free => true,
        }
    }

    /// Whether it has memory for so many bytes more.
    #[inline(always)]
    pub(crate) fn has_room(&self, more: usize) -> bool {
        more <= self.bytes.capacity() - self.bytes.len()
    }

    /// Moves its bytes into other memory, if it takes no more than that.
    pub(crate) fn move_into(&mut self, memory: Vec<u8>)
        ensures { self.new ≡ self.old }
    {
        let mut bytes = memory;
        bytes.clear();
        if bytes.extend_from_slice(self.bytes.as_slice()).is_ok() {
            self.bytes = bytes;
        }
    }

    /// Appends bytes to an open replica of the length `at`.
    #[inline(always)]
    pub fn extend(&mut self, at: usize, bytes: &[u8]) -> Result<(), TakeFault>
        ensures { Acts (Extend at bytes.now) (Some self.old) result (Some self.new) }
    {
        if !self.is_open || self.bytes.len() != at {
            return Err(TakeFault::Wrong);
        }
        match self.bytes.extend_from_slice(bytes) {
            Ok(()) => Ok(()),
            Err(_) => Err(TakeFault::NoMemory),
        }
    }

    /// Closes an open replica. It takes no memory.
    pub fn close(&mut self) -> Result<(), TakeFault>
        ensures acts { Acts Close (Some self.old) result (Some self.new) }
        ensures memory { ¬ (result ≡ Err TakeFault.NoMemory) }
    {
        if !self.is_open {
            return Err(TakeFault::Wrong);
        }
        self.is_open = false;
        Ok(())
    }
}
