//! Memory that dropped images have left.

use std::alloc::Global;

/// For how many segments memory is kept at most.
const MOST: usize = 8;

/// Memory for whole segments, which dropped images have left and later images use. No contract speaks of it.
#[derive(Drop)]
pub(crate) struct Spares {
    left: Vec<Vec<u8>>,
}

impl Spares {
    /// Keeps no memory yet. The call takes none.
    pub(crate) fn new(alloc: Global) -> Spares {
        Spares {
            left: Vec::new(alloc),
        }
    }

    /// Keeps the memory of a dropped image if three things are true: it is enough for a segment of `whole` bytes,
    /// memory for fewer than `MOST` segments is kept so far, and with this one the kept segments have at most `free`
    /// bytes. Else the memory is given back.
    pub(crate) fn leave(&mut self, memory: Vec<u8>, whole: usize, free: usize) {
        let count = self.left.len();
        if memory.capacity() >= whole && count < MOST && free / (count + 1) >= whole {
            let _ = self.left.push(memory);
        }
    }

    /// Returns memory for a whole segment, if some is kept.
    pub(crate) fn take(&mut self) -> Option<Vec<u8>> {
        self.left.pop()
    }
}
