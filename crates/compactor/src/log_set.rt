//! Which segments count as in the log.

ghost use Rattle.std.specs.Prelude.{◌≡◌};

use images::Images;

/// The segments that count as in the log: the closed ones, the head, and the head that is being opened.
#[derive(Clone, Copy)]
pub struct LogSet<'a> {
    pub closed: &'a Images,
    pub head: u64,
    /// The id of the head that is being opened.
    pub new: Option<u64>,
}

impl<'a> LogSet<'a> {
    ghost use Rattle.compactor.specs.Kept.{has_id};
    ghost use Rattle.compactor.specs.Log.{ids_of_log};

    /// Returns true if the log set has the segment with this id.
    pub fn has(&self, id: u64) -> bool
        ensures { result ≡ has_id (ids_of_log self.now) id }
    {
        if self.closed.get(id).is_some() {
            return true;
        }
        if self.head == id {
            return true;
        }
        match self.new {
            Some(new) => new == id,
            None => false,
        }
    }
}
