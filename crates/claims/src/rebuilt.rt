//! The objects of a log, and a safe version for what follows it.

ghost use Rattle.claims.specs.Listed.{AreOrdered, AreBelow};
ghost use Rattle.claims.specs.Props.{AreOrdered-prop};

use crate::objects::Objects;
use entry::SafeVersion;

/// What a log is rebuilt to: the objects that are not dead, and a safe version for the log that follows.
#[derive(Drop)]
pub struct Rebuilt {
    /// The objects, sorted by table and then by the bytes of the key. Each key is there once.
    pub objects: Objects,
    /// A version above that of each object and tombstone of the log.
    pub safe: SafeVersion,
    ghost ordered: { AreOrdered objects } by { AreOrdered-prop objects },
    ghost below: { AreBelow safe objects },
}
