//! The limits by which a will is made.

/// The most that a partition of a will may have. `tablet_will::make_will` names the exceptions.
#[derive(Clone, Copy)]
pub struct Limits {
    /// How many bytes the entries of its objects may have. With 0 no will is made.
    pub bytes: u64,
    /// How many objects it may have. With 0 no will is made.
    pub objects: u64,
}
