//! Replicas without their bytes.

ghost use Rattle.std.specs.Prelude.{◌≡◌, ◌++◌, map, OnOk};
ghost use Rattle.replica.specs.Picture.{label_of};

use crate::holding::Holding;
use entry::{NoMemory, Row};

/// A replica without its bytes: where it is, how many bytes it has, and whether it is open.
#[derive(Clone, Copy)]
pub struct Label {
    pub backup: u64,
    pub master: u64,
    pub segment: u64,
    /// How many bytes the replica has.
    pub len: usize,
    pub is_open: bool,
}

/// The labels of the replicas that some backups show.
pub type Labels = Row<Label>;

impl<'a> Holding<'a> {
    /// Returns the replica without its bytes.
    pub fn label(&self) -> Label
        ensures { result ≡ label_of self.now }
    {
        Label {
            backup: self.backup,
            master: self.master,
            segment: self.segment,
            len: self.bytes.as_slice().len(),
            is_open: self.is_open,
        }
    }
}

/// Appends the labels of the replicas to `labels`, in order. If memory runs out, some of them may have been appended.
pub fn add_labels(labels: &mut Vec<Label>, holdings: &[Holding<'_>]) -> Result<(), NoMemory>
    ensures { OnOk result (labels.new.items ≡ labels.old.items ++ map label_of holdings.now) }
{
    for holding in holdings {
        labels.push(holding.label())?;
    }
    Ok(())
}
