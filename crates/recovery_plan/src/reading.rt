//! Reads replicas.

ghost use Rattle.std.specs.Prelude.{◌≡◌, map, IfSome, IfNone, IfOk};
ghost use Rattle.std.specs.List.{AllByRecursion};
ghost use Rattle.entry.specs.Text.{entries_in};
ghost use Rattle.replica.specs.declared.holding.Holding.{Holding};
ghost use Rattle.recovery_plan.specs.Good.{IsGood};
ghost use Rattle.recovery_plan.specs.Looked.{lent};

use crate::chosen::Segments;
use replica::Holding;
use segment::SegmentRef;
use std::alloc::{AllocError, Global};

/// The segment of a replica, or None if the replica is bad.
pub(crate) fn segment_in<'a>(holding: &Holding<'a>) -> Option<SegmentRef<'a>>
    ensures good { IfSome result (λ segment. IsGood holding.entry.now) }
    ensures entries { IfSome result (λ segment. segment ≡ entries_in holding.entry.now.bytes) }
    ensures bad { IfNone result (IsGood holding.entry.now → ⊥) }
{
    match SegmentRef::read(holding.bytes.as_slice()) {
        Ok(segment) => {
            let header = segment.header();
            if header.master == holding.master && header.segment == holding.segment {
                Some(segment)
            } else {
                None
            }
        }
        Err(_) => None,
    }
}

/// The segments of good replicas. They are neither read again nor copied.
pub(crate) fn segments_of<'a>(
    alloc: Global,
    chosen: Vec<&Holding<'a>>,
) -> Result<Segments<'a>, AllocError>
    requires { AllByRecursion IsGood (lent chosen.items) }
    ensures { IfOk result (λ segments.
        segments ≡ map (λ (h : Holding). entries_in h.bytes) (lent chosen.entry.items)) }
{
    let mut segments = Vec::new(alloc);
    for holding in chosen {
        segments.push(SegmentRef::of_text(holding.bytes.as_slice()))?;
    }
    Ok(Segments::new(segments))
}
