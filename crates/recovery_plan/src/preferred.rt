//! Which replica of a segment is taken.

ghost use Rattle.std.specs.Prelude.{◌≡◌, ◌==◌, ◌&&◌, ◌||◌, nat_lt, length, IfOk};
ghost use Rattle.std.specs.Option.{option_copied};
ghost use Rattle.std.specs.Ordering.{nat_cmp};
ghost use Rattle.std.specs.BTreeMap.{get};
ghost use Rattle.recovery_plan.specs.Looked.{ArePreferred};
ghost use Rattle.recovery_plan.specs.Preferred.{is_longer, is_preferred, better};

use replica::Holding;
use std::alloc::{AllocError, Global};
use std::collections::BTreeMap;

// Whether the first replica is longer, or as long and on a lower backup.
fn longer(a: &Holding<'_>, b: &Holding<'_>) -> bool
    ensures { result ≡ is_longer a.now b.now }
{
    let a_len = a.bytes.as_slice().len();
    let b_len = b.bytes.as_slice().len();
    b_len < a_len || (a_len == b_len && a.backup < b.backup)
}

/// Whether the first replica is preferred to the second.
pub(crate) fn prefers(a: &Holding<'_>, b: &Holding<'_>) -> bool
    ensures { result ≡ is_preferred a.now b.now }
{
    if a.is_open {
        b.is_open && longer(a, b)
    } else {
        b.is_open || a.backup < b.backup
    }
}

// The later replica if it is preferred to the best one before it, and else that one.
fn better_of<'h, 'a>(best: Option<&'h Holding<'a>>, later: &'h Holding<'a>) -> &'h Holding<'a>
    ensures { result.now ≡ better (option_copied best.entry) later.entry.now }
{
    match best {
        Some(best) if !prefers(later, best) => best,
        _ => later,
    }
}

/// The preferred replica of each segment of a master.
pub(crate) fn best_replicas<'h, 'a>(
    alloc: Global,
    holdings: &'h [Holding<'a>],
    master: u64,
) -> Result<BTreeMap<u64, &'h Holding<'a>>, AllocError>
    ensures { IfOk result (λ best. ArePreferred master holdings.entry.now (get nat_cmp best)) }
{
    let mut best: BTreeMap<u64, &'h Holding<'a>> = BTreeMap::new(alloc);
    for holding in holdings {
        if holding.master == master {
            let known = best.get(&holding.segment).copied();
            best.insert(holding.segment, better_of(known, holding))?;
        }
    }
    Ok(best)
}
