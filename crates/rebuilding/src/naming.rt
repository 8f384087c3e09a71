//! Tests whether an order names each number below a count once.

ghost use Rattle.std.specs.Prelude.{◌≡◌, length, IfOk, IfErr, OnOk};
ghost use Rattle.rebuilding.specs.Rebuilds.{NamesEach};
ghost use Rattle.rebuilding.specs.Turns.{AreMarked, IsMisnamed};

use std::alloc::Global;

/// Why an order does not name each number below a count exactly once.
#[derive(Clone, Copy, PartialEq, Eq)]
pub enum Misnamed {
    /// Memory ran out. Each number of the order is below the count.
    NoMemory,
    /// A number of the order is not below the count.
    Stranger,
    /// The order names this number twice.
    Twice(usize),
    /// The lowest number that the order leaves out.
    LeftOut(usize),
}

/// The fault of an order that shows without memory: Stranger if the order has one, else NoMemory.
fn unmarked(count: usize, order: &[usize]) -> Misnamed
    ensures { IsMisnamed count order.now result }
{
    for n in order {
        if *n >= count {
            return Misnamed::Stranger;
        }
    }
    Misnamed::NoMemory
}

/// Marks each number below the count that the order names. With Ok no number is named twice.
fn marks(alloc: Global, count: usize, order: &[usize]) -> Result<Vec<bool>, Misnamed>
    ensures long { IfOk result (λ named. length named.items ≡ count) }
    ensures ok { IfOk result (λ named. AreMarked order.now (length order.now) named.items) }
    ensures fault { IfErr result (IsMisnamed count order.now) }
{
    let Ok(mut named) = vec![in alloc; false; count] else {
        return Err(unmarked(count, order));
    };
    for n in order {
        if *n >= count {
            return Err(Misnamed::Stranger);
        }
        if named[*n] {
            return Err(Misnamed::Twice(*n));
        }
        named[*n] = true;
    }
    Ok(named)
}

/// Tests whether the order names each number below the count exactly once. Twice has the first number that comes
/// again.
pub fn check_naming(alloc: Global, count: usize, order: &[usize]) -> Result<(), Misnamed>
    ensures ok { OnOk result (NamesEach count order.now) }
    ensures fault { IfErr result (IsMisnamed count order.now) }
{
    let named = marks(alloc, count, order)?;
    for n in 0..count {
        if !named[n] {
            return Err(Misnamed::LeftOut(n));
        }
    }
    Ok(())
}
