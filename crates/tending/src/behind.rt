//! The steps of a cleaner behind a command.

ghost use Rattle.std.specs.Prelude.{◌≡◌, [], IfErr};
ghost use Rattle.driving.specs.master.World.{world};
ghost use Rattle.driving.specs.master.Keeps.{Keeps};
ghost use Rattle.driving.specs.Served.{IsSpent, LivesOn};
ghost use Rattle.tending.specs.Tends.{TendsBehind};

use crate::notes::Notes;
use crate::policy::Policy;
use crate::steps::make_step;
use driving::master::{Master, Refusal};
use replica::Fleet;

/// Makes up to so many steps of the cleaner behind a command, as `tend` does, but none behind one that compacts a
/// segment unless memory is tight then: fewer whole segments are free than the policy spares, less one. A compaction
/// takes as long as many other steps, and whoever waits for the next command would wait for each. It makes room for
/// many commands, so the cleaner mostly keeps up.
pub fn tend_behind<F: Fleet>(
    master: &mut Master<F>,
    policy: &Policy,
    notes: &mut Notes,
    most: u64,
) -> Result<u64, Refusal>
    ensures tends { TendsBehind policy.now most (world F.state master.old) result (world F.state master.new) }
    ensures goes_on { LivesOn master.old.knows master.new.knows [] }
    ensures keeps { Keeps most (world F.state master.old) (world F.state master.new) }
    ensures spent { IfErr result (λ r. r ≡ Refusal.Spent → IsSpent (F.state master.new.fleet)) }
{
    for made in 0..most {
        match make_step(master, policy, notes) {
            Ok(Some(stops)) => {
                if stops {
                    return Ok(made + 1);
                }
            }
            Ok(None) => return Ok(made),
            Err(refusal) => return Err(refusal),
        }
    }
    Ok(most)
}
