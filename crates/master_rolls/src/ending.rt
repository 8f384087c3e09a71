//! How a pass ends at the end of the roll that commits it.

ghost use Rattle.std.specs.Prelude.{◌≡◌, ◌+◌, ◌≤◌, ◌++◌, ◌&&◌, IfSome, true, length, nat_lt, vec_capacity};
ghost use Rattle.images.specs.Sorted.{AreRising};
ghost use Rattle.log_head.specs.log_laws.Ids.{has};
ghost use Rattle.master_rolls.specs.Ends.{pass_left, closed_left, waiting_left, IsCountedOut};
ghost use Rattle.cleaner.specs.Passes.{survivor_ids, AreIds};
ghost use Rattle.master_state.specs.Images.{staying, leaving, waiting_for, after_pass, all_trimmed};

use cleaner::{Pass, Survivors};
use images::{Image, Images};
use master_state::Waiting;
use tally::Tallies;

/// Ends the open pass at the end of a roll, if the roll was its commit. The images of the victims are dropped, and the
/// victims' replicas wait to be freed. From then on each survivor's image counts its length instead of a whole segment.
/// After another roll the pass stays open. The call allocates no memory.
pub fn end_pass(pass: &mut Option<Pass>, closed: &mut Images, waiting: &mut Vec<Waiting>)
    requires numbers { IfSome pass.old (λ p. AreIds p.survivors) }
    requires room { IfSome pass.old (λ p. p.is_committing ≡ true
        → length waiting.old.items + length p.victims ≤ vec_capacity waiting.old) }
    ensures pass { pass.new ≡ pass_left pass.old }
    ensures closed { closed.new ≡ record closed.old { images = closed_left pass.old closed.old.images } }
    ensures waiting { waiting.new.items ≡ waiting_left pass.old closed.old.images waiting.old.items }
{
    let Some(open) = pass else {
        return;
    };
    if !open.is_committing {
        return;
    }
    commit(open, closed, waiting);
    *pass = None;
}

/// Counts the end of a roll: the new head has neither objects nor tombstones yet, and a commit takes the victims of the
/// open pass out. The call allocates no memory.
pub fn count_end(tallies: &mut Tallies, pass: &Option<Pass>, head: u64)
    ensures { IsCountedOut pass.now head tallies.old tallies.new }
{
    if let Some(pass) = pass {
        if pass.is_committing {
            tallies.commit(pass.victims.as_slice());
        }
    }
    tallies.begin(head);
}

/// Drops the victims of a committed pass, lets their replicas wait, and trims the survivors' images.
fn commit(pass: &Pass, closed: &mut Images, waiting: &mut Vec<Waiting>)
    requires numbers { AreIds pass.now.survivors }
    requires room { length waiting.old.items + length pass.now.victims ≤ vec_capacity waiting.old }
    ensures closed { closed.new ≡ record closed.old { images = after_pass pass.now closed.old.images } }
    ensures waiting { waiting.new.items ≡ waiting.old.items ++ leaving pass.now.victims closed.old.images }
{
    let victims = pass.victims.as_slice();
    add_leaving(victims, closed.as_slice(), waiting);
    drop_victims(victims, closed);
    trim(pass.survivors, closed);
}

/// Adds to `waiting` each victim that some backup holds.
fn add_leaving(victims: &[u64], images: &[Image], waiting: &mut Vec<Waiting>)
    requires rising { AreRising images.now }
    requires room { length waiting.old.items + length victims.now ≤ vec_capacity waiting.old }
    ensures { waiting.new.items ≡ waiting.old.items ++ leaving victims.now images.now }
{
    for image in images {
        if leaves(victims, image) {
            waiting.push_reserved(waiting_for(image));
        }
    }
}

/// Returns true if the image is that of a victim, and some backup holds a replica of this victim.
fn leaves(victims: &[u64], image: &Image) -> bool
    ensures { result ≡ (has victims.now image.now.id && nat_lt 0 image.now.replicas) }
{
    is_victim(victims, image.id()) && image.replicas() > 0
}

/// Returns the segment of the image as a segment that waits, with no replica freed yet.
fn waiting_for(image: &Image) -> Waiting
    ensures { result ≡ waiting_for image.now }
{
    Waiting {
        segment: image.id(),
        freed: 0,
        replicas: image.replicas() as u32,
    }
}

/// Returns true if the id is among the victims.
fn is_victim(victims: &[u64], id: u64) -> bool
    ensures { result ≡ has victims.now id }
{
    victims.contains(&id)
}

/// Drops the images of the victims.
fn drop_victims(victims: &[u64], closed: &mut Images)
    ensures { closed.new ≡ record closed.old { images = staying victims.now closed.old.images } }
{
    for id in victims {
        closed.drop_segment(*id);
    }
}

/// Makes the image of each survivor count its length, and gives back the rest of its memory.
fn trim(survivors: Survivors, closed: &mut Images)
    requires { AreIds survivors }
    ensures { closed.new ≡ record closed.old { images = all_trimmed (survivor_ids survivors) closed.old.images } }
{
    for at in 0..survivors.count {
        closed.trim(survivors.id(at));
    }
}
