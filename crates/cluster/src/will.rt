//! Makes the will anew from a master's live objects.

ghost use Rattle.std.specs.Prelude.{◌≡◌, IfOk, IfErr, OnErr};
ghost use Rattle.answers.specs.driving.master.master_state.declared.config.Config.{Config};
ghost use Rattle.cluster.specs.Served.{AnswersLine, DividesAnew, HandsOver};
ghost use Rattle.cluster.specs.Looks.{HasLimits};
ghost use Rattle.cluster.specs.Wills.{IsNoWill, MakesWill};

use crate::node::Node;
use answers::driving::master::{Master, Refusal};
use answers::{Answer, Limits};
use entry::Row;
use replica::Fleet;
use std::alloc::Global;
use tablet_will::{Part, Will, WillFault, make_will};

/// Makes the will of a master's live objects in place of `will`, and answers its parts. If this fails, `will` stays.
fn renew<F: Fleet>(
    alloc: Global,
    master: &Master<F>,
    limits: &Limits,
    will: &mut Will,
) -> Result<Row<Part>, WillFault>
    ensures made { IfOk result (λ parts. MakesWill master.now.knows limits.now parts) }
    ensures handed { IfOk result (λ parts. will.new ≡ parts) }
    ensures kept { OnErr result (will.new ≡ will.old) }
    ensures refused { IfErr result (IsNoWill limits.now) }
{
    master.show_valid();
    let sizes = master.sizes()?;
    let made = make_will(
        alloc,
        master.tablets(),
        sizes.as_slice(),
        limits.bytes,
        limits.objects,
    )?;
    let parts = Vec::from_slice(alloc, made.parts())?;
    *will = made;
    Ok(Row::new(parts))
}

impl Node {
    ghost use Rattle.lines.specs.Grammar.{Will as WillLine};

    /// Makes the will of the live objects, and hands it over in place of `will`. If the line is refused, `will` stays.
    pub fn will(&self, alloc: Global, limits: Limits, will: &mut Will) -> Answer
        ensures told { (config : Config) → AnswersLine self.now config WillLine self.now result }
        ensures handed { HandsOver will.old result will.new }
        ensures divides { DividesAnew self.now will.old will.new }
        ensures limits { HasLimits limits result }
    {
        let Node::Up(up) = self else {
            return Answer::Down;
        };
        up.show_valid();
        match renew(alloc, up, &limits, will) {
            Ok(parts) => Answer::Will(parts, limits),
            Err(WillFault::NoMemory) => Answer::Refused(Refusal::NoMemory),
            Err(WillFault::BadLimits) => Answer::BadLimits(limits),
            Err(WillFault::BadTablets) => unreachable!(),
            Err(WillFault::StraySize) => unreachable!(),
        }
    }
}
