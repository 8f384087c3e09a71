//! Lists the live objects of a table of a master.

ghost use Rattle.answers.specs.driving.master.master_state.declared.config.Config.{Config};
ghost use Rattle.cluster.specs.Served.{AnswersLine};
ghost use Rattle.cluster.specs.Shows.{ShowsObjects};

use crate::node::Node;
use answers::Answer;
use answers::driving::master::Refusal;
use answers::replay::Objects;
use entry::NoMemory;
use std::alloc::Global;

impl Node {
    ghost use Rattle.lines.specs.Grammar.{Listing};

    /// Answers the live objects of a table, in the order of their keys' bytes. It is refused as NoMemory if memory for
    /// them runs out.
    pub fn list(&self, alloc: Global, table: u64) -> Answer
        ensures told { (config : Config) → AnswersLine self.now config (Listing table) self.now result }
        ensures shown { ShowsObjects self.now table result }
    {
        let Node::Up(up) = self else {
            return Answer::Down;
        };
        up.show_valid();
        match up.objects(table) {
            Ok(objects) => Answer::Listed(Objects::new(alloc, objects)),
            Err(NoMemory) => Answer::Refused(Refusal::NoMemory),
        }
    }
}
