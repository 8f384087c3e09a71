//! A node whose master forgets what is durable.

ghost use Rattle.cluster.specs.Forgetting.{ForgetsDurable};
ghost use Rattle.cluster.specs.Tended.{StaysOn};

use crate::node::Node;

/// A master forgets by blocks of so many records, and only if there is a record behind the block.
const BLOCK: usize = 1_024;

impl Node {
    /// Lets the master forget its durable records, by blocks: their memory is freed. No reply of them can be read then.
    #[inline(always)]
    pub fn forget(&mut self)
        ensures stays { StaysOn self.old self.new }
        ensures forgets { ForgetsDurable self.old self.new }
    {
        let Node::Up(up) = self else {
            return;
        };
        let history = up.history();
        if history.kept() <= BLOCK {
            return;
        }
        let count = history.len() as u64;
        up.forget(count);
    }
}
