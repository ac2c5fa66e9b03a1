//! Numbers that name no node.
ghost use Rattle.std.specs.Prelude.{◌≡◌, OnOk, OnErr};
ghost use Rattle.tree_nodes.specs.Changes.{AreGone, GivesBack};
ghost use Rattle.tree_nodes.specs.Skipping.{skipping};
ghost use Rattle.tree_nodes.specs.Staying.{AreAllSame, StayMade};

use crate::nodes::Nodes;
use au_term::NoMemory;

impl Nodes {
    /// Draws so many numbers that name no node: eight bytes each.
    pub fn skip(&mut self, count: u64) -> Result<(), NoMemory>
        ensures ok { OnOk result (self.new ≡ skipping count self.old) }
        ensures err { OnErr result (self.new ≡ self.old) }
        ensures made { StayMade self.old.rows self.new.rows }
    {
        self.table.skip(count as usize)
    }

    /// Gives back the numbers from this one on, none of which names a node. So what was added and dropped again leaves no
    /// trace.
    pub fn give_back(&mut self, next: u64)
        requires { AreGone self.old.rows next }
        ensures given { GivesBack self.old self.new next }
        ensures made { AreAllSame self.old.rows self.new.rows }
    {
        self.table.truncate(next);
    }
}
