// The links of a block plate: how they are read, and how two blocks are linked. The two are no struct: it would be made for one call.
ghost use Rattle.std.specs.Prelude.{◌≡◌, ◌<◌, ◌≤◌, true, [], length, MatchOption, slice_index_or};
ghost use Rattle.plates.specs.Blocks.{has_room, link_answer, with_neighbour, linked};
ghost use Rattle.plates.specs.Links.{links_of};

use crate::blocks::BlockPlate;
use crate::faults::LinkFault;
use arrayvec::ArrayVec;

impl BlockPlate {
    // The neighbours of a block, if it exists.
    pub(crate) fn row(&self, block: usize) -> Option<&ArrayVec<usize, 7>>
        ensures { MatchOption result (length (links_of self.now) ≤ block) (λ row. (block < length (links_of self.now)) × (row.now.items ≡ slice_index_or (links_of self.now) block [])) }
    {
        self.rows.get(block)
    }

    // Enters b as the last neighbour of a.
    fn enter(&mut self, a: usize, b: usize)
        requires start { a < length (links_of self.old) }
        requires end { b < length (links_of self.old) }
        requires room { has_room (links_of self.old) a ≡ true }
        ensures { links_of self.new ≡ with_neighbour (links_of self.old) a b }
    {
        self.rows[a].push(b);
    }

    // Whether two blocks may be linked, and if not, why.
    #[tactic(auto, using(std::proofs::lemmas::Bool::Decides::nat_tests))]
    fn may_link(&self, a: usize, b: usize) -> Result<(), LinkFault>
        ensures { result ≡ link_answer (links_of self.now) a b }
    {
        let (Some(first), Some(second)) = (self.row(a), self.row(b)) else {
            return Err(LinkFault::NoBlock);
        };
        if a == b || first.contains(&b) || second.contains(&a) {
            return Err(LinkFault::Linked);
        }
        if first.is_full() || second.is_full() {
            return Err(LinkFault::Full);
        }
        Ok(())
    }

    // Makes each of two blocks the last neighbour of the other; refuses, in this order and altering nothing, a block that does not
    // exist, two blocks that are one or linked already, and a block that has seven neighbours.
    pub fn link(&mut self, a: usize, b: usize) -> Result<(), LinkFault>
        ensures answer { result ≡ link_answer (links_of self.old) a b }
        ensures after { links_of self.new ≡ linked (links_of self.old) a b }
    {
        self.may_link(a, b)?;
        self.enter(a, b);
        self.enter(b, a);
        Ok(())
    }
}
