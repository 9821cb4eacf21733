//! The tree: every terminal but the root hangs from one numbered below it, by a link up and a link down.
ghost use Rattle.std.specs.Prelude.{◌≡◌, ◌<◌, [], ◌∷◌, Decides, MatchResult};
ghost use Rattle.fabric.specs.Faults.{numbered};
ghost use Rattle.fabric.specs.Trees.{Leaves, Lineage, TreeCrosses, TreeLawful, TreeRoutes, tree_meaning, tree_size};
ghost use Rattle.fabric.specs.TreeLaws.{tree_keeps};

use crate::Fabric;
use crate::faults::FabricFault;
use crate::pairs::Pair;
use arrayvec::ArrayVec;

/// A tree of 2 to 128 terminals. Terminal 0 is the root.
#[derive(Drop)]
pub struct Tree {
    // of terminals 1, 2 and so on
    parents: ArrayVec<u8, 127>,
    ghost lawful: { TreeLawful parents.items },
}

impl Tree {
    /// The tree of two terminals.
    pub fn new() -> Tree
        ensures { result.parents.items ≡ 0 ∷ [] }
    {
        let mut parents = ArrayVec::new();
        parents.push(0);
        Tree { parents }
    }

    /// Makes this the tree that is described by the parents of terminals 1, 2 and so on: 1 to 127 of them, each
    /// numbered below its child. Any other description is refused, and the tree stays as it was.
    pub fn fill(&mut self, parents: &[u16]) -> Result<(), FabricFault>
        ensures { MatchResult result
            (λ _. TreeLawful parents.now × (self.new.parents.items ≡ parents.now))
            (λ fault. (TreeLawful parents.now → ⊥) × (numbered fault ≡ (2, [])) × (self.new ≡ self.old)) }
    {
        if parents.is_empty() || parents.len() > 127 {
            return Err(FabricFault::OutsideLimits);
        }
        let mut copied = ArrayVec::new();
        for (at, parent) in parents.iter().enumerate() {
            let child = at + 1;
            if usize::from(*parent) >= child {
                return Err(FabricFault::OutsideLimits);
            }
            // proved to lose nothing; `try_from` would add a refusal that cannot happen
            copied.push(*parent as u8);
        }
        self.parents = copied;
        Ok(())
    }

    // Whether the terminal is in the lineage of the other. A parent is numbered below its child, so the way up
    // either meets the terminal or passes below it.
    fn in_lineage(&self, of: u16, terminal: u16) -> bool
        requires { of < tree_size self.now.parents.items }
        ensures { Decides result (Lineage self.now.parents.items of terminal) }
    {
        let mut at = of;
        while at > terminal {
            at = u16::from(self.parents[usize::from(at) - 1]);
        }
        at == terminal
    }

    // Whether the way from one terminal to another leaves this one for its parent.
    fn leaves(&self, from: u16, to: u16, terminal: u16) -> bool
        requires { (from < tree_size self.now.parents.items) × (to < tree_size self.now.parents.items) }
        ensures { Decides result (Leaves self.now.parents.items from to terminal) }
    {
        self.in_lineage(from, terminal) && !self.in_lineage(to, terminal)
    }
}

/// The tree of such a description, as `fill` makes it, or its refusal.
impl TryFrom<&[u16]> for Tree {
    type Error = FabricFault;

    ghost try_from_gives = { λ parents result. MatchResult result
        (λ tree. TreeLawful parents.now × (tree.parents.items ≡ parents.now))
        (λ fault. (TreeLawful parents.now → ⊥) × (numbered fault ≡ (2, []))) };

    fn try_from(parents: &[u16]) -> Result<Tree, FabricFault> {
        let mut tree = Tree::new();
        tree.fill(parents)?;
        Ok(tree)
    }
}

impl Fabric for Tree {
    ghost meaning = { λ tree. tree_meaning tree.parents.items };

    ghost keeps = { λ tree. tree_keeps _ tree.lawful };

    fn terminals(&self) -> u16 {
        // proved to lose nothing, as above
        self.parents.len() as u16 + 1
    }

    fn links(&self) -> u16 {
        2 * self.terminals() - 2
    }

    fn routed(&self, pair: Pair) -> bool
        ensures meant { result ≡ (tree_meaning self.now.parents.items).routed pair }
        ensures decides { Decides result (TreeRoutes self.now.parents.items pair) }
    {
        pair.two_of(self.terminals())
    }

    fn crosses(&self, pair: Pair, link: u16) -> bool
        ensures meant { result ≡ (tree_meaning self.now.parents.items).crossed pair link }
        ensures decides { Decides result (TreeCrosses self.now.parents.items pair link) }
    {
        if !self.routed(pair) {
            return false;
        }
        // the two links of a terminal stand side by side, the one up first
        let terminal = link / 2 + 1;
        if link % 2 == 0 {
            self.leaves(pair.source, pair.destination, terminal)
        } else {
            self.leaves(pair.destination, pair.source, terminal)
        }
    }
}
