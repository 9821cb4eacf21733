//! Sets of links, one bit each: the route of a flow, asked of its fabric once and kept.
ghost use Rattle.std.specs.Prelude.{◌≡◌, ℕ, ◌<◌, true, false, if◌then◌else◌, Decides, nat_eq};
ghost use Rattle.planner.specs.LinkSets.{crossing, share};

use crate::flow_sets::meet;
use fabric::Fabric;
use fabric::pairs::Pair;

/// A set of links, numbered 0 to 255.
// Not one type with FlowSet, over a number of words: its members would be told by word and place, as the links are here,
// and `members` in specs/ would be no longer the plain bit of one number.
#[derive(Clone, Copy, PartialEq, Eq, Debug)]
pub struct LinkSet {
    words: [u64; 4],
}

impl LinkSet {
    /// No link.
    pub fn empty() -> LinkSet
        ensures { (k : ℕ) → crossing result k ≡ false }
    {
        LinkSet { words: [0; 4] }
    }

    fn insert(&mut self, link: u16)
        requires { link < 256 }
        ensures { (k : ℕ) → crossing self.new k ≡ (if nat_eq k link then true else crossing self.old k) }
    {
        let at = usize::from(link / 64);
        self.words[at] |= 1u64 << (link % 64);
    }

    /// The links that the route of a pair crosses; none without a route.
    pub fn of_route<F: Fabric>(fabric: &F, pair: Pair) -> LinkSet
        ensures { (k : ℕ) → crossing result k ≡ (F.Fabric.meaning fabric.now).crossed pair k }
    {
        let mut links = LinkSet::empty();
        // links are numbers, and nothing is kept of them that a loop could go over
        for link in 0..fabric.links() {
            if fabric.crosses(pair, link) {
                links.insert(link);
            }
        }
        links
    }

    /// Whether some link is in both sets.
    pub fn meets(&self, other: &LinkSet) -> bool
        ensures found { Decides result ((k : ℕ) × (crossing self.now k ≡ true) × (crossing other.now k ≡ true)) }
        ensures shared { result ≡ share (crossing self.now) (crossing other.now) }
    {
        self.words
            .iter()
            .zip(&other.words)
            .any(|(mine, theirs)| meet(*mine, *theirs))
    }
}
