//! Fabrics: the networks that join a chip's units. A fabric has terminals, links, and for each ordered pair
//! of terminals either no route or a set of links. It knows nothing of flows, slots or plans.
#![tactic(auto)]

ghost use Rattle.std.specs.Prelude.{◌≡◌};
ghost use Rattle.fabric.specs.Meaning.{Meaning, KeepsRoutes};

pub mod faults;
pub mod lines;
pub mod modules;
pub mod overlaps;
pub mod pairs;
pub mod route_checks;
pub mod route_lists;
mod route_scans;
pub mod spurs;
pub mod trees;

use crate::pairs::Pair;

/// A fabric's two numbers.
#[derive(Clone, Copy, PartialEq, Eq, Debug)]
pub struct Size {
    pub terminals: u16,
    pub links: u16,
}

/// What joins the units of a chip, known by four answers. They are those of the fabric's meaning, so they
/// never change while it exists, and code over any fabric is proved from the meaning alone.
/// Terminals and links are counted from 0; a number that is not one of the fabric's is answered no.
pub trait Fabric {
    ghost meaning: { Self → Meaning };

    /// How many terminals there are: 2 to 128.
    fn terminals(&self) -> u16
        ensures { result ≡ (meaning self.now).terminals };

    /// How many links there are: 1 to 256.
    fn links(&self) -> u16
        ensures { result ≡ (meaning self.now).links };

    /// Whether the pair has a route.
    fn routed(&self, pair: Pair) -> bool
        ensures { result ≡ (meaning self.now).routed pair };

    /// Whether the pair's route crosses the link; no without a route.
    fn crosses(&self, pair: Pair, link: u16) -> bool
        ensures { result ≡ (meaning self.now).crossed pair link };

    /// Both numbers at once. A layer that needs both of the fabric below it asks once and not twice, so
    /// that the cost of a question grows with the layers of a pile and does not double with each.
    fn size(&self) -> Size
        ensures { (result.terminals ≡ (meaning self.now).terminals) × (result.links ≡ (meaning self.now).links) }
    {
        Size {
            terminals: self.terminals(),
            links: self.links(),
        }
    }

    ghost keeps: { (f : Self) → KeepsRoutes (meaning f) };
}
