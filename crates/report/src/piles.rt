//! Piles: a fabric with any number of spurs on it, one on the other. The number of spurs is known only when the
//! program runs, so it cannot be in the pile's type.
ghost use Rattle.std.specs.Prelude.{◌≡◌};
ghost use Rattle.fabric.specs.Spurs.{reaches};
ghost use Rattle.report.specs.Piles.{pile_meaning};
ghost use Rattle.report.specs.PileLaws.{pile_keeps};

use fabric::modules::{Hop, Module};
use fabric::pairs::Pair;
use fabric::{Fabric, Size};

/// A fabric, or a pile with a module joined to it.
// Not compared or printed: a fabric need not be.
#[derive(Drop)]
pub enum Pile<F: Fabric> {
    Base(F),
    Joined(Box<Pile<F>>, Module),
}

impl<F: Fabric> Pile<F> {
    // Whether the pair's ends are one terminal or have a route. The spur has the same test of its own: to share one comparison
    // and one question would be no plainer.
    fn reached(&self, pair: Pair) -> bool
        ensures { result ≡ reaches (pile_meaning F.Fabric.meaning self.now) pair }
    {
        pair.source == pair.destination || self.routed(pair)
    }
}

impl<F: Fabric> Fabric for Pile<F> {
    ghost meaning = { λ pile. pile_meaning F.Fabric.meaning pile };

    ghost keeps = { λ pile. pile_keeps F.Fabric.meaning F.Fabric.keeps pile };

    fn terminals(&self) -> u16 {
        self.size().terminals
    }

    fn links(&self) -> u16 {
        self.size().links
    }

    fn size(&self) -> Size {
        match self {
            Pile::Base(fabric) => fabric.size(),
            Pile::Joined(below, module) => module.joined(below.size()),
        }
    }

    fn routed(&self, pair: Pair) -> bool {
        match self {
            Pile::Base(fabric) => fabric.routed(pair),
            Pile::Joined(below, module) => match module.hop(below.size(), pair) {
                Hop::Below => below.routed(pair),
                Hop::Out(rest) | Hop::In(rest) => {
                    rest.source == rest.destination || below.routed(rest)
                }
            },
        }
    }

    fn crosses(&self, pair: Pair, link: u16) -> bool {
        match self {
            Pile::Base(fabric) => fabric.crosses(pair, link),
            Pile::Joined(below, module) => {
                let size = below.size();
                let (new, rest) = match module.hop(size, pair) {
                    Hop::Below => return below.crosses(pair, link),
                    Hop::Out(rest) => (size.links, rest),
                    Hop::In(rest) => (size.links + 1, rest),
                };
                below.reached(rest) && (link == new || below.crosses(rest, link))
            }
        }
    }
}
