//! The spur: a module's terminals, joined to one terminal of the fabric below, the port, by a link out of the module
//! and a link into it. A spur is a fabric, so a spur may stand on a spur.
ghost use Rattle.std.specs.Prelude.{◌≡◌};
ghost use Rattle.fabric.specs.Spurs.{Judged, size_of, reaches, crossed_with, spurred, spur_of, SpurLaws};
ghost use Rattle.fabric.specs.SpurLaws.{spurred_keeps};

use crate::faults::FabricFault;
use crate::modules::{Hop, Module};
use crate::pairs::Pair;
use crate::{Fabric, Size};

/// A fabric with a module. After the terminals of the fabric below come the module's, after its links the one out of
/// the module and then the one into it.
///
/// Nothing that the spur holds says that the module fits, so each question tests it again, on the one size that it
/// asks of the fabric below.
#[derive(Drop)]
pub struct Spur<F: Fabric> {
    below: F,
    module: Module,
}

impl<F: Fabric> Spur<F> {
    /// The fabric below with the module; with no more terminals and links than before where `fits` refuses it.
    pub fn new(below: F, module: Module) -> Spur<F>
        ensures means { spur_of F.Fabric.meaning result ≡ spurred (F.Fabric.meaning below) «module» }
        ensures laws { SpurLaws (F.Fabric.meaning below) «module» }
    {
        Spur { below, module }
    }

    // Whether the pair's ends are one terminal or have a route below.
    fn reached(&self, pair: Pair) -> bool
        ensures { result ≡ reaches (F.Fabric.meaning self.now.below) pair }
    {
        pair.source == pair.destination || self.below.routed(pair)
    }

    // Whether the link is the new one or one of the pair's route below. Only for the new one is the route asked for:
    // where a link below is crossed there is a route.
    fn crosses_with(&self, new: u16, pair: Pair, link: u16) -> bool
        ensures { result ≡ crossed_with (F.Fabric.meaning self.now.below) new pair link }
    {
        if link == new {
            self.reached(pair)
        } else {
            self.below.crosses(pair, link)
        }
    }
}

impl<F: Fabric> Fabric for Spur<F> {
    ghost meaning = { λ s. spur_of F.Fabric.meaning s };

    ghost keeps = { λ s. spurred_keeps (F.Fabric.meaning s.below) (F.Fabric.keeps s.below) s.«module» };

    fn terminals(&self) -> u16 {
        self.size().terminals
    }

    fn links(&self) -> u16 {
        self.size().links
    }

    fn size(&self) -> Size {
        self.module.joined(self.below.size())
    }

    fn routed(&self, pair: Pair) -> bool {
        match self.module.hop(self.below.size(), pair) {
            Hop::Below => self.below.routed(pair),
            Hop::Out(rest) | Hop::In(rest) => self.reached(rest),
        }
    }

    fn crosses(&self, pair: Pair, link: u16) -> bool {
        let below = self.below.size();
        match self.module.hop(below, pair) {
            Hop::Below => self.below.crosses(pair, link),
            Hop::Out(rest) => self.crosses_with(below.links, rest, link),
            Hop::In(rest) => self.crosses_with(below.links + 1, rest, link),
        }
    }
}

/// Whether the module may be joined to the fabric below. It is refused with 2 if it is outside its limits, else with
/// 18 if it does not fit.
pub fn fits<F: Fabric>(below: &F, module: Module) -> Result<(), FabricFault>
    ensures { Judged (size_of (F.Fabric.meaning below.now)) «module» result }
{
    module.fits(below.size())
}
