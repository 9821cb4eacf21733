//! Modules: terminals that join a fabric together, at one of its terminals.
ghost use Rattle.std.specs.Prelude.{◌≡◌};
ghost use Rattle.fabric.specs.Spurs.{Judged, HopIs, added, joined_size, from_port, to_port};

use crate::Size;
use crate::faults::FabricFault;
use crate::pairs::Pair;

/// The terminal of the fabric below that a module joins, its port, and how many terminals the module has.
/// Any two numbers make a description; whether it may be joined is a question of its own.
#[derive(Clone, Copy, PartialEq, Eq, Debug)]
pub struct Module {
    pub port: u16,
    pub count: u16,
}

/// How a pair of the fabric with a module goes by the fabric below.
#[derive(Clone, Copy, PartialEq, Eq, Debug)]
pub enum Hop {
    /// Neither end is in the module: the pair is one of the fabric below.
    Below,
    /// Its source is in the module: by the link out of it, and then as this pair below.
    Out(Pair),
    /// Its destination alone is in the module: as this pair below, and then by the link into it.
    In(Pair),
}

impl Module {
    /// Whether the module may be joined to a fabric of that size. It is refused with 2 if it is outside its limits,
    /// else with 18 if it does not fit.
    pub fn fits(self, below: Size) -> Result<(), FabricFault>
        ensures { Judged below self result }
    {
        if !(1..=8).contains(&self.count) {
            return Err(FabricFault::OutsideLimits);
        }
        let room = below.terminals <= 128 - self.count && below.links <= 256 - 2;
        if self.port < below.terminals && room {
            Ok(())
        } else {
            Err(FabricFault::Misfit)
        }
    }

    /// The size of the fabric with the module; as it was where the module may not be joined.
    pub fn joined(self, below: Size) -> Size
        ensures { result ≡ joined_size below self }
    {
        if self.fits(below).is_err() {
            return below;
        }
        Size {
            terminals: below.terminals + self.count,
            links: below.links + 2,
        }
    }

    /// Whether the terminal is one that the module adds.
    pub fn added(self, below: Size, terminal: u16) -> bool
        ensures { result ≡ added below self terminal }
    {
        self.fits(below).is_ok()
            && (below.terminals..below.terminals + self.count).contains(&terminal)
    }

    /// What is left of a pair below when its source is in the module.
    pub fn from_port(self, pair: Pair) -> Pair
        ensures { result ≡ from_port self pair }
    {
        Pair {
            source: self.port,
            destination: pair.destination,
        }
    }

    /// What is left of a pair below when its destination is in the module.
    pub fn to_port(self, pair: Pair) -> Pair
        ensures { result ≡ to_port self pair }
    {
        Pair {
            source: pair.source,
            destination: self.port,
        }
    }

    /// How the pair goes: out of the module, into it, or below alone.
    pub fn hop(self, below: Size, pair: Pair) -> Hop
        ensures { HopIs below self pair result }
    {
        if self.added(below, pair.source) {
            Hop::Out(self.from_port(pair))
        } else if self.added(below, pair.destination) {
            Hop::In(self.to_port(pair))
        } else {
            Hop::Below
        }
    }
}
