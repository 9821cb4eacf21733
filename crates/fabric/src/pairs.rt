//! Ordered pairs of terminals.
ghost use Rattle.std.specs.Prelude.{◌≡◌};
ghost use Rattle.fabric.specs.Pairs.{two_of};

/// The terminal where a flow enters the fabric and the one where it leaves it.
/// Any two numbers make a pair; whether it has a route is the fabric's to say.
#[derive(Clone, Copy, PartialEq, Eq, Debug)]
pub struct Pair {
    pub source: u16,
    pub destination: u16,
}

impl Pair {
    /// Whether these are two different terminals of so many.
    pub fn two_of(self, terminals: u16) -> bool
        ensures { result ≡ two_of terminals self }
    {
        self.source < terminals && self.destination < terminals && self.source != self.destination
    }
}
