//! The line: terminals in a row, each joined to the next by one link that serves both directions.
ghost use Rattle.std.specs.Prelude.{◌≡◌, [], MatchResult};
ghost use Rattle.fabric.specs.Faults.{numbered};
ghost use Rattle.fabric.specs.Lines.{LineSize, line_meaning};
ghost use Rattle.fabric.specs.LineLaws.{line_keeps};

use crate::Fabric;
use crate::faults::FabricFault;
use crate::pairs::Pair;

#[derive(Drop)]
pub struct Line {
    terminals: u16,
    ghost within: { LineSize terminals },
}

impl Line {
    /// The line of so many terminals, 2 to 128.
    pub fn new(terminals: u16) -> Result<Line, FabricFault>
        ensures { MatchResult result (λ line. LineSize terminals × (line.terminals ≡ terminals)) (λ fault. (LineSize terminals → ⊥) × (numbered fault ≡ (2, []))) }
    {
        if !(2..=128).contains(&terminals) {
            return Err(FabricFault::OutsideLimits);
        }
        Ok(Line { terminals })
    }
}

impl Fabric for Line {
    ghost meaning = { λ line. line_meaning line.terminals };

    ghost keeps = { λ line. line_keeps line.terminals line.within };

    fn terminals(&self) -> u16 {
        self.terminals
    }

    fn links(&self) -> u16 {
        self.terminals - 1
    }

    fn routed(&self, pair: Pair) -> bool {
        pair.two_of(self.terminals)
    }

    fn crosses(&self, pair: Pair, link: u16) -> bool {
        let low = pair.source.min(pair.destination);
        let high = pair.source.max(pair.destination);
        self.routed(pair) && (low..high).contains(&link)
    }
}
