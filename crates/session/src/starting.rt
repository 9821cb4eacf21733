//! The first two lines of a script: the fabric, and the period.
ghost use Rattle.std.specs.Prelude.{◌≡◌, Ok, Err, MatchResult};
ghost use Rattle.session.specs.Output.{FabricLine, OpeningLine};
ghost use Rattle.session.specs.Starts.{built_meaning};

use crate::builds::Built;
use crate::faults::ScriptFault;
use fabric::faults::FabricFault;
use fabric::lines::Line;
use fabric::trees::Tree;
use planner::periods::Period;
use script::descriptions::{Description, read_description};
use script::openings::read_opening;

/// The fabric that the line describes.
pub(crate) fn build(line: &[u8]) -> Result<Built, ScriptFault>
    ensures { MatchResult result (λ built. FabricLine line.now (Ok (built_meaning built))) (λ fault. FabricLine line.now (Err fault)) }
{
    match read_description(line).ok_or(ScriptFault::NoForm)? {
        Description::Line(terminals) => Ok(Built::Line(Line::new(terminals)?)),
        Description::Tree(parents) => Ok(Built::Tree(Tree::try_from(parents.as_slice())?)),
        Description::LongTree => Err(ScriptFault::Fabric(FabricFault::OutsideLimits)),
    }
}

/// The period that the line opens the plan with.
pub(crate) fn period_of(line: &[u8]) -> Result<Period, ScriptFault>
    ensures { MatchResult result (λ period. OpeningLine line.now (Ok period.slots)) (λ fault. OpeningLine line.now (Err fault)) }
{
    let slots = read_opening(line).ok_or(ScriptFault::NoForm)?;
    Ok(Period::new(slots)?)
}
