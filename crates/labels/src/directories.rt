//! The directory of labels, for every kind: 64 entries in the caller's memory, entry n of flow n.
ghost use Rattle.std.specs.Prelude.{◌≡◌, MatchResult};
ghost use Rattle.labels.specs.Directories.{Apart, Binds, Finds, FindsBound, Unbinds, unbind_checks};
ghost use Rattle.labels.specs.Faults.{AllHold, FirstFails};

use crate::Label;
use crate::faults::LabelFault;

// How many entries a directory has: one for each flow. The memory is the caller's, and one of another length is refused at each
// call, so that no caller needs to show its length first.
const FLOWS: usize = 64;

/// The lowest flow that the label names, or none.
pub fn find<L: Label>(entries: &[Option<L>], label: L) -> Result<Option<u8>, LabelFault>
    ensures { Finds L.Label.same entries.now label result }
{
    if entries.len() != FLOWS {
        return Err(LabelFault::WrongMemory);
    }
    let number = entries.iter().position(
        |entry| matches!(entry, Some(held) if held.is_same(&label)),
    );
    // no bits are lost: there are 64 entries
    Ok(number.map(|number| number as u8))
}

/// The lowest flow that the label names; a label that names none is refused.
pub fn find_bound<L: Label>(entries: &[Option<L>], label: L) -> Result<u8, LabelFault>
    ensures { FindsBound L.Label.same entries.now label result }
{
    find(entries, label)?.ok_or(LabelFault::LabelUnknown)
}

/// Binds a label that names no flow yet to a flow whose entry is empty.
pub fn bind<L: Label>(entries: &mut [Option<L>], number: u16, label: L) -> Result<(), LabelFault>
    ensures done { Binds L.Label.same entries.old number label entries.new result }
    ensures apart { Apart L.Label.same entries.old → Apart L.Label.same entries.new }
{
    let at = place_of(entries, number)?;
    if find(entries, label)?.is_some() {
        return Err(LabelFault::LabelBound);
    }
    if entries[at].is_some() {
        return Err(LabelFault::EntryBound);
    }
    entries[at] = Some(label);
    Ok(())
}

/// Empties the entry of a flow, bound or not.
pub fn unbind<L: Label>(entries: &mut [Option<L>], number: u16) -> Result<(), LabelFault>
    ensures done { Unbinds entries.old number entries.new result }
    ensures apart { Apart L.Label.same entries.old → Apart L.Label.same entries.new }
{
    let at = place_of(entries, number)?;
    entries[at] = None;
    Ok(())
}

// The place of a flow's entry, where the memory and the flow's number are as they must be.
fn place_of<L: Label>(entries: &[Option<L>], number: u16) -> Result<usize, LabelFault>
    ensures { MatchResult result (λ at. AllHold (unbind_checks entries.now number) × (at ≡ number)) (λ fault. FirstFails (unbind_checks entries.now number) fault) }
{
    if entries.len() != FLOWS {
        return Err(LabelFault::WrongMemory);
    }
    let at = usize::from(number);
    if at >= FLOWS {
        return Err(LabelFault::NoFlow);
    }
    Ok(at)
}
