//! What the definitions of this crate rest on. A function here computes nothing: its contract is a theorem.
ghost use Rattle.script.specs.Groups.{MembersStand};
ghost use Rattle.script.specs.Lines.{LinesStand};
ghost use Rattle.script.specs.Ranges.{RunsStand};

/// Every script is lines, in one way.
pub fn lines_stand()
    ensures { LinesStand }
{}

/// The runs of a row are its maximal runs of held slots, and nothing else is.
pub fn runs_stand()
    ensures { RunsStand }
{}

/// The members of a row are the numbers that it holds, ascending, and nothing else is.
pub fn members_stand()
    ensures { MembersStand }
{}
