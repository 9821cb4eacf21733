//! Periods: the slots that repeat. The struct stands alone: definitions that contracts cite name it.
ghost use Rattle.std.specs.Prelude.{◌≤◌};

/// A period of 1 to 255 slots, lawful once made.
#[derive(Clone, Copy, PartialEq, Eq, Debug)]
pub struct Period {
    pub(crate) slots: u8,
    ghost some: { 1 ≤ slots },
}
