//! Why the program's arguments are not a request.
ghost use Rattle.std.specs.Prelude.{◌≡◌};
ghost use Rattle.report.specs.declared.misuses.Misuse.TheVariants.{NoMemory};

use std::alloc::{AllocError, AllocFailed};

/// What is wrong with the arguments. The first word is at place 0.
#[derive(Clone, Copy, PartialEq, Eq, Debug)]
pub enum Misuse {
    /// The word after the options names no fabric.
    UnknownFabric,
    /// Nothing follows the fabric's name.
    NoDescription,
    /// The word at this place does not spell numbers parted by commas.
    NotNumbers(usize),
    /// The word at this place, after `--spur`, does not spell a port and a count.
    NotAModule(usize),
    /// No pair follows the fabric, or a source has no destination.
    Unpaired,
    /// The word at this place spells no number.
    NotANumber(usize),
    /// There was no memory for the request.
    NoMemory,
}

// Both by hand, since the contracts of the readers name the misuse that a `?` makes.
impl<T: Drop> From<AllocFailed<T>> for Misuse {
    ghost from_gives = { λ _ r. r ≡ NoMemory };

    fn from(_: AllocFailed<T>) -> Misuse {
        Misuse::NoMemory
    }
}

impl From<AllocError> for Misuse {
    ghost from_gives = { λ _ r. r ≡ NoMemory };

    fn from(_: AllocError) -> Misuse {
        Misuse::NoMemory
    }
}
