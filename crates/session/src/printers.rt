//! Where a session prints its lines.
ghost use Rattle.std.specs.Prelude.{◌≡◌, ℕ, List, Some, OnOk};
ghost use Rattle.session.specs.Refusals.{fault_text};
ghost use Rattle.session.specs.declared.printers.RunFault.TheVariants.{NoMemory, Unprinted as NotPrinted};

use std::alloc::AllocError;
use std::error::Error;
use std::fmt;

/// The line could not be printed.
#[derive(Clone, Copy, PartialEq, Eq, Debug)]
pub struct Unprinted;

/// Why a run broke off: there was no memory for a line, or it could not be printed.
#[derive(Clone, Copy, PartialEq, Eq, Debug)]
pub enum RunFault {
    NoMemory,
    Unprinted,
}

impl fmt::Display for RunFault {
    ghost output = { λ fault. Some (fault_text fault) };

    fn fmt<W: fmt::Write>(&self, f: &mut fmt::Formatter<W>) -> fmt::Result {
        match self {
            Self::NoMemory => write!(f, "there is no memory for a line"),
            Self::Unprinted => write!(f, "a line cannot be printed"),
        }
    }
}

impl Error for RunFault {}

// Both by hand, since contracts name the fault that a `?` makes.
impl From<AllocError> for RunFault {
    ghost from_gives = { λ _ r. r ≡ NoMemory };

    fn from(_: AllocError) -> RunFault {
        RunFault::NoMemory
    }
}

impl From<Unprinted> for RunFault {
    ghost from_gives = { λ _ r. r ≡ NotPrinted };

    fn from(_: Unprinted) -> RunFault {
        RunFault::Unprinted
    }
}

/// What takes the lines of a session, one after the other, and ends each with byte 10.
pub trait Printer {
    ghost took: { Self → List ℕ → Self → Type 0 };

    fn print_line(&mut self, line: &str) -> Result<(), Unprinted>
        ensures { OnOk result (took self.old line.now self.new) };
}
