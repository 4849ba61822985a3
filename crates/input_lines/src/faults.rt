//! Why an input can't be read.
ghost use Rattle.std.specs.Prelude.{◌≡◌, Some};
ghost use Rattle.input_lines.specs.Faults.{fault_text};
ghost use Rattle.input_lines.specs.declared.faults.SpellError.TheVariants as errors;

use std::alloc::AllocFailed;
use std::fmt;
use thiserror::Error;
use wire_base::NoMemory;

/// A fault of form in an input.
#[derive(Clone, Copy, Debug, PartialEq, Eq)]
pub enum InputFault {
    /// The line of this number, from 1 on, is missing or bad.
    BadLine(u64),
    /// The record data ends behind the message.
    DataOutsideMessage,
    /// The limit is 2,147,483,648 or more.
    LimitTooLarge,
    /// A record has a lower priority than the one before it.
    PrioritiesNotAscending,
    /// A record belongs before the one before it.
    RecordsNotAscending,
}

impl fmt::Display for InputFault {
    ghost output = { λ fault. Some (fault_text fault) };

    fn fmt<W: fmt::Write>(&self, f: &mut fmt::Formatter<W>) -> fmt::Result {
        match self {
            InputFault::BadLine(number) => write!(f, "bad line {number}"),
            InputFault::DataOutsideMessage => write!(f, "place outside message"),
            InputFault::LimitTooLarge => write!(f, "limit too large"),
            InputFault::PrioritiesNotAscending => write!(f, "priorities not ascending"),
            InputFault::RecordsNotAscending => write!(f, "records not ascending"),
        }
    }
}

impl std::error::Error for InputFault {}

/// Why an input can't be read.
#[derive(Clone, Copy, Debug, PartialEq, Eq, Error)]
pub enum SpellError {
    /// The input has a fault.
    #[error(transparent)]
    Fault(InputFault),
    /// Allocation for what it spells failed.
    #[error("want of memory")]
    NoMemory,
}

impl From<InputFault> for SpellError {
    ghost from_gives = { λ fault error. error ≡ errors.Fault fault };

    fn from(fault: InputFault) -> SpellError {
        SpellError::Fault(fault)
    }
}

impl From<NoMemory> for SpellError {
    ghost from_gives = { λ _ error. error ≡ errors.NoMemory };

    fn from(_refused: NoMemory) -> SpellError {
        SpellError::NoMemory
    }
}

impl<T: Drop> From<AllocFailed<T>> for SpellError {
    ghost from_gives = { λ _ error. error ≡ errors.NoMemory };

    fn from(_refused: AllocFailed<T>) -> SpellError {
        SpellError::NoMemory
    }
}
