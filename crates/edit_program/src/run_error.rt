//! Why the program ends with no report, or with a part of it.
ghost use Rattle.std.specs.Prelude.{◌≡◌};
ghost use Rattle.edit_program.specs.RunErrors.{run_error_status};

use devices::{Failed, ReadError};
use input_lines::exit_status::ExitStatus;
use thiserror::Error;
use wire_base::NoMemory;

/// The cause. Each has a status of its own.
#[derive(Clone, Copy, Debug, PartialEq, Eq, Error)]
pub enum RunError {
    /// The source failed, and nothing was written.
    #[error("a read failed")]
    ReadFault,
    /// The sink failed, and a part of the report was written.
    #[error("a write failed")]
    WriteFault,
    /// Allocation failed, and nothing was written.
    #[error("want of memory")]
    NoMemory,
}

impl RunError {
    /// The status that the program ends with.
    pub fn status(self) -> u8
        ensures { result ≡ run_error_status self }
    {
        match self {
            RunError::ReadFault => ExitStatus::ReadFault.code(),
            RunError::WriteFault => ExitStatus::WriteFault.code(),
            RunError::NoMemory => ExitStatus::NoMemory.code(),
        }
    }
}

impl From<ReadError> for RunError {
    ghost use Rattle.std.specs.Prelude.{◌≡◌};
    ghost use Rattle.edit_program.specs.RunErrors.{run_error_of};

    ghost from_gives = { λ error stop. stop ≡ run_error_of error };

    fn from(error: ReadError) -> RunError {
        match error {
            ReadError::Failed => RunError::ReadFault,
            ReadError::NoMemory => RunError::NoMemory,
        }
    }
}

impl From<Failed> for RunError {
    ghost use Rattle.std.specs.Prelude.{◌≡◌};
    ghost use Rattle.edit_program.specs.declared.run_error.RunError.TheVariants.{WriteFault};

    ghost from_gives = { λ _ stop. stop ≡ WriteFault };

    fn from(_failed: Failed) -> RunError {
        RunError::WriteFault
    }
}

impl From<NoMemory> for RunError {
    ghost use Rattle.std.specs.Prelude.{◌≡◌};
    ghost use Rattle.edit_program.specs.declared.run_error.RunError.TheVariants.{NoMemory};

    ghost from_gives = { λ _ stop. stop ≡ NoMemory };

    fn from(_refused: NoMemory) -> RunError {
        RunError::NoMemory
    }
}
