//! The statuses that the program ends with.
ghost use Rattle.std.specs.Prelude.{◌≡◌};
ghost use Rattle.input_lines.specs.ExitCodes.{exit_code};

/// How the program ends.
#[derive(Clone, Copy, Debug, PartialEq, Eq)]
pub enum ExitStatus {
    /// The command was done, and its report is written.
    Done,
    /// The words are no command.
    UnknownCommand,
    /// The input has a fault of form.
    BadInput,
    /// The input is well formed, and what it asks for can't be done.
    NotDone,
    /// A read failed.
    ReadFault,
    /// A write failed.
    WriteFault,
    /// Allocation failed.
    NoMemory,
    /// The system gives no words.
    NoWords,
}

impl ExitStatus {
    /// The number that the system is given, from 0 to 7 in the order above.
    pub fn code(self) -> u8
        ensures { result ≡ exit_code self }
    {
        match self {
            ExitStatus::Done => 0,
            ExitStatus::UnknownCommand => 1,
            ExitStatus::BadInput => 2,
            ExitStatus::NotDone => 3,
            ExitStatus::ReadFault => 4,
            ExitStatus::WriteFault => 5,
            ExitStatus::NoMemory => 6,
            ExitStatus::NoWords => 7,
        }
    }
}
