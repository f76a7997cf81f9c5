// How a run ends.

ghost use Rattle.std.specs.Prelude.{◌≡◌};
ghost use Rattle.fs_cli.specs.Answer.{exit_code};

/// How a run ended. Its number is the exit status of the program.
#[derive(Clone, Copy, Debug, PartialEq, Eq)]
pub enum Status {
    /// Every command was answered whole.
    Done,
    /// The words aren't those of the command line; nothing was read or written.
    Usage,
    /// The job has a fault, which was written.
    Refused,
    /// A computation overflowed, which was written.
    Partial,
    /// The source failed; nothing was written.
    ReadFault,
    /// The sink failed; a prefix of the answer was written.
    WriteFault,
    /// Out of memory; a prefix of the answer was written.
    NoMemory,
}

impl Status {
    /// Its number, from 0 for `Done` to 6 for `NoMemory`.
    pub fn code(self) -> u8
        ensures { result ≡ exit_code self }
    {
        self as u8
    }
}
