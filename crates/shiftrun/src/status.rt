// How a call of the program ends.
ghost use Rattle.std.specs.Prelude.{◌≡◌};
ghost use Rattle.shiftrun.specs.Statuses.{code};

/// How a call of the program ends.
#[derive(Clone, Copy, Debug, PartialEq, Eq)]
pub enum Status {
    /// The report of a script is printed.
    Reported,
    /// It is printed that the bytes are no script.
    Refused,
    /// It is printed that the words are no command.
    Words,
    /// Reading failed.
    Unread,
    /// Writing failed.
    Unwritten,
    /// Memory ran out.
    Memory,
    /// The report of a script is printed that filled the journal before its end.
    Full,
}

impl Status {
    /// The exit status.
    pub fn code(self) -> u8
        ensures { result ≡ code self }
    {
        match self {
            Status::Reported => 0,
            Status::Refused => 1,
            Status::Words => 2,
            Status::Unread => 3,
            Status::Unwritten => 4,
            Status::Memory => 5,
            Status::Full => 7,
        }
    }
}
