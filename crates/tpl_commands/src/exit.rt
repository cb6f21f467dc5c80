//! How the program ends.

ghost use Rattle.std.specs.Prelude.{◌≡◌};
ghost use Rattle.tpl_commands.specs.Prelude.{exit_code};

/// How the program ends.
#[derive(Clone, Copy, Debug, Drop, PartialEq, Eq)]
pub enum Exit {
    /// The answer is yes, the picture or the trace was written, no run was found in which a claim fails, or help was given.
    Success,
    /// The answer is no: not accepted, not found, not complete, not allowed, or a claim fails; or what was found is too long.
    Failure,
    /// The words of the command line name no command.
    Usage,
    /// The document can't be read.
    Unreadable,
    /// Memory was refused.
    Memory,
    /// A read or a write failed.
    Device,
    /// A run couldn't be opened, made or closed, for another reason than memory.
    Fault,
}

impl Exit {
    /// The exit status of the process.
    pub fn code(self) -> u8
        ensures { result ≡ exit_code self }
    {
        match self {
            Exit::Success => 0,
            Exit::Failure => 1,
            Exit::Usage => 2,
            Exit::Unreadable => 3,
            Exit::Memory => 4,
            Exit::Device => 5,
            Exit::Fault => 5,
        }
    }
}
