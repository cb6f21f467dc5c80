//! How WhenAll tasks may end, argument by argument.

ghost use Rattle.std.specs.Prelude.{◌≡◌};
ghost use Rattle.tpl_checker.specs.Prelude.{ended_together, no_argument, with_argument};

use tpl_model::Finals;

/// How a WhenAll task may end by those of its arguments that were looked at.
#[derive(Clone, Copy)]
pub struct AllEnds {
    ran: bool,
    final_all: bool,
    none_faulted: bool,
    canceled: bool,
    faulted: bool,
}

impl AllEnds {
    /// No argument was looked at.
    pub fn none() -> AllEnds
        ensures { result ≡ no_argument }
    {
        AllEnds {
            ran: true,
            final_all: true,
            none_faulted: true,
            canceled: false,
            faulted: false,
        }
    }

    /// One more argument was, which may end in these ways.
    pub fn with(self, ends: Finals) -> AllEnds
        ensures { result ≡ with_argument self ends }
    {
        AllEnds {
            ran: self.ran && ends.ran,
            final_all: self.final_all && (ends.ran || ends.canceled || ends.faulted),
            none_faulted: self.none_faulted && (ends.ran || ends.canceled),
            canceled: self.canceled || ends.canceled,
            faulted: self.faulted || ends.faulted,
        }
    }

    /// Faulted if one argument is, else Canceled if one is, else RanToCompletion.
    pub fn ends(self) -> Finals
        ensures { result ≡ ended_together self }
    {
        Finals {
            ran: self.ran,
            canceled: self.none_faulted && self.canceled,
            faulted: self.final_all && self.faulted,
        }
    }
}
