//! The final statuses, and sets of them.

ghost use Rattle.std.specs.Prelude.{◌≡◌, ◌↔◌, ◌||◌, true, Some, IsTrue, MatchOption};
ghost use Rattle.tpl_model.specs.Prelude.{IsPart, final_name, has, is_final};

use std::fmt;

/// A status that a task keeps for good (.NET API documentation: the enumeration TaskStatus).
#[derive(Clone, Copy, PartialEq, Eq, Debug)]
pub enum Final {
    /// The body came to its end, and no attached child's exception was taken over.
    RanToCompletion,
    /// The task acknowledged the cancellation of its token, or never began.
    Canceled,
    /// An exception left the body, or an attached child's was taken over.
    Faulted,
}

impl Final {
    /// Its word in the API documentation.
    pub fn name(self) -> &'static str
        ensures { result.now ≡ final_name self }
    {
        match self {
            Final::RanToCompletion => "RanToCompletion",
            Final::Canceled => "Canceled",
            Final::Faulted => "Faulted",
        }
    }

    /// The final status that a word names.
    pub fn from_name(name: &str) -> Option<Final>
        ensures { MatchOption result ((f : Final) → final_name f ≡ name.now
            → ⊥) (λ f. final_name f ≡ name.now) }
    {
        if name == "RanToCompletion" {
            Some(Final::RanToCompletion)
        } else if name == "Canceled" {
            Some(Final::Canceled)
        } else if name == "Faulted" {
            Some(Final::Faulted)
        } else {
            None
        }
    }
}

impl fmt::Display for Final {
    ghost output = { λ status. Some (final_name status) };

    fn fmt<W: fmt::Write>(&self, f: &mut fmt::Formatter<W>) -> fmt::Result {
        f.write_str(self.name())
    }
}

/// A set of final statuses.
#[derive(Clone, Copy, PartialEq, Eq, Debug)]
pub struct Finals {
    pub ran: bool,
    pub canceled: bool,
    pub faulted: bool,
}

impl Finals {
    /// The status is a member.
    pub fn contains(&self, status: Final) -> bool
        ensures { result ≡ has self.now status }
    {
        match status {
            Final::RanToCompletion => self.ran,
            Final::Canceled => self.canceled,
            Final::Faulted => self.faulted,
        }
    }

    /// Makes the status a member, if it isn't one.
    pub fn insert(&mut self, status: Final)
        ensures { (f : Final) → has self.new f ≡ (is_final status f || has self.old f) }
    {
        match status {
            Final::RanToCompletion => self.ran = true,
            Final::Canceled => self.canceled = true,
            Final::Faulted => self.faulted = true,
        }
    }

    /// The members of either.
    pub fn union(self, other: Finals) -> Finals
        ensures { (f : Final) → has result f ≡ (has self f || has other f) }
    {
        Finals {
            ran: self.ran || other.ran,
            canceled: self.canceled || other.canceled,
            faulted: self.faulted || other.faulted,
        }
    }

    /// Each member is one of the other set.
    pub fn is_subset(&self, other: &Finals) -> bool
        ensures { IsTrue result ↔ IsPart self.now other.now }
    {
        self.union(*other) == *other
    }
}
