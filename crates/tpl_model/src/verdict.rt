//! The ways in which the paths of a body end.

ghost use Rattle.std.specs.Prelude.{◌≡◌, ◌||◌, not};
ghost use Rattle.tpl_model.specs.Prelude.{has_verdict};

/// How a body ends, where it doesn't matter what it threw.
#[derive(Clone, Copy, PartialEq, Eq, Debug)]
pub enum Verdict {
    Returned,
    Thrown,
    Acknowledged,
}

/// A set of verdicts.
#[derive(Clone, Copy, PartialEq, Eq, Debug)]
pub struct Verdicts {
    pub returned: bool,
    pub thrown: bool,
    pub acknowledged: bool,
}

impl Verdicts {
    /// The verdict is a member.
    pub fn contains(&self, verdict: Verdict) -> bool
        ensures { result ≡ has_verdict self.now verdict }
    {
        match verdict {
            Verdict::Returned => self.returned,
            Verdict::Thrown => self.thrown,
            Verdict::Acknowledged => self.acknowledged,
        }
    }

    /// There is no member.
    pub fn is_empty(&self) -> bool
        ensures { result ≡ not (self.now.returned || (self.now.thrown || self.now.acknowledged)) }
    {
        !(self.returned || self.thrown || self.acknowledged)
    }
}
