//! Worked certificates for what version 3 of documents adds.

ghost use Rattle.tpl_examples.specs.BothRules.{OwnTokenAfter, OwnTokenNever, OwnTokenRows, OwnTokenObserved, OwnTokenExcludes, NeverComplete, OneCanWin, Running, GivenEnds, GivenJobs};

/// A task begins while its own token isn't requested, which a claim of what is before it may use.
pub fn own_token_after()
    ensures { OwnTokenAfter }
{}

/// So may a claim that a task never begins, but not one of its end.
pub fn own_token_never()
    ensures { OwnTokenNever }
{}

/// The rows then speak of runs in which the token is quiet, and of no others.
pub fn own_token_rows()
    ensures { OwnTokenRows }
{}

/// A claim that an exception is observed, or that a task runs, may not use it.
pub fn own_token_observed()
    ensures { OwnTokenObserved }
{}

/// So may a claim that two tasks with one token exclude each other.
pub fn own_token_excludes()
    ensures { OwnTokenExcludes }
{}

/// Where a task that is no child can't end, each exception is observed in each complete run, since there is none.
pub fn never_complete()
    ensures { NeverComplete }
{}

/// An argument that can't end doesn't win.
pub fn one_can_win()
    ensures { OneCanWin }
{}

/// Tasks that run in each complete run, and ones of which it isn't shown.
pub fn running()
    ensures { Running }
{}

/// What is given of a task's end.
pub fn given_ends()
    ensures { GivenEnds }
{}

/// What is given of a job.
pub fn given_jobs()
    ensures { GivenJobs }
{}
