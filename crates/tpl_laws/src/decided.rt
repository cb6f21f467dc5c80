//! The tests of whole runs say what the definitions do.

ghost use Rattle.tpl_laws.specs.Prelude.{GivenIsRight, HoldsIsRight, HoldsOfIsRight, IsCompleteIsRight, IsSettledIsRight};

/// A task passes the walk up to its parents just where it is settled.
pub fn is_settled_is_right()
    ensures { IsSettledIsRight }
{}

/// A list of events passes its test just where it is complete.
pub fn is_complete_is_right()
    ensures { IsCompleteIsRight }
{}

/// What a claim says passes its test just where it is true of the run.
pub fn holds_of_is_right()
    ensures { HoldsOfIsRight }
{}

/// A claim passes its test just where it holds in the run.
pub fn holds_is_right()
    ensures { HoldsIsRight }
{}

/// What is given passes its test just where it is true of the run.
pub fn given_is_right()
    ensures { GivenIsRight }
{}
