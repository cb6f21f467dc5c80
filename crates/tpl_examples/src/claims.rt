//! Claims that hold in a run, and claims that fail at a place of it.

ghost use Rattle.tpl_examples.specs.Claims.{ClaimFailsAtTheEnd, ClaimHoldsWithoutACheck, ClaimFailsAtTheBegin, ClaimOfQuietRuns, ClaimOfAnInput, ExceptionIsObserved, ExceptionIsNotObserved, ClaimsOfAttachedAndDetachedChildren, UnstartedChildIsSettledBefore, NeverAndExcludes, ClaimThatATaskRuns, ClaimOfAnEnd, ClaimOfAJob};

/// A claim about a task's end fails where the task ends otherwise, and not before.
pub fn claim_fails_at_the_end()
    ensures { ClaimFailsAtTheEnd }
{}

/// A body that never checks runs to its end, and there the claim holds.
pub fn claim_holds_without_a_check()
    ensures { ClaimHoldsWithoutACheck }
{}

/// A claim about the order fails where the second task begins, and a later end of the first one mends nothing.
pub fn claim_fails_at_the_begin()
    ensures { ClaimFailsAtTheBegin }
{}

/// A claim that takes a token as quiet doesn't speak of a run in which it is requested.
pub fn claim_of_quiet_runs()
    ensures { ClaimOfQuietRuns }
{}

/// A claim with an input given speaks of the runs with this value.
pub fn claim_of_an_input()
    ensures { ClaimOfAnInput }
{}

/// A claim that an exception is observed holds where it is, and as long as the run isn't complete.
pub fn exception_is_observed()
    ensures { ExceptionIsObserved }
{}

/// A claim that an exception is observed fails where the continuation's body ends before its observe, or the
/// continuation never runs.
pub fn exception_is_not_observed()
    ensures { ExceptionIsNotObserved }
{}

/// An attached child is settled before its parent's continuation begins, and its exception is observed there; a
/// detached child's neither.
pub fn claims_of_attached_and_detached_children()
    ensures { ClaimsOfAttachedAndDetachedChildren }
{}

/// A child that isn't started is settled where its parent's continuation begins.
pub fn unstarted_child_is_settled_before()
    ensures { UnstartedChildIsSettledBefore }
{}

/// A task that is canceled has never begun, and the two continuations exclude each other.
pub fn never_and_excludes()
    ensures { NeverAndExcludes }
{}

/// A claim that a task runs fails where the run is complete and the task hasn't begun, and not before.
pub fn claim_that_a_task_runs()
    ensures { ClaimThatATaskRuns }
{}

/// A claim with an end given speaks of the runs in which the task ends so, or hasn't ended.
pub fn claim_of_an_end()
    ensures { ClaimOfAnEnd }
{}

/// A claim with a job that succeeds speaks of the runs in which that job hasn't failed.
pub fn claim_of_a_job()
    ensures { ClaimOfAJob }
{}
