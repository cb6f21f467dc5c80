//! Worked certificates, and what is said of each.

ghost use Rattle.tpl_examples.specs.Certificates.{OneRoot, Throwing, EagerContinuation, LazyContinuation, QuietContinuation, ByEnd, ThroughAny, OwnCheck, CancelThenCheck, OnlyOn, AllOfBoth, AttachedChild, Observing, ObservedThroughParent, AfterChild, ByInput, LinkedTokens};

/// A root that returns, no claims about no tasks, and a claim without a tree.
pub fn one_root()
    ensures { OneRoot }
{}

/// A root that throws.
pub fn throwing()
    ensures { Throwing }
{}

/// An eager continuation keeps no antecedent past it.
pub fn eager_continuation()
    ensures { EagerContinuation }
{}

/// A lazy continuation keeps its antecedent past it.
pub fn lazy_continuation()
    ensures { LazyContinuation }
{}

/// An eager continuation whose token is never requested keeps its antecedent past it.
pub fn quiet_continuation()
    ensures { QuietContinuation }
{}

/// Continuations of which one runs are shown to exclude each other by a split on their antecedent's end.
pub fn by_end()
    ensures { ByEnd }
{}

/// No chain goes through WhenAny.
pub fn through_any()
    ensures { ThroughAny }
{}

/// A body that checks its own token, then calls a job that may fail.
pub fn own_check()
    ensures { OwnCheck }
{}

/// A body that requests a token, then checks it.
pub fn cancel_then_check()
    ensures { CancelThenCheck }
{}

/// Continuations by the end of their antecedent.
pub fn only_on()
    ensures { OnlyOn }
{}

/// WhenAll of a task that throws and one that may be canceled.
pub fn all_of_both()
    ensures { AllOfBoth }
{}

/// A child that throws, attached, denied, and canceled.
pub fn attached_child()
    ensures { AttachedChild }
{}

/// A continuation that observes, and ones that may not.
pub fn observing()
    ensures { Observing }
{}

/// A child's exception is read through its parent.
pub fn observed_through_parent()
    ensures { ObservedThroughParent }
{}

/// A continuation of its parent begins after an attached child.
pub fn after_child()
    ensures { AfterChild }
{}

/// A body that throws where its input is false.
pub fn by_input()
    ensures { ByInput }
{}

/// Tokens that are linked to others.
pub fn linked_tokens()
    ensures { LinkedTokens }
{}
