//! Worked certificates for each rule: those that keep it, and those that break it.

ghost use Rattle.tpl_examples.specs.RowRules.{MayBegin, ContinuationMayBegin, BodyEnds, CanceledBeforeItBegins, CanceledContinuation, ChildFaults, AllEnds, AnyEnds, Before, BeforeWithoutRunning, PastChildren, PastContinuation, PastWhereNotCanceled, PastCombinator, Chains, Readers, Proving, ProvingOwnFault, Shapes, Assumptions, Subjects, BrokenOff};

/// A root runs, and a child that may be started.
pub fn may_begin()
    ensures { MayBegin }
{}

/// A continuation runs where its options allow an end of its antecedent.
pub fn continuation_may_begin()
    ensures { ContinuationMayBegin }
{}

/// How bodies end.
pub fn body_ends()
    ensures { BodyEnds }
{}

/// A task with a token may be canceled before it begins.
pub fn canceled_before_it_begins()
    ensures { CanceledBeforeItBegins }
{}

/// When a continuation may be canceled.
pub fn canceled_continuation()
    ensures { CanceledContinuation }
{}

/// A parent takes over the fault of an attached child.
pub fn child_faults()
    ensures { ChildFaults }
{}

/// How WhenAll ends.
pub fn all_ends()
    ensures { AllEnds }
{}

/// How WhenAny ends.
pub fn any_ends()
    ensures { AnyEnds }
{}

/// What is settled when a task begins.
pub fn before()
    ensures { Before }
{}

/// A task that does not begin has anything before it.
pub fn before_without_running()
    ensures { BeforeWithoutRunning }
{}

/// Past a task are the attached children below it.
pub fn past_children()
    ensures { PastChildren }
{}

/// What is past a child and a continuation.
pub fn past_continuation()
    ensures { PastContinuation }
{}

/// An eager continuation that is not canceled has its antecedent past it.
pub fn past_where_not_canceled()
    ensures { PastWhereNotCanceled }
{}

/// What is past WhenAll and WhenAny.
pub fn past_combinator()
    ensures { PastCombinator }
{}

/// Which ways a chain goes.
pub fn ways_of_chains()
    ensures { Chains }
{}

/// Which continuations read an exception.
pub fn readers()
    ensures { Readers }
{}

/// What a closed leaf proves.
pub fn proving_a_claim()
    ensures { Proving }
{}

/// Only an exception of its own is to be observed.
pub fn proving_own_fault()
    ensures { ProvingOwnFault }
{}

/// The first claim whose tree has the wrong shape.
pub fn shapes()
    ensures { Shapes }
{}

/// Assumptions about one thing are taken together.
pub fn assumptions()
    ensures { Assumptions }
{}

/// How the subject of a continuation may have ended.
pub fn subjects()
    ensures { Subjects }
{}

/// What a path has started before it broke off is started.
pub fn broken_off()
    ensures { BrokenOff }
{}
