//! Continuations: when they start, on which worker, and what they read.

ghost use Rattle.tpl_examples.specs.Continuations.{ExcludedContinuationIsCanceled, AllowedContinuationIsReleased, EachWordAfterEachEnd, FailureChoosesTheContinuation, EagerCancellation, EagerCancellationOvertakes, LazyCancellationWaits, RequestedContinuationIsNotReleased, RequestedAfterItsRelease, SynchronousContinuation, AsynchronousOnEitherSide, SynchronousAfterACancellation, SynchronousAfterACloseOrNoEvent, WordsThatChangeNothing, ContinuationWaitsForAttachedChildren, ObserveReadsWhatTheAntecedentCarries, EndChoosesTheBranch, ContinuationCarriesItsOwn};

/// A continuation whose options exclude how its antecedent ended never starts, and is canceled.
pub fn excluded_continuation_is_canceled()
    ensures { ExcludedContinuationIsCanceled }
{}

/// A continuation whose options allow how its antecedent ended is released once, by anyone, and is not canceled.
pub fn allowed_continuation_is_released()
    ensures { AllowedContinuationIsReleased }
{}

/// After each way to end, each word releases or cancels its continuation.
pub fn each_word_after_each_end()
    ensures { EachWordAfterEachEnd }
{}

/// A job that fails faults its task, and chooses between the continuations; its exception stays unobserved.
pub fn failure_chooses_the_continuation()
    ensures { FailureChoosesTheContinuation }
{}

/// A continuation that is not lazy may be canceled before its antecedent has ended.
pub fn eager_cancellation()
    ensures { EagerCancellation }
{}

/// Behind a continuation that was canceled early the next one may run before the first task has begun.
pub fn eager_cancellation_overtakes()
    ensures { EagerCancellationOvertakes }
{}

/// A lazy continuation is not canceled before its antecedent has ended; then it is canceled, and not released.
pub fn lazy_cancellation_waits()
    ensures { LazyCancellationWaits }
{}

/// A continuation whose token is requested isn't released, though its antecedent has ended, and is canceled.
pub fn requested_continuation_is_not_released()
    ensures { RequestedContinuationIsNotReleased }
{}

/// A released continuation whose token is requested doesn't begin, and is canceled.
pub fn requested_after_its_release()
    ensures { RequestedAfterItsRelease }
{}

/// A synchronous continuation begins on the worker that ended its antecedent, whoever released it.
pub fn synchronous_continuation()
    ensures { SynchronousContinuation }
{}

/// RunContinuationsAsynchronously on the continuation or on its antecedent lifts the synchronous rule.
pub fn asynchronous_on_either_side()
    ensures { AsynchronousOnEitherSide }
{}

/// A synchronous continuation begins on any worker where the outside ended its antecedent, and where a worker canceled
/// that, on this one.
pub fn synchronous_after_a_cancellation()
    ensures { SynchronousAfterACancellation }
{}

/// A synchronous continuation of a parent begins on the worker that closed it, and one of a task that no event ended on
/// any.
pub fn synchronous_after_a_close_or_no_event()
    ensures { SynchronousAfterACloseOrNoEvent }
{}

/// PreferFairness, LongRunning and HideScheduler change nothing, nor AttachedToParent on a task that is no child.
pub fn words_that_change_nothing()
    ensures { WordsThatChangeNothing }
{}

/// A continuation waits for its antecedent's attached children, and not for detached ones.
pub fn continuation_waits_for_attached_children()
    ensures { ContinuationWaitsForAttachedChildren }
{}

/// An observing continuation sees each exception that its antecedent carries, when it passes its observe; a detached
/// child's stays unobserved.
pub fn observe_reads_what_the_antecedent_carries()
    ensures { ObserveReadsWhatTheAntecedentCarries }
{}

/// How the antecedent ended chooses the branch, and what stands behind it comes after.
pub fn end_chooses_the_branch()
    ensures { EndChoosesTheBranch }
{}

/// A continuation takes over no exception from its antecedent, so the next one observes none.
pub fn continuation_carries_its_own()
    ensures { ContinuationCarriesItsOwn }
{}
