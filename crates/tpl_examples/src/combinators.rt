//! WhenAll and WhenAny tasks.

ghost use Rattle.tpl_examples.specs.Combinators.{WhenAllOfFaultedAndCanceled, WhenAllWaitsForAll, WhenAllWithoutAnException, WhenAllOfNothing, WhenAllGathersEachOnce, WinnerIsTheFirstToEnd, LoserStaysUnobserved, WinnerOfALateSettle, WhenAnyWaitsForOne, WinnerBeforeTheFirstEvent, OptionsSpeakOfTheAntecedent, SubjectIsOneLevelBelow, SynchronousAfterASettle};

/// WhenAll of a faulted and a canceled task, in either order, is faulted with the exception of the one.
pub fn when_all_of_faulted_and_canceled()
    ensures { WhenAllOfFaultedAndCanceled }
{}

/// WhenAll waits for each argument, and is settled once, by anyone; it isn't begun, released, closed or canceled.
pub fn when_all_waits_for_all()
    ensures { WhenAllWaitsForAll }
{}

/// WhenAll of a canceled task and others that ran is canceled, in whatever order; of tasks that ran, also of one named
/// twice, it ran.
pub fn when_all_without_an_exception()
    ensures { WhenAllWithoutAnException }
{}

/// WhenAll of nothing has ended before the first event; WhenAny of nothing is none.
pub fn when_all_of_nothing()
    ensures { WhenAllOfNothing }
{}

/// WhenAll takes over its arguments' exceptions in the order of its list, each once, and they are observed through it.
pub fn when_all_gathers_each_once()
    ensures { WhenAllGathersEachOnce }
{}

/// The winner of WhenAny is the argument that ended first, and its exception is observed through it.
pub fn winner_is_the_first_to_end()
    ensures { WinnerIsTheFirstToEnd }
{}

/// Where the argument that returns ends first, the other one's exception stays unobserved.
pub fn loser_stays_unobserved()
    ensures { LoserStaysUnobserved }
{}

/// The order of the endings decides, and not when WhenAny is settled; WhenAny carries no exception.
pub fn winner_of_a_late_settle()
    ensures { WinnerOfALateSettle }
{}

/// WhenAny waits for one argument, and is settled once.
pub fn when_any_waits_for_one()
    ensures { WhenAnyWaitsForOne }
{}

/// Of the arguments that ended before the first event the earliest in the list wins, and it wins over one that ended by
/// an event.
pub fn winner_before_the_first_event()
    ensures { WinnerBeforeTheFirstEvent }
{}

/// Options speak of the antecedent, and a body's branches of its winner.
pub fn options_speak_of_the_antecedent()
    ensures { OptionsSpeakOfTheAntecedent }
{}

/// A body reads through one WhenAny, and not through two.
pub fn subject_is_one_level_below()
    ensures { SubjectIsOneLevelBelow }
{}

/// A synchronous continuation of a WhenAll task begins on the worker that settled this task.
pub fn synchronous_after_a_settle()
    ensures { SynchronousAfterASettle }
{}
