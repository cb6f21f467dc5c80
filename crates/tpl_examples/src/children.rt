//! Children: which are waited for, and what their parents take over.

ghost use Rattle.tpl_examples.specs.Children.{ChildFaultsItsParent, ParentWaitsForItsChild, ChildIsStarted, ChildEndsBeforeItsParent, DeniedChild, DetachedChild, CanceledChild, ChildIsCanceledOnceStarted, ChildThatIsNotStarted, ChildThatIsStartedIsToEnd, DetachedChildIsNotSettledWithItsParent, ExceptionsInTheOrderOfTheText, OnlyStartedChildrenAreWaitedFor, ExceptionsComeUp, ExceptionsStopAtADetachedChild, ExceptionOutweighsCancellation, NothingElseIsDue};

/// An attached child faults its parent.
pub fn child_faults_its_parent()
    ensures { ChildFaultsItsParent }
{}

/// A parent that has left its body waits for its child, carries nothing meanwhile, and ends by its close.
pub fn parent_waits_for_its_child()
    ensures { ParentWaitsForItsChild }
{}

/// A child is created, and waits to run once its parent has passed its start; then any worker begins it.
pub fn child_is_started()
    ensures { ChildIsStarted }
{}

/// A parent whose children have ended before it leaves its body ends there, without a close.
pub fn child_ends_before_its_parent()
    ensures { ChildEndsBeforeItsParent }
{}

/// A child that its parent denies is not waited for, and leaves its parent alone.
pub fn denied_child()
    ensures { DeniedChild }
{}

/// A detached child is not waited for, and leaves its parent alone.
pub fn detached_child()
    ensures { DetachedChild }
{}

/// A canceled attached child doesn't change its parent's status.
pub fn canceled_child()
    ensures { CanceledChild }
{}

/// A child whose token is requested is canceled once it is started, and not before.
pub fn child_is_canceled_once_started()
    ensures { ChildIsCanceledOnceStarted }
{}

/// A child that is not started stays created; it is settled with its parent, and so is its own child, and the run is
/// complete without them.
pub fn child_that_is_not_started()
    ensures { ChildThatIsNotStarted }
{}

/// A child that is started and hasn't ended isn't settled, nor is its parent, which waits for it.
pub fn child_that_is_started_is_to_end()
    ensures { ChildThatIsStartedIsToEnd }
{}

/// A detached child that is started and hasn't ended isn't settled, though its parent is.
pub fn detached_child_is_not_settled_with_its_parent()
    ensures { DetachedChildIsNotSettledWithItsParent }
{}

/// A parent carries its own exception, then its children's in the order of their start statements, not of their ids and
/// not of their endings.
pub fn exceptions_in_the_order_of_the_text()
    ensures { ExceptionsInTheOrderOfTheText }
{}

/// A parent waits for each of its children that was started, and for no other.
pub fn only_started_children_are_waited_for()
    ensures { OnlyStartedChildrenAreWaitedFor }
{}

/// Exceptions come up through each attached child, and each family is closed from below.
pub fn exceptions_come_up()
    ensures { ExceptionsComeUp }
{}

/// Exceptions don't come up through a detached child.
pub fn exceptions_stop_at_a_detached_child()
    ensures { ExceptionsStopAtADetachedChild }
{}

/// A parent that acknowledged is canceled, but for a child's exception.
pub fn exception_outweighs_cancellation()
    ensures { ExceptionOutweighsCancellation }
{}

/// Of a requested child nothing is due before it is started; then its cancellation is, and nothing more.
pub fn nothing_else_is_due()
    ensures { NothingElseIsDue }
{}
