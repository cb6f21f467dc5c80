//! What is true of tasks that are settled where another begins.

ghost use Rattle.tpl_laws.specs.Prelude.{SettledBeforeItsBegin, SettledWithoutBegin};

/// Where a task hasn't begun, each task counts as settled at its begin.
pub fn settled_without_begin()
    ensures { SettledWithoutBegin }
{}

/// What was settled where a task began follows from the ends of tasks, and from what was never started, in the
/// whole run.
pub fn settled_before_its_begin()
    ensures { SettledBeforeItsBegin }
{}
