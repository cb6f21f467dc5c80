//! Splits on who wins WhenAny tasks.

ghost use Rattle.std.specs.Prelude.{◌≡◌};
ghost use Rattle.tpl_token_leaf.specs.Prelude.{all_leave, leaves_winner};

use tpl_model::TaskId;

/// The branch of a split on which the argument wins the task, or on which another one does.
#[derive(Clone, Copy)]
pub struct WinnerSplit {
    pub task: TaskId,
    pub argument: TaskId,
    pub wins: bool,
}

impl WinnerSplit {
    /// The argument may win the task, by this split.
    fn leaves(self, task: TaskId, argument: TaskId) -> bool
        ensures { result ≡ leaves_winner self task.0 argument.0 }
    {
        if self.task.0 != task.0 {
            return true;
        }
        let is_this = self.argument.0 == argument.0;
        if self.wins { is_this } else { !is_this }
    }
}

/// The argument may win the task, by each of the splits.
pub(crate) fn all_leave(splits: &[WinnerSplit], task: TaskId, argument: TaskId) -> bool
    ensures { result ≡ all_leave splits.now task.0 argument.0 }
{
    for split in splits {
        if !split.leaves(task, argument) {
            return false;
        }
    }
    true
}
