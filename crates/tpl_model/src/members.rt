//! Going through the members of a set of tasks.

ghost use Rattle.std.specs.Prelude.{◌≡◌};
ghost use Rattle.std.specs.Iterator.{YieldsFirstBy, item_count};
ghost use Rattle.tpl_model.specs.Prelude.{IsTaskSet};

use crate::ids::TaskId;
use crate::task_set::TaskSet;
use std::marker::Model;

/// The members of a set that are still to come, in ascending order.
#[derive(Drop)]
pub struct Members {
    left: TaskSet,
}

impl Model for Members {
    ghost use Rattle.std.specs.Prelude.{ℕ, List};

    ghost Value = { List ℕ };

    ghost view = { λ m. m.left };
}

impl TaskSet {
    /// The members in ascending order.
    pub fn members(&self) -> Members
        ensures members { result ≡ self.now }
        ensures set { IsTaskSet self.now }
    {
        Members { left: self.copy() }
    }
}

impl Iterator for Members {
    type Item = TaskId;

    ghost next_gives = { YieldsFirstBy (λ t. t.0) (λ m. m) };

    ghost remaining = { item_count (λ m. m) };

    fn next(&mut self) -> Option<TaskId> {
        self.left.pop_first()
    }
}
