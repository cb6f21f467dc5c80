//! Who wins the WhenAny tasks of a graph.

use tpl_model::TaskId;
use tpl_token_check::WinnerSplit;

/// The most splits on winners that a search makes (this program's own limit).
pub(crate) const MOST_WINNERS: usize = 64;

/// That an argument wins a WhenAny task.
#[derive(Clone, Copy, PartialEq, Eq)]
pub(crate) struct Win {
    pub(crate) task: TaskId,
    pub(crate) argument: TaskId,
}

impl Win {
    /// The branch of the split on it where it is so, or where it isn't.
    pub(crate) fn branch(self, wins: bool) -> WinnerSplit {
        WinnerSplit {
            task: self.task,
            argument: self.argument,
            wins,
        }
    }
}

/// A set of them, with room for as many as a search splits on.
#[derive(Clone, Copy)]
pub(crate) struct Wins {
    members: [Option<Win>; MOST_WINNERS],
}

impl Wins {
    /// The empty set.
    pub(crate) fn none() -> Wins {
        Wins {
            members: [None; MOST_WINNERS],
        }
    }

    /// It is a member.
    pub(crate) fn contains(&self, win: Win) -> bool {
        self.members.iter().any(|member| *member == Some(win))
    }

    /// Makes it a member, where there is room for it.
    pub(crate) fn insert(&mut self, win: Win) {
        for at in 0..MOST_WINNERS {
            if self.members[at].is_none() {
                self.members[at] = Some(win);
                return;
            }
        }
    }
}
