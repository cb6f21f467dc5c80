//! Which tasks may begin and how they may end under what is assumed: the least that the rules K1 and K2 demand.

ghost use Rattle.std.specs.Prelude.{◌≡◌, ◌≢◌, ℕ, ◌<◌, true};
ghost use Rattle.tpl_checker.specs.Prelude.{assumed_of};
ghost use Rattle.tpl_model.specs.Prelude.{end_left, has, is_task};
ghost use Rattle.tpl_outline.specs.Prelude.{fate_of, unsettled};

use crate::bits::Bits;
use crate::setting::Setting;
use crate::ways::Ways;
use tpl_checker::{allowed, excluded, some_end};
use tpl_graph::Role;
use tpl_model::{Final, Finals, MOST_TASKS, TaskId, Verdicts};

/// No way to end.
pub const NO_END: Finals = Finals {
    ran: false,
    canceled: false,
    faulted: false,
};

/// The fate of a task before a pass has found it: it neither begins nor ends.
const UNSETTLED: Fate = Fate {
    runs: false,
    verdicts: Verdicts {
        returned: false,
        thrown: false,
        acknowledged: false,
    },
    ends: NO_END,
};

/// What may become of a task.
#[derive(Clone, Copy, PartialEq, Eq)]
pub struct Fate {
    /// It may begin.
    pub runs: bool,
    /// How the paths of its body end.
    pub verdicts: Verdicts,
    /// How it may end.
    pub ends: Finals,
}

/// What may become of each task of a graph, 8 kilobytes long.
#[derive(Drop)]
pub struct Outline {
    fates: [Fate; MOST_TASKS as usize],
    /// How the tasks may end once more, by the way in which they do.
    ways: Ways,
}

impl Outline {
    /// Nothing is known of any task.
    pub fn unsettled() -> Outline
        ensures { (t : ℕ) → fate_of result t ≡ unsettled }
    {
        Outline {
            fates: [UNSETTLED; MOST_TASKS as usize],
            ways: Ways::none(),
        }
    }

    /// A copy.
    pub fn copy(&self) -> Outline
        ensures { result ≡ self.now }
    {
        Outline {
            fates: self.fates,
            ways: self.ways,
        }
    }

    /// What may become of the task. No task from `MOST_TASKS` on may begin or end.
    pub fn fate(&self, task: TaskId) -> Fate
        ensures { result ≡ fate_of self.now task.0 }
    {
        let at = task.0 as usize;
        if at < MOST_TASKS as usize {
            self.fates[at]
        } else {
            UNSETTLED
        }
    }

    /// Sets what may become of the task.
    pub(crate) fn settle(&mut self, task: TaskId, fate: Fate)
        requires { task.0 < MOST_TASKS }
        ensures settled { fate_of self.new task.0 ≡ fate }
        ensures others { (t : ℕ) → t ≢ task.0 → fate_of self.new t ≡ fate_of self.old t }
    {
        self.fates[task.0 as usize] = fate;
        self.ways.set(task, fate.ends);
    }

    /// How the subject of a continuation may have ended: one of the arguments of a WhenAny task,
    /// else the antecedent in the ways after which the continuation runs.
    pub(crate) fn subject(&self, setting: Setting<'_>, task: TaskId) -> Finals
        requires { is_task setting.graph.now.graph task.0 }
    {
        let graph = setting.graph;
        match graph.role(task) {
            Role::Then(antecedent) => match graph.role(antecedent) {
                Role::Any(_) => self.ways.of_one(setting.followers.args(antecedent)),
                _ => allowed(self.fate(antecedent).ends, graph.options(task)),
            },
            _ => NO_END,
        }
    }

    /// Of the tasks those that may end.
    pub(crate) fn ending(&self, tasks: &Bits) -> Bits {
        self.ways.ending(tasks)
    }

    /// How the task may end, without the ways that the branch cuts off or that what is given leaves out.
    pub(crate) fn ends(&self, setting: Setting<'_>, task: TaskId) -> Finals
        requires { is_task setting.graph.now.graph task.0 }
        ensures { (f : Final) → has result f ≡ true
            → end_left (assumed_of setting.entry.assumed.now) task.0 f ≡ true }
    {
        let assumed = setting.assumed;
        let found = match setting.graph.role(task) {
            Role::Root => self.ready_ends(setting, task),
            Role::Child => self.ready_ends(setting, task),
            Role::Then(antecedent) => self.continued_ends(setting, task, antecedent),
            Role::All(_) => self.ways.of_all(setting.followers.args(task)),
            Role::Any(_) => Finals {
                ran: self.ways.any_ends(setting.followers.args(task)),
                ..NO_END
            },
        };
        Finals {
            ran: found.ran && assumed.may_end(task, Final::RanToCompletion),
            canceled: found.canceled && assumed.may_end(task, Final::Canceled),
            faulted: found.faulted && assumed.may_end(task, Final::Faulted),
        }
    }

    /// A root or a started child ends as its body does, or is canceled before its body begins.
    fn ready_ends(&self, setting: Setting<'_>, task: TaskId) -> Finals
        requires { is_task setting.graph.now.graph task.0 }
    {
        let ends = self.body_ends(setting, task);
        let canceled = self.fate(task).runs && setting.assumed.is_loud(setting.graph, task);
        Finals {
            canceled: ends.canceled || canceled,
            ..ends
        }
    }

    /// A continuation ends as its body does, or is canceled without it: by its token, or since its
    /// options exclude how its antecedent ends.
    fn continued_ends(&self, setting: Setting<'_>, task: TaskId, antecedent: TaskId) -> Finals
        requires { is_task setting.graph.now.graph task.0 }
    {
        let ends = self.body_ends(setting, task);
        let before = self.fate(antecedent).ends;
        let options = setting.graph.options(task);
        let by_token = !options.lazy_cancellation() || some_end(before);
        let canceled = by_token && setting.assumed.is_loud(setting.graph, task);
        Finals {
            canceled: ends.canceled || canceled || some_end(excluded(before, options)),
            ..ends
        }
    }

    /// How the body of a task that may begin ends it; it takes over what an attached child throws.
    fn body_ends(&self, setting: Setting<'_>, task: TaskId) -> Finals
        requires { is_task setting.graph.now.graph task.0 }
    {
        let fate = self.fate(task);
        if !fate.runs {
            return NO_END;
        }
        Finals {
            ran: fate.verdicts.returned,
            canceled: fate.verdicts.acknowledged,
            faulted: fate.verdicts.thrown || self.one_faults(setting.graph.attached(task)),
        }
    }

    /// One of the tasks may be faulted.
    fn one_faults(&self, tasks: &[TaskId]) -> bool {
        tasks.iter().any(|task| self.fate(*task).ends.faulted)
    }
}
