//! The making of an outline, from nothing or from what a split changes.

ghost use Rattle.std.specs.Prelude.{◌≡◌, ℕ, ◌<◌, false, All};
ghost use Rattle.tpl_checker.specs.Prelude.{assumed_of};
ghost use Rattle.tpl_model.specs.Prelude.{is_task, mem};
ghost use Rattle.tpl_outline.specs.Prelude.{IsOpen, IsStageOf, KeepsOthers, fate_of, task_of};

use crate::bits::Bits;
use crate::outline::{Fate, Outline};
use crate::setting::Setting;
use crate::stages::Stage;
use tpl_checker::{allowed, parent, some_end};
use tpl_graph::{Graph, Role};
use tpl_model::{TaskId, TaskSet};

/// What is assumed beyond what an outline was made under.
#[derive(Clone, Copy, PartialEq, Eq)]
pub enum Beyond {
    /// More of how this task ends.
    End(TaskId),
    /// More of how tasks end.
    Ends,
    /// More of anything, inputs too.
    All,
}

/// A pass over the tasks that finds what may become of them.
#[derive(Drop)]
struct Pass {
    outline: Outline,
    /// Each body is read, not only those that see what has changed.
    all: bool,
    /// The tasks whose fate may be another than before.
    due: Bits,
    /// The tasks whose bodies have been read.
    read: Bits,
    /// The children that those bodies may start.
    started: TaskSet,
    /// The tasks that may end otherwise than before.
    moved: Bits,
}

/// What becomes of all tasks under what is assumed.
pub(crate) fn whole_outline(setting: Setting<'_>) -> Outline
    requires { All (IsStageOf setting.graph.now.graph) setting.stages.now }
{
    let mut pass = Pass::from(Outline::unsettled(), Beyond::All);
    for stage in setting.stages {
        pass.take(setting, *stage);
    }
    let Pass { outline, .. } = pass;
    outline
}

/// What becomes of these tasks under what is assumed; they are those that bear on a property. It
/// begins with an outline where less is assumed, and looks only at the tasks that may be touched by
/// what is assumed beyond that. Which ways to end remain of those that are open no clause says.
pub fn outline_under(
    setting: Setting<'_>,
    tasks: &TaskSet,
    from: &Outline,
    beyond: Beyond,
) -> Outline
    requires { All (IsStageOf setting.graph.now.graph) setting.stages.now }
    ensures others { (t : ℕ) → mem t tasks.now ≡ false → fate_of result t ≡ fate_of from.now t }
    ensures ends { IsOpen (assumed_of setting.entry.assumed.now) from.now result }
{
    let mut pass = Pass::from(from.copy(), beyond);
    for stage in setting.stages {
        if tasks.contains(stage.task()) {
            pass.take(setting, *stage);
        }
    }
    let Pass { outline, .. } = pass;
    outline
}

/// The tasks whose fate may be another at once.
fn due_at_first(beyond: Beyond) -> Bits {
    match beyond {
        Beyond::End(task) => {
            let mut due = Bits::none();
            due.insert(task);
            due
        }
        Beyond::Ends | Beyond::All => Bits::all(),
    }
}

impl Pass {
    /// Before the first stage.
    fn from(outline: Outline, beyond: Beyond) -> Pass
        ensures { result.outline ≡ outline }
    {
        Pass {
            outline,
            all: beyond == Beyond::All,
            due: due_at_first(beyond),
            read: Bits::none(),
            started: TaskSet::empty(),
            moved: Bits::none(),
        }
    }

    fn take(&mut self, setting: Setting<'_>, stage: Stage)
        requires { IsStageOf setting.graph.now.graph stage }
        ensures others { KeepsOthers (task_of stage) self.old.outline self.new.outline }
        ensures ends { IsOpen (assumed_of setting.entry.assumed.now) self.old.outline
            self.new.outline }
    {
        if !self.due.has(stage.task()) {
            return;
        }
        match stage {
            Stage::Begin(task) => self.begin(setting, task),
            Stage::End(task) => self.end(setting, task),
        }
    }

    /// Finds whether the task may begin and how its body ends, if that may have changed.
    fn begin(&mut self, setting: Setting<'_>, task: TaskId)
        requires { is_task setting.graph.now.graph task.0 }
        ensures others { KeepsOthers task.0 self.old.outline self.new.outline }
        ensures ends { IsOpen (assumed_of setting.entry.assumed.now) self.old.outline
            self.new.outline }
    {
        let graph = setting.graph;
        graph.valid_law();
        if !self.sees_change(setting, task) {
            return;
        }
        let runs = self.may_begin(graph, task);
        let subject = self.outline.subject(setting, task);
        let view = setting.assumed.view(graph.own_token(task), subject);
        let body = graph.body(task);
        let verdicts = tpl_model::may(body, &view);
        let started = tpl_model::may_start_all(body, &view);
        let ends = self.outline.fate(task).ends;
        self.outline.settle(
            task,
            Fate {
                runs,
                verdicts,
                ends,
            },
        );
        self.read.insert(task);
        self.started = self.started.union(&started);
        self.due.insert_all(setting.followers.children(task));
    }

    /// Finds how the task may end.
    fn end(&mut self, setting: Setting<'_>, task: TaskId)
        requires { is_task setting.graph.now.graph task.0 }
        ensures others { KeepsOthers task.0 self.old.outline self.new.outline }
        ensures ends { IsOpen (assumed_of setting.entry.assumed.now) self.old.outline
            self.new.outline }
    {
        setting.graph.valid_law();
        let fate = self.outline.fate(task);
        let ends = self.outline.ends(setting, task);
        if ends != fate.ends {
            self.outline.settle(task, Fate { ends, ..fate });
            self.moved.insert(task);
            self.due.add(setting.followers.watchers(task));
        }
    }

    /// The task begins otherwise, or its body sees something else than before.
    fn sees_change(&self, setting: Setting<'_>, task: TaskId) -> bool
        requires { is_task setting.graph.now.graph task.0 }
    {
        if self.all {
            return true;
        }
        match setting.graph.role(task) {
            Role::Then(antecedent) => {
                self.moved.has(antecedent) || self.winner_moved(setting, antecedent)
            }
            Role::Child => match parent(setting.graph, task) {
                None => false,
                Some(parent) => self.read.has(parent),
            },
            _ => false,
        }
    }

    /// The task is a WhenAny task, one of whose arguments may end otherwise than before.
    fn winner_moved(&self, setting: Setting<'_>, task: TaskId) -> bool
        requires { is_task setting.graph.now.graph task.0 }
    {
        match setting.graph.role(task) {
            Role::Any(_) => self.moved.meets(setting.followers.args(task)),
            _ => false,
        }
    }

    /// The task may begin: a root, a continuation whose options allow an end of its antecedent, or
    /// a child that its parent may start.
    fn may_begin(&self, graph: &Graph, task: TaskId) -> bool
        requires { is_task graph.now.graph task.0 }
    {
        match graph.role(task) {
            Role::Root => true,
            Role::Then(antecedent) => {
                let ends = self.outline.fate(antecedent).ends;
                some_end(allowed(ends, graph.options(task)))
            }
            Role::Child => match parent(graph, task) {
                None => false,
                Some(parent) => self.outline.fate(parent).runs && self.started.contains(task),
            },
            Role::All(_) | Role::Any(_) => false,
        }
    }
}
