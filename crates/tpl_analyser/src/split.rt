//! The splits that a search may make, and their branches.

ghost use Rattle.std.specs.Prelude.{IfOk, OnOk, All};
ghost use Rattle.tpl_analyser.specs.Prelude.{IsSplitOf};
ghost use Rattle.tpl_model.specs.Prelude.{is_task};

use crate::premises::Premises;
use crate::win::{MOST_WINNERS, Win};
use std::alloc::{AllocError, Global};
use tpl_graph::{Graph, Role};
use tpl_model::{Final, InputId, MOST_INPUTS, MOST_TASKS, RuleSet, TaskId};
use tpl_outline::Beyond;

/// The most branches of a split.
const MOST_BRANCHES: usize = 3;

/// A split of the runs: by an input, by how a task ends, or by who wins a WhenAny task.
#[derive(Clone, Copy, PartialEq, Eq)]
pub(crate) enum Split {
    /// The value of an input.
    Input(InputId),
    /// How a task ends.
    End(TaskId),
    /// Whether an argument wins a WhenAny task.
    Winner(Win),
}

/// A branch of a split.
#[derive(Clone, Copy, PartialEq, Eq)]
pub(crate) enum Turn {
    /// The input has this value.
    Input(InputId, bool),
    /// The task, if it ends, does so in this way.
    End(TaskId, Final),
    /// The argument wins the WhenAny task, or another one does.
    Winner(Win, bool),
}

/// All splits of a graph by the rules in the order of the search: inputs, then ends of tasks, then by the rules with tokens
/// winners, as they are declared.
pub(crate) fn all_splits(
    alloc: Global,
    graph: &Graph,
    rules: RuleSet,
) -> Result<Vec<Split>, AllocError>
    ensures { IfOk result (λ v. All (IsSplitOf graph.now.graph) v.items) }
{
    let mut splits = Vec::new(alloc);
    for input in 0..graph.input_count() {
        splits.push(Split::Input(InputId(input as u8)))?;
    }
    push_ends(&mut splits, graph)?;
    if rules == RuleSet::WithTokens {
        push_winners(alloc, &mut splits, graph)?;
    }
    Ok(splits)
}

/// Adds the splits on how a task ends.
fn push_ends(splits: &mut Vec<Split>, graph: &Graph) -> Result<(), AllocError>
    requires { All (IsSplitOf graph.now.graph) splits.old.items }
    ensures { OnOk result (All (IsSplitOf graph.now.graph) splits.new.items) }
{
    for task in 0..graph.len() {
        splits.push(Split::End(TaskId(task as u16)))?;
    }
    Ok(())
}

/// Adds the splits on winners of the tasks that wait for more than one, as many as a search makes.
fn push_winners(alloc: Global, splits: &mut Vec<Split>, graph: &Graph) -> Result<(), AllocError>
    requires { All (IsSplitOf graph.now.graph) splits.old.items }
    ensures { OnOk result (All (IsSplitOf graph.now.graph) splits.new.items) }
{
    graph.valid_law();
    let most = splits.len() + MOST_WINNERS;
    for task in 0..graph.len() {
        let task = TaskId(task as u16);
        match graph.role(task) {
            Role::Any(args) if args.len() > 1 => push_winners_of(splits, graph, task, args, most)?,
            _ => {}
        }
    }
    Ok(())
}

/// Adds those on the winner of one of these tasks, while there are fewer than the most.
fn push_winners_of(
    splits: &mut Vec<Split>,
    graph: &Graph,
    task: TaskId,
    args: &[TaskId],
    most: usize,
) -> Result<(), AllocError>
    requires splits { All (IsSplitOf graph.now.graph) splits.old.items }
    requires task { is_task graph.now.graph task.0 }
    ensures { OnOk result (All (IsSplitOf graph.now.graph) splits.new.items) }
{
    for argument in args {
        if splits.len() < most {
            let argument = *argument;
            splits.push(Split::Winner(Win { task, argument }))?;
        }
    }
    Ok(())
}

impl Split {
    /// The branches of the split, in order.
    pub(crate) fn turns(self) -> [Option<Turn>; MOST_BRANCHES] {
        match self {
            Split::Input(input) => [
                Some(Turn::Input(input, true)),
                Some(Turn::Input(input, false)),
                None,
            ],
            Split::End(task) => [
                Some(Turn::End(task, Final::RanToCompletion)),
                Some(Turn::End(task, Final::Canceled)),
                Some(Turn::End(task, Final::Faulted)),
            ],
            Split::Winner(win) => [
                Some(Turn::Winner(win, true)),
                Some(Turn::Winner(win, false)),
                None,
            ],
        }
    }

    /// The first branch of the split.
    pub(crate) fn first(self) -> Turn {
        match self {
            Split::Input(input) => Turn::Input(input, true),
            Split::End(task) => Turn::End(task, Final::RanToCompletion),
            Split::Winner(win) => Turn::Winner(win, true),
        }
    }
}

impl Turn {
    /// The split of which this is a branch.
    pub(crate) fn split(self) -> Split {
        match self {
            Turn::Input(input, _) => Split::Input(input),
            Turn::End(task, _) => Split::End(task),
            Turn::Winner(win, _) => Split::Winner(win),
        }
    }

    /// Assumes it too.
    pub(crate) fn assume(self, premises: &mut Premises) {
        match self {
            Turn::Input(input, value) if (input.0 as usize) < MOST_INPUTS => {
                premises.assumptions = premises.assumptions.with_input(input, value);
            }
            Turn::End(task, status) if task.0 < MOST_TASKS => {
                premises.assumptions.assume_end(task, status);
            }
            Turn::Winner(win, wins) => premises.assume_winner(win.branch(wins)),
            _ => {}
        }
    }

    /// What is assumed beyond that.
    pub(crate) fn beyond(self) -> Beyond {
        match self {
            Turn::Input(_, _) => Beyond::All,
            Turn::End(task, _) => Beyond::End(task),
            Turn::Winner(_, _) => Beyond::Ends,
        }
    }
}

/// What is assumed on all of these branches, where this is assumed before them.
pub(crate) fn assumed_on(before: &Premises, turns: &[Turn]) -> Premises {
    let mut assumed = before.copy();
    for turn in turns {
        turn.assume(&mut assumed);
    }
    assumed
}
