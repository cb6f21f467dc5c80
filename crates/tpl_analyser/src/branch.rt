//! A branch of the search: the splits above it, what they assume, and what then becomes of the
//! tasks.

ghost use Rattle.std.specs.Prelude.{◌≡◌, ◌<◌};
ghost use Rattle.tpl_analyser.specs.Prelude.{IsReady};
ghost use Rattle.tpl_checker.specs.Prelude.{assumed_of};
ghost use Rattle.tpl_model.specs.Prelude.{is_task, with_end, with_input};

use crate::premises::Premises;
use crate::question::Question;
use crate::split::{Split, Turn};
use crate::splits::Splits;
use crate::win::Win;
use tpl_checker::Assumptions;
use tpl_model::{Final, Finals, InputId, MOST_INPUTS, Property, TaskId};
use tpl_outline::{Beyond, NO_END, Outline, Setting, has_chain, is_proved, outline_under};

/// A branch of the search.
#[derive(Drop)]
pub(crate) struct Branch {
    pub(crate) premises: Premises,
    /// What becomes of the tasks that bear on the property.
    pub(crate) outline: Outline,
    /// The task that the property says to be observed, if it says so of one, has a chain.
    has_chain: bool,
    /// The splits above it.
    above: Splits,
}

/// The task that the property says to be observed has a chain.
fn has_chain_for(setting: Setting<'_>, property: Property) -> bool {
    match property {
        Property::Observed(task) => has_chain(setting, task),
        _ => false,
    }
}

impl Branch {
    /// The root branch, on which this is assumed.
    pub(crate) fn root(question: Question<'_>, assumed: Assumptions) -> Branch
        requires { IsReady question }
        ensures { result.premises.assumptions ≡ assumed }
    {
        let premises = Premises::only(assumed);
        let setting = question.setting(&premises.assumptions);
        let tasks = &question.cone.tasks;
        let outline = outline_under(setting, tasks, &Outline::unsettled(), Beyond::All);
        let has_chain = has_chain_for(setting, question.property);
        Branch {
            premises,
            outline,
            has_chain,
            above: Splits::none(),
        }
    }

    /// The branch below this one on which the input has this value.
    pub(crate) fn with_input(&self, question: Question<'_>, input: InputId, value: bool) -> Branch
        requires question { IsReady question }
        requires input { input.0 < MOST_INPUTS }
        ensures { assumed_of result.premises.assumptions
            ≡ with_input (assumed_of self.now.premises.assumptions) input.0 value }
    {
        let assumed = self.premises.assumptions.with_input(input, value);
        let mut branch = self.under(question, self.premises.with(assumed), Beyond::All);
        branch.above.insert(Split::Input(input));
        branch
    }

    /// The branch below this one on which the task, if it ends, does so in this way.
    pub(crate) fn with_end(&self, question: Question<'_>, task: TaskId, status: Final) -> Branch
        requires question { IsReady question }
        requires task { is_task question.graph.now.graph task.0 }
        ensures { assumed_of result.premises.assumptions
            ≡ with_end (assumed_of self.now.premises.assumptions) task.0 status }
    {
        question.graph.valid_law();
        let assumed = self.premises.assumptions.with_end(task, status);
        let mut branch = self.under(question, self.premises.with(assumed), Beyond::End(task));
        branch.above.insert(Split::End(task));
        branch
    }

    /// The branch below this one on which the argument wins the task, or another one does.
    pub(crate) fn with_winner(&self, question: Question<'_>, win: Win, wins: bool) -> Branch
        requires { IsReady question }
    {
        let mut branch = self.turned(question, Turn::Winner(win, wins));
        branch.above.insert(Split::Winner(win));
        branch
    }

    /// A copy.
    pub(crate) fn copy(&self) -> Branch {
        Branch {
            premises: self.premises.copy(),
            outline: self.outline.copy(),
            has_chain: self.has_chain,
            above: self.above.copy(),
        }
    }

    /// The branch with these assumptions: those of this one, and beyond them such as are said.
    pub(crate) fn under(&self, question: Question<'_>, premises: Premises, beyond: Beyond) -> Branch
        requires question { IsReady question }
        ensures { result.premises ≡ premises }
    {
        let setting = question.setting(&premises.assumptions);
        let outline = outline_under(setting, &question.cone.tasks, &self.outline, beyond);
        let has_chain = match beyond {
            Beyond::All => has_chain_for(setting, question.property),
            Beyond::End(_) | Beyond::Ends => self.has_chain,
        };
        Branch {
            premises,
            outline,
            has_chain,
            above: self.above.copy(),
        }
    }

    /// The branch on which this branch of a split is assumed too. The split isn't counted among those above.
    pub(crate) fn turned(&self, question: Question<'_>, turn: Turn) -> Branch
        requires { IsReady question }
    {
        let mut premises = self.premises.copy();
        turn.assume(&mut premises);
        self.under(question, premises, turn.beyond())
    }

    /// Whether the least rows of the branch prove the property, as far as they say nothing of tokens and of winners.
    pub(crate) fn is_proved(&self, question: Question<'_>) -> bool {
        let setting = question.setting(&self.premises.assumptions);
        let tasks = &question.cone.tasks;
        is_proved(
            setting,
            &self.outline,
            question.property,
            tasks,
            self.has_chain,
        )
    }

    /// This split isn't among those above.
    pub(crate) fn may_split(&self, split: Split) -> bool {
        !self.above.contains(split)
    }

    /// The split changes nothing: on one of its branches all that bears on the property is as it is without
    /// the split.
    pub(crate) fn changes_nothing(&self, question: Question<'_>, split: Split) -> bool {
        let has_one_branch = match split {
            Split::Input(_) | Split::Winner(_) => false,
            Split::End(task) => {
                let Finals {
                    ran,
                    canceled,
                    faulted,
                } = self.outline.fate(task).ends;
                !(ran && canceled || ran && faulted || canceled && faulted)
            }
        };
        has_one_branch || !question.cone.bears(split)
    }

    /// What is assumed here leaves this branch of a split open.
    pub(crate) fn may_turn(&self, turn: Turn) -> bool {
        match turn {
            Turn::Input(input, value) => {
                let view = self.premises.assumptions.view(None, NO_END);
                view.may_be(input, value)
            }
            Turn::End(task, status) => self.outline.fate(task).ends.contains(status),
            Turn::Winner(_, _) => true,
        }
    }
}
