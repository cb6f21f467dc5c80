//! What the graph of a run says of tasks and tokens. In a run the graph is valid, so what it names it has.

ghost use Rattle.std.specs.Prelude.{◌≡◌, ◌↔◌, ℕ, ◌≤◌, length, map, IfSome, IsTrue, true, option_map};
ghost use Rattle.tpl_draft.specs.Prelude.{antecedent_of, args_of, task_number, token_number};
ghost use Rattle.tpl_model.specs.Prelude.{attached, is_task, is_token, mem};
ghost use Rattle.tpl_model.specs.Graph as spec;

use crate::readers::Readers;
use tpl_laws::is_bounded;
use tpl_model::{MOST_EVENTS, TaskId, TokenId};

/// The graph has the task.
pub fn has_task<R: Readers>(run: &R, task: TaskId) -> bool
    ensures { IsTrue result ↔ is_task (R.journal run.now).graph task.0 }
{
    (task.0 as usize) < run.graph().len()
}

/// The graph has the token.
pub(crate) fn has_token<R: Readers>(run: &R, token: TokenId) -> bool
    ensures { IsTrue result ↔ is_token (R.journal run.now).graph token.0 }
{
    (token.0 as usize) < run.graph().token_count()
}

/// The task that a continuation continues.
pub(crate) fn antecedent<R: Readers>(run: &R, task: TaskId) -> Option<TaskId>
    requires { is_task (R.journal run.now).graph task.0 }
    ensures antecedent { option_map task_number result
        ≡ antecedent_of (spec.kind (R.journal run.now).graph task.0) }
    ensures within { IfSome result (λ a. is_task (R.journal run.now).graph a.0) }
{
    run.run_law();
    run.graph().antecedent(task)
}

/// The arguments of a WhenAll or WhenAny task.
pub fn args<R: Readers>(run: &R, task: TaskId) -> &[TaskId]
    requires { is_task (R.journal run.now).graph task.0 }
    ensures { map task_number result.now
        ≡ args_of (spec.kind (R.journal run.now).graph task.0) }
{
    run.graph().args(task)
}

/// The task's own token.
pub(crate) fn own_token<R: Readers>(run: &R, task: TaskId) -> Option<TokenId>
    requires { is_task (R.journal run.now).graph task.0 }
    ensures token { option_map token_number result
        ≡ (spec.task (R.journal run.now).graph task.0).token }
    ensures within { IfSome result (λ k. is_token (R.journal run.now).graph k.0) }
{
    run.run_law();
    run.graph().own_token(task)
}

/// The children that are attached to a task.
pub fn children<R: Readers>(run: &R, task: TaskId) -> &[TaskId]
    requires { is_task (R.journal run.now).graph task.0 }
    ensures children { map task_number result.now ≡ attached (R.journal run.now).graph task.0 }
    ensures within { (c : ℕ) → mem c (map task_number result.now) ≡ true
        → is_task (R.journal run.now).graph c }
{
    run.run_law();
    run.graph().attached(task)
}

/// No run is longer than its graph's bound.
pub fn is_short<R: Readers>(run: &R)
    ensures { length (R.journal run.now).events ≤ MOST_EVENTS }
{
    is_bounded();
    run.run_law();
    let _ = run.graph().bound();
}
