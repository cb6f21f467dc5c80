//! Which tasks are looked at again after an event: each for which it may change what is due.

ghost use Rattle.std.specs.Prelude.{◌≡◌, ℕ, ◌≤◌, length, map, slice_index_or, true, false, Some, None, option_map};
ghost use Rattle.tpl_draft.specs.Prelude.{task_number, token_number};
ghost use Rattle.tpl_fast.specs.Due.{IsRight, IsOpenRight, Keeps, AreTold, waits, ender};
ghost use Rattle.tpl_model.specs.Prelude.{is_set, is_task, is_token, mem, requested};
ghost use Rattle.tpl_model.specs.Graph as spec;

use crate::bits::Bits;
use crate::links::Links;
use crate::state::State;
use tpl_model::{Act, MOST_TOKENS, TaskId, TokenId};
use tpl_run::Readers;
use tpl_run::due::is_due;
use tpl_run::ends::is_done;

/// The task that an act may end.
pub(crate) fn ender_of(act: Act) -> Option<TaskId>
    ensures { option_map task_number result ≡ ender act }
{
    match act {
        Act::Leave(task) => Some(task),
        Act::Close(task) => Some(task),
        Act::Drop(task) => Some(task),
        Act::Settle(task) => Some(task),
        _ => None,
    }
}

/// Recomputes whether the task has something due.
fn refresh(due: &mut Bits, state: &State, task: TaskId)
    ensures told { is_task state.now.graph task.0 → IsRight state.now due.new task.0 }
    ensures kept { Keeps state.now (λ t s. IsRight state.now s t) due.old due.new }
{
    state.run_law();
    if state.has_task(task) {
        let is_due = is_due(state, task);
        due.put(task, is_due);
    }
}

/// Recomputes for each of the tasks whether it has something due.
fn refresh_each(due: &mut Bits, state: &State, tasks: &[TaskId])
    ensures told { (t : ℕ) → mem t (map task_number tasks.now) ≡ true → is_task state.now.graph t
        → IsRight state.now due.new t }
    ensures kept { Keeps state.now (λ t s. IsRight state.now s t) due.old due.new }
{
    for task in tasks {
        refresh(due, state, *task);
    }
}

/// Recomputes whether the task has something due, if there is one.
pub(crate) fn tell(due: &mut Bits, state: &State, task: Option<TaskId>)
    ensures told { (t : ℕ) → option_map task_number task ≡ Some t → is_task state.now.graph t
        → IsRight state.now due.new t }
    ensures kept { Keeps state.now (λ t s. IsRight state.now s t) due.old due.new }
{
    if let Some(task) = task {
        refresh(due, state, task);
    }
}

/// Recomputes for those that wait for a task whether they have something due.
pub(crate) fn tell_waiters(due: &mut Bits, state: &State, links: &Links, task: Option<TaskId>)
    requires { AreTold state.now.graph links.now.waiters.items links.now.owners.items }
    ensures told { (t x : ℕ) → option_map task_number task ≡ Some x
        → waits state.now.graph t x ≡ true → is_task state.now.graph t → is_task state.now.graph x
        → IsRight state.now due.new t }
    ensures kept { Keeps state.now (λ t s. IsRight state.now s t) due.old due.new }
{
    if let Some(task) = task {
        refresh_each(due, state, links.waiters(task));
    }
}

/// Those that wait for a task look on from the first argument that hasn't ended.
pub(crate) fn advance_waiters(state: &mut State, links: &Links, task: Option<TaskId>)
    ensures { state.new ≡ state.old }
{
    if let Some(task) = task {
        state.advance_each(links.waiters(task));
    }
}

/// Recomputes what is due for the tasks with this own token, if it wasn't requested before.
fn tell_owners(due: &mut Bits, state: &State, links: &Links, token: TokenId, before: bool)
    requires token { is_token state.now.graph token.0 }
    requires links { AreTold state.now.graph links.now.waiters.items links.now.owners.items }
    ensures told { let j = state.now in (t : ℕ) → (spec.task j.graph t).token ≡ Some token.0
        → is_task j.graph t → (requested j.graph j.inputs j.events token.0 ≡ before → ⊥)
        → IsRight j due.new t }
    ensures kept { Keeps state.now (λ t s. IsRight state.now s t) due.old due.new }
{
    if state.asked(token) != before {
        refresh_each(due, state, links.owners(token));
    }
}

/// Recomputes what is due for the tasks whose own token is requested now and wasn't before.
fn tell_all_owners(due: &mut Bits, state: &State, links: &Links, before: &[bool; MOST_TOKENS])
    requires { AreTold state.now.graph links.now.waiters.items links.now.owners.items }
    ensures told { let j = state.now in (t k : ℕ) → (spec.task j.graph t).token ≡ Some k
        → is_task j.graph t → is_token j.graph k → (requested j.graph j.inputs j.events k
        ≡ slice_index_or before.now k false → ⊥) → IsRight j due.new t }
    ensures kept { Keeps state.now (λ t s. IsRight state.now s t) due.old due.new }
{
    for i in 0..state.graph().token_count() {
        tell_owners(due, state, links, TokenId(i as u8), before[i]);
    }
}

/// Recomputes what is due for the tasks whose own token an event requested, itself or through a link. `token` is the
/// one that it requested itself, if any.
pub(crate) fn tell_requested(
    due: &mut Bits,
    state: &State,
    links: &Links,
    before: &[bool; MOST_TOKENS],
    token: Option<TokenId>,
)
    requires links { AreTold state.now.graph links.now.waiters.items links.now.owners.items }
    requires none { option_map token_number token ≡ None → let j = state.now in
        (k : ℕ) → is_token j.graph k → requested j.graph j.inputs j.events k
        ≡ slice_index_or before.now k false }
    ensures told { let j = state.now in (t k : ℕ) → (spec.task j.graph t).token ≡ Some k
        → is_task j.graph t → is_token j.graph k → (requested j.graph j.inputs j.events k
        ≡ slice_index_or before.now k false → ⊥) → IsRight j due.new t }
    ensures kept { Keeps state.now (λ t s. IsRight state.now s t) due.old due.new }
{
    if token.is_some() {
        tell_all_owners(due, state, links, before);
    }
}

/// Recomputes whether the task must still end, if there is one.
pub(crate) fn note_open(unended: &mut Bits, state: &State, task: Option<TaskId>)
    ensures told { (t : ℕ) → option_map task_number task ≡ Some t → is_task state.now.graph t
        → IsOpenRight state.now unended.new t }
    ensures kept { Keeps state.now (λ t s. IsOpenRight state.now s t) unended.old unended.new }
{
    state.run_law();
    if let Some(task) = task
        && state.has_task(task)
    {
        let is_done = is_done(state, task);
        unended.put(task, !is_done);
    }
}

/// The tasks that have something due.
pub(crate) fn all_due(state: &State) -> Bits
    ensures each { (t : ℕ) → is_task state.now.graph t → IsRight state.now result t }
    ensures none { (t : ℕ) → length state.now.graph.tasks ≤ t → is_set result t ≡ false }
{
    let mut due = Bits::none();
    for i in 0..state.graph().len() {
        refresh(&mut due, state, TaskId(i as u16));
    }
    due
}

/// The tasks that must still end.
pub(crate) fn all_open(state: &State) -> Bits
    ensures each { (t : ℕ) → is_task state.now.graph t → IsOpenRight state.now result t }
    ensures none { (t : ℕ) → length state.now.graph.tasks ≤ t → is_set result t ≡ false }
{
    let mut unended = Bits::none();
    for i in 0..state.graph().len() {
        note_open(&mut unended, state, Some(TaskId(i as u16)));
    }
    unended
}
