//! The tables of labels and sites.

ghost use Rattle.std.specs.Prelude.{◌≡◌, [], map, flat_map, None, IfOk, IfErr, OnOk, false};
ghost use Rattle.tpl_draft.specs.Prelude.{FaultIsTwice, IsFirst, all_named, applies, draft_of, names_in, sites_of, some_twice, statements_in, task_of, twice_after, with_names};
ghost use Rattle.tpl_draft.specs.declared.fault.Why.TheVariants.{SiteTwice};
ghost use Rattle.tpl_draft.specs.declared.sort.Sort.TheVariants.{Labels, Sites};

use crate::collect::add_names;
use std::alloc::{AllocError, Global};
use tpl_draft::{Draft, DraftKind, DraftTask, Names, NamesFault, Sort};

/// Adds the names of a sort in a task, and says whether one of them stood there before.
fn add_task(names: &mut Names, task: &DraftTask, sort: Sort) -> Result<bool, AllocError>
    ensures names { OnOk result (names.new ≡ with_names names.old
        (flat_map (names_in sort) (statements_in (task_of task.now)))) }
    ensures twice { IfOk result (λ twice. twice ≡ twice_after names.old
        (flat_map (names_in sort) (statements_in (task_of task.now)))) }
{
    match &task.kind {
        DraftKind::Root(work) | DraftKind::Child(work) | DraftKind::Then(_, work) => {
            add_names(names, &work.body, sort)
        }
        _ => Ok(false),
    }
}

/// The labels of all tasks, by their first `throw`.
pub(crate) fn label_table(alloc: Global, tasks: &[DraftTask]) -> Result<Names, AllocError>
    ensures { IfOk result (λ n. n ≡ with_names [] (all_named Labels (map task_of tasks.now))) }
{
    let mut names = Names::new(alloc);
    for task in tasks {
        add_task(&mut names, task, Sort::Labels)?;
    }
    Ok(names)
}

/// The sites of all tasks, in the order of the text. The first task with a site that stands before it is refused.
pub(crate) fn site_table(alloc: Global, draft: &Draft) -> Result<Names, NamesFault>
    ensures names { IfOk result (λ n. n ≡ with_names [] (sites_of (draft_of draft.now).tasks)) }
    ensures once { OnOk result (some_twice (sites_of (draft_of draft.now).tasks) ≡ false) }
    ensures none { OnOk result (IsFirst (applies (draft_of draft.now) SiteTwice) None) }
    ensures twice { IfErr result (FaultIsTwice (draft_of draft.now)) }
{
    let mut names = Names::new(alloc);
    for (t, task) in draft.tasks.iter().enumerate() {
        if add_task(&mut names, task, Sort::Sites)? {
            return Err(NamesFault::Twice(t));
        }
    }
    Ok(names)
}
