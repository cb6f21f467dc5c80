//! The names that a draft declares, none of which stands twice.

ghost use Rattle.std.specs.Prelude.{◌≡◌, false, map, string_bytes, IfOk, IfErr, OnOk};
ghost use Rattle.tpl_draft.specs.Prelude.{AreDeclared, NoneBelow, Refuses, draft_of, names_of, number, some_twice, task_of};
ghost use Rattle.tpl_draft.specs.declared.fault.Why.TheVariants.{Memory, NameTwice, Unknown};
ghost use Rattle.tpl_draft.specs.SeenTasks.{token_of};

use crate::ask::Declared;
use crate::draft::{Draft, DraftTask, DraftToken};
use crate::fault::{GraphFault, Why};
use crate::names::{Names, NamesFault, number_names};
use std::alloc::{AllocError, Global};

fn token_names(alloc: Global, tokens: &[DraftToken]) -> Result<Vec<String>, AllocError>
    ensures { IfOk result (λ v. map string_bytes v.items
        ≡ map (λ k. k.name) (map token_of tokens.now)) }
{
    let mut names = Vec::new(alloc);
    for token in tokens {
        names.push(token.name.clone()?)?;
    }
    Ok(names)
}

fn task_names(alloc: Global, tasks: &[DraftTask]) -> Result<Vec<String>, AllocError>
    ensures { IfOk result (λ v. map string_bytes v.items
        ≡ map (λ t. t.name) (map task_of tasks.now)) }
{
    let mut names = Vec::new(alloc);
    for task in tasks {
        names.push(task.name.clone()?)?;
    }
    Ok(names)
}

fn twice_at(at: usize) -> GraphFault
    ensures { result ≡ record { why = NameTwice; at = at } }
{
    GraphFault {
        why: Why::NameTwice,
        at,
    }
}

fn memory() -> GraphFault
    ensures { result ≡ record { why = Memory; at = 0 } }
{
    GraphFault {
        why: Why::Memory,
        at: 0,
    }
}

fn declare_inputs(alloc: Global, draft: &Draft) -> Result<Names, GraphFault>
    requires { NoneBelow (draft_of draft.now) (number NameTwice) }
    ensures names { IfOk result (λ n. n ≡ (names_of (draft_of draft.now)).inputs) }
    ensures none { OnOk result (some_twice (names_of (draft_of draft.now)).inputs ≡ false) }
    ensures fault { IfErr result (Refuses (draft_of draft.now)) }
{
    match number_names(alloc, &draft.inputs) {
        Ok(names) => Ok(names),
        Err(NamesFault::Twice(_)) => Err(twice_at(0)),
        Err(NamesFault::Memory) => Err(memory()),
    }
}

fn declare_tokens(alloc: Global, draft: &Draft) -> Result<Names, GraphFault>
    requires { NoneBelow (draft_of draft.now) (number NameTwice) }
    ensures names { IfOk result (λ n. n ≡ (names_of (draft_of draft.now)).tokens) }
    ensures none { OnOk result (some_twice (names_of (draft_of draft.now)).tokens ≡ false) }
    ensures fault { IfErr result (Refuses (draft_of draft.now)) }
{
    let list = token_names(alloc, &draft.tokens)?;
    match number_names(alloc, &list) {
        Ok(names) => Ok(names),
        Err(NamesFault::Twice(_)) => Err(twice_at(0)),
        Err(NamesFault::Memory) => Err(memory()),
    }
}

fn declare_tasks(alloc: Global, draft: &Draft) -> Result<Names, GraphFault>
    requires before { NoneBelow (draft_of draft.now) (number NameTwice) }
    requires inputs { some_twice (names_of (draft_of draft.now)).inputs ≡ false }
    requires tokens { some_twice (names_of (draft_of draft.now)).tokens ≡ false }
    ensures names { IfOk result (λ n. n ≡ (names_of (draft_of draft.now)).tasks) }
    ensures none { OnOk result (NoneBelow (draft_of draft.now) (number Unknown)) }
    ensures once { OnOk result (some_twice (names_of (draft_of draft.now)).tasks ≡ false) }
    ensures fault { IfErr result (Refuses (draft_of draft.now)) }
{
    let list = task_names(alloc, &draft.tasks)?;
    match number_names(alloc, &list) {
        Ok(names) => Ok(names),
        Err(NamesFault::Twice(t)) => Err(twice_at(t + 1)),
        Err(NamesFault::Memory) => Err(memory()),
    }
}

/// The declared names, none of which stands twice.
pub fn declare(alloc: Global, draft: &Draft) -> Result<Declared, GraphFault>
    requires { NoneBelow (draft_of draft.now) (number NameTwice) }
    ensures names { IfOk result (AreDeclared (draft_of draft.now)) }
    ensures none { OnOk result (NoneBelow (draft_of draft.now) (number Unknown)) }
    ensures inputs { OnOk result (some_twice (names_of (draft_of draft.now)).inputs ≡ false) }
    ensures tokens { OnOk result (some_twice (names_of (draft_of draft.now)).tokens ≡ false) }
    ensures tasks { OnOk result (some_twice (names_of (draft_of draft.now)).tasks ≡ false) }
    ensures fault { IfErr result (Refuses (draft_of draft.now)) }
{
    let inputs = declare_inputs(alloc, draft)?;
    let tokens = declare_tokens(alloc, draft)?;
    let tasks = declare_tasks(alloc, draft)?;
    Ok(Declared {
        inputs,
        tokens,
        tasks,
    })
}
