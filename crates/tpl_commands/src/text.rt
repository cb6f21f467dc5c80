//! The lines that the program writes.

ghost use Rattle.std.specs.Prelude.{◌≡◌, ◌++◌, IfOk, string_bytes};
ghost use Rattle.tpl_commands.specs.Prelude.{claim_fails, ended, not_allowed, not_found, refused_claim, refused_leaf, refused_shape, rule_name, task_ended, unreadable, unreadable_at, unreadable_graph, unreadable_part, unreadable_start};

use std::alloc::{AllocError, Global};
use tpl_model::{Rule, Status};

/// The rule as it is printed.
fn rule_name(rule: Rule) -> &'static str
    ensures { result.now ≡ rule_name rule }
{
    match rule {
        Rule::K1 => "K1",
        Rule::K2 => "K2",
        Rule::K3 => "K3",
        Rule::K4 => "K4",
        Rule::K5 => "K5",
        Rule::K6 => "K6",
    }
}

pub(crate) fn refused_shape(alloc: Global, claim: usize) -> Result<String, AllocError>
    ensures { IfOk result (λ text. string_bytes text ≡ refused_shape claim) }
{
    format!(in alloc; "refused: shape claim {claim}\n")
}

pub(crate) fn refused_leaf(
    alloc: Global,
    claim: usize,
    leaf: usize,
    name: &str,
    rule: Rule,
) -> Result<String, AllocError>
    ensures { IfOk result (λ text. string_bytes text ≡ refused_leaf claim leaf name.now rule) }
{
    let rule = rule_name(rule);
    format!(in alloc; "refused: not closed claim {claim} leaf {leaf} task {name} rule {rule}\n")
}

pub(crate) fn refused_claim(alloc: Global, claim: usize, leaf: usize) -> Result<String, AllocError>
    ensures { IfOk result (λ text. string_bytes text ≡ refused_claim claim leaf) }
{
    format!(in alloc; "refused: claim {claim} leaf {leaf}\n")
}

pub(crate) fn not_found(alloc: Global, claim: usize) -> Result<String, AllocError>
    ensures { IfOk result (λ text. string_bytes text ≡ not_found claim) }
{
    format!(in alloc; "not found: claim {claim}\n")
}

/// The line that says whether each task has ended.
pub(crate) fn ended(complete: bool) -> &'static str
    ensures { result.now ≡ ended complete }
{
    if complete {
        "run complete\n"
    } else {
        "run not complete\n"
    }
}

/// The line that says whether each task has ended, and the one for a claim that fails.
pub(crate) fn failing(
    alloc: Global,
    complete: bool,
    claim: usize,
    place: usize,
) -> Result<String, AllocError>
    ensures { IfOk result (λ text. string_bytes text ≡ ended complete ++ claim_fails claim place) }
{
    let ended = ended(complete);
    format!(in alloc; "{ended}claim {claim} fails at {place}\n")
}

/// The lines so far, and the one for a task that has not ended as the document says.
pub(crate) fn task_ended(
    alloc: Global,
    so_far: &str,
    name: &str,
    status: Status,
) -> Result<String, AllocError>
    ensures { IfOk result (λ text. string_bytes text ≡ so_far.now ++ task_ended name.now status) }
{
    let status = status.name();
    format!(in alloc; "{so_far}task {name} ended {status}\n")
}

pub(crate) fn not_allowed(alloc: Global, place: usize) -> Result<String, AllocError>
    ensures { IfOk result (λ text. string_bytes text ≡ not_allowed place) }
{
    format!(in alloc; "not allowed at {place}\n")
}

pub(crate) fn unreadable(alloc: Global, what: &str) -> Result<String, AllocError>
    ensures { IfOk result (λ text. string_bytes text ≡ unreadable what.now) }
{
    format!(in alloc; "unreadable: {what}\n")
}

pub(crate) fn unreadable_part(
    alloc: Global,
    part: &str,
    number: usize,
    why: &str,
) -> Result<String, AllocError>
    ensures { IfOk result (λ text. string_bytes text ≡ unreadable_part part.now number why.now) }
{
    format!(in alloc; "unreadable: {part} {number} {why}\n")
}

pub(crate) fn unreadable_at(alloc: Global, part: &str, number: usize) -> Result<String, AllocError>
    ensures { IfOk result (λ text. string_bytes text ≡ unreadable_at part.now number) }
{
    format!(in alloc; "unreadable: {part} {number}\n")
}

pub(crate) fn unreadable_graph(alloc: Global, why: &str, task: usize) -> Result<String, AllocError>
    ensures { IfOk result (λ text. string_bytes text ≡ unreadable_graph why.now task) }
{
    format!(in alloc; "unreadable: graph {why} task {task}\n")
}

pub(crate) fn unreadable_start(alloc: Global, why: &str) -> Result<String, AllocError>
    ensures { IfOk result (λ text. string_bytes text ≡ unreadable_start why.now) }
{
    format!(in alloc; "unreadable: start {why}\n")
}
