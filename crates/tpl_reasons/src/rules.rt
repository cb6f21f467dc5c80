//! The rules for the rows of a leaf, each in one sentence.

use crate::words::Said;
use std::alloc::Global;
use tpl_causes::name;
use tpl_graph::{Graph, Role};
use tpl_model::{Rule, RuleSet, TaskId};
use tpl_reader::Document;

/// What makes the task ready, if it is the graph's.
pub(crate) fn role(graph: &Graph, task: TaskId) -> Option<Role<'_>> {
    if (task.0 as usize) < graph.len() {
        Some(graph.role(task))
    } else {
        None
    }
}

/// The rule, said of a root.
fn root_rule(rule: Rule) -> &'static str {
    match rule {
        Rule::K1 => "K1: a root may begin, so its row must say that it runs",
        Rule::K3 => "K3: a root waits for nothing, so its `before` must be empty",
        _ => "K4: a root's `past` may list only its attached children",
    }
}

/// The rule, said of a child.
fn child_rule(rule: Rule) -> &'static str {
    match rule {
        Rule::K1 => "K1: its parent runs and may start it, so its row must say that it runs",
        Rule::K3 => "K3: a child's `before` may list only what its parent's `before` lists",
        _ =>
            "K4: a child's `past` may list only its attached children and what its parent's `before` lists",
    }
}

/// The rule, said of a continuation.
fn then_rule(rule: Rule) -> &'static str {
    match rule {
        Rule::K1 => "K1: its options allow an end of that task, so its row must say that it runs",
        Rule::K3 => "K3: its `before` may list only that task and what that task's `past` lists",
        _ => {
            "K4: its `past` may list only that task, what that task's `past` lists, and its own attached children; and only the children if it may be canceled while that task still runs, because it has a token that may be requested and is not lazy"
        }
    }
}

/// The rule K2.
const ENDS: &str =
    "K2: its `ends` must name each way in which it may end: RanToCompletion where its body may return; Faulted where it may throw, a job of it may fail, or an attached child may be Faulted; Canceled where its token may be requested, or its options don't allow an end of the task that it continues";

/// The rule K2, said of a WhenAll task.
const ENDS_OF_ALL: &str =
    "K2: the `ends` of WhenAll must name RanToCompletion where each task of its list may run to completion; Canceled where each may end otherwise than Faulted and one may be Canceled; Faulted where each may end and one may be Faulted";

/// The rule K6.
const CHAIN: &str =
    "K6: each task in its `chain` must take over the exception of the one before it (a parent that of its attached child, a WhenAll task that of a task of its list), and the last must be a continuation that reads it: its options allow Faulted, its token is never requested, and its body observes on each path";

/// What the rule asks of a task.
fn sentence(rule: Rule, role: Option<Role<'_>>) -> &'static str {
    match (rule, role) {
        (Rule::K6, _) => CHAIN,
        (Rule::K2, Some(Role::All(_))) => ENDS_OF_ALL,
        (Rule::K2, Some(Role::Any(_))) => {
            "K2: the `ends` of WhenAny must name RanToCompletion where a task of its list may end"
        }
        (Rule::K2, _) => ENDS,
        (_, Some(Role::All(_))) => {
            "K5: `past` of WhenAll may list only the tasks of its list and what their `past` lists"
        }
        (_, Some(Role::Any(_))) => {
            "K5: `past` of WhenAny may list only what is past each task of its list, since any of them may be the first to end"
        }
        (_, Some(Role::Root)) => root_rule(rule),
        (_, Some(Role::Then(_))) => then_rule(rule),
        _ => child_rule(rule),
    }
}

/// The rule K4 where rows speak of tokens.
const PAST_AND_TOKENS: &str =
    "K4: its `past` may list only its attached children and what is settled by each way in which it may end, and its `asks` only what is requested by each of these: its body ends so, its own token is requested before it begins, or its options don't allow how the task ended that it continues";

/// The rule K6 where splits may be on winners.
const CHAIN_BEHIND_WINNER: &str =
    "K6: each task in its `chain` must take over the exception of the one before it (a parent that of its attached child, a WhenAll task that of a task of its list), and the last must be a continuation that reads it: its options allow Faulted, or RanToCompletion if it continues a WhenAny task that only the one before it may win, its token is never requested, and its body observes on each path";

/// What the rule asks of a task where rows may speak of tokens, and the graph has some.
fn token_sentence(rule: Rule, role: Option<Role<'_>>) -> &'static str {
    match (rule, role) {
        (Rule::K1, Some(Role::Then(_))) => {
            "K1: its options allow an end of that task, whose `asks` doesn't list its own token, so its row must say that it runs"
        }
        (Rule::K1, Some(Role::Child)) => {
            "K1: its parent runs and may start it, at a place where its own token needn't be requested, so its row must say that it runs"
        }
        (Rule::K3, Some(Role::Root)) => {
            "K3: a root waits for nothing, so its `before` and its `asked` must be empty"
        }
        (Rule::K3, Some(Role::Then(_))) => {
            "K3: its `before` may list only that task and what that task's `past` lists, and its `asked` only what that task's `asks` lists"
        }
        (Rule::K3, _) => {
            "K3: a child's `before` may list only what its parent's `before` lists, and its `asked` only what is requested on each path of its parent's body that starts it"
        }
        (Rule::K4, _) => PAST_AND_TOKENS,
        (Rule::K5, Some(Role::All(_))) => {
            "K5: `past` of WhenAll may list only the tasks of its list and what their `past` lists, and its `asks` only what their `asks` list"
        }
        (Rule::K5, Some(Role::Any(_))) => {
            "K5: `past` of WhenAny may list only what is past each task of its list that may win, since any of them may be the first to end, and its `asks` only what the `asks` of each of these lists"
        }
        _ => sentence(rule, role),
    }
}

/// What the rule of the document's version asks of a task.
fn sentence_of(document: &Document, rule: Rule, role: Option<Role<'_>>) -> &'static str {
    match (document.version.rules(), rule) {
        (RuleSet::WithoutTokens, _) => sentence(rule, role),
        (RuleSet::WithTokens, Rule::K6) => CHAIN_BEHIND_WINNER,
        _ if document.graph.token_count() > 0 => token_sentence(rule, role),
        _ => sentence(rule, role),
    }
}

/// What the rule asks of a task, with its name.
pub(crate) fn rule_text(alloc: Global, document: &Document, rule: Rule, task: TaskId) -> Said {
    let graph = &document.graph;
    let role = role(graph, task);
    let (task, rule) = (name(graph, task), sentence_of(document, rule, role));
    match role {
        Some(Role::Then(antecedent)) => {
            let antecedent = name(graph, antecedent);
            format!(in alloc; "{task}, which continues {antecedent}, breaks rule {rule}")
        }
        _ => format!(in alloc; "{task} breaks rule {rule}"),
    }
}
