//! A task that may begin has a row that runs (the rule K1).

ghost use Rattle.std.specs.Prelude.{◌≡◌, not, Bool};
ghost use Rattle.tpl_laws.specs.Prelude.{if_known, implies};
ghost use Rattle.tpl_token_leaf.specs.Prelude.{IsLeaf, assumed_in, graph_of, rows_in, runs_as};
ghost use Rattle.tpl_model.specs.Prelude.{Child, Continues, is_task, kind, known_at_start, own_among};
ghost use Rattle.tpl_paths.specs.Prelude.{has_token};

use crate::leaf::Leaf;
use tpl_checker::{allowed, implies, parent, some_end};
use tpl_graph::{Graph, Role};
use tpl_model::TaskId;
use tpl_paths::TokenSet;

/// The row runs, if it is a root's, or its antecedent may end in a way that the options let the continuation run after,
/// or its parent may start it, unless its own token is known to be requested there.
pub fn runs(leaf: &Leaf<'_>, task: TaskId) -> bool
    requires leaf { IsLeaf leaf.now }
    requires task { is_task (graph_of leaf.now) task.0 }
    ensures { result ≡ runs_as leaf.now task.0 (kind (graph_of leaf.now) task.0) }
{
    match leaf.graph.role(task) {
        Role::Root => leaf.may_run(task),
        Role::Then(antecedent) => runs_after(leaf, task, antecedent),
        Role::Child => runs_if_started(leaf, task),
        Role::All(_) => true,
        Role::Any(_) => true,
    }
}

fn runs_after(leaf: &Leaf<'_>, task: TaskId, antecedent: TaskId) -> bool
    requires leaf { IsLeaf leaf.now }
    requires task { is_task (graph_of leaf.now) task.0 }
    requires antecedent { is_task (graph_of leaf.now) antecedent.0 }
    ensures { result ≡ runs_as leaf.now task.0 (Continues antecedent.0) }
{
    let may_follow = some_end(allowed(leaf.row(antecedent).ends(), leaf.graph.options(task)));
    let known = own_among(leaf.graph, task, leaf.asks(antecedent));
    let runs = leaf.may_run(task);
    implies(may_follow, implies(!known, runs))
}

fn runs_if_started(leaf: &Leaf<'_>, task: TaskId) -> bool
    requires leaf { IsLeaf leaf.now }
    requires task { is_task (graph_of leaf.now) task.0 }
    ensures { result ≡ runs_as leaf.now task.0 Child }
{
    match parent(leaf.graph, task) {
        None => true,
        Some(parent) => {
            let may_start = may_start(leaf, parent, task);
            let runs = leaf.may_run(task);
            implies(leaf.may_run(parent), implies(may_start, runs))
        }
    }
}

/// Some path of the parent's body starts the child, and the child's own token isn't known to be requested there.
fn may_start(leaf: &Leaf<'_>, parent: TaskId, child: TaskId) -> bool
    requires leaf { IsLeaf leaf.now }
    requires parent { is_task (graph_of leaf.now) parent.0 }
    requires child { is_task (graph_of leaf.now) child.0 }
    ensures { (runs : Bool) → implies result runs ≡ if_known
        (known_at_start (graph_of leaf.now) (assumed_in leaf.now) (rows_in leaf.now) parent.0
        child.0) (λ known. implies (not (own_among (graph_of leaf.now) child.0 known.requested))
        runs) }
{
    match leaf.known_at_start(parent, child) {
        None => false,
        Some(known) => !own_among(leaf.graph, child, known.requested),
    }
}

/// The own token of a task is one of these.
fn own_among(graph: &Graph, task: TaskId, tokens: TokenSet) -> bool
    requires { is_task graph.now.graph task.0 }
    ensures { result ≡ own_among graph.now.graph task.0 (has_token tokens) }
{
    match graph.own_token(task) {
        None => false,
        Some(own) => tokens.contains(own),
    }
}
