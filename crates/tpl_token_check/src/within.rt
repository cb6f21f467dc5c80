//! Facts of a graph's tasks and tokens.

ghost use Rattle.std.specs.Prelude.{◌≡◌, ◌<◌, ℕ, Bool, length};
ghost use Rattle.tpl_laws.specs.Prelude.{tasks_where, tokens_where};
ghost use Rattle.tpl_token_leaf.specs.Prelude.{holds_in_all};
ghost use Rattle.tpl_model.specs.Prelude.{IsRequested, TaskGraph, mem};
ghost use Rattle.tpl_model.specs.Knowledge.{IsSettled};
ghost use Rattle.tpl_paths.specs.Prelude.{has_token};
ghost use Rattle.tpl_trees.specs.Prelude.{tokens_in};
ghost use Rattle.tpl_token_check.specs.Prelude.{IsAll};

use crate::shape::all_tokens;
use tpl_checker::all_tasks;
use tpl_graph::Graph;
use tpl_model::TaskSet;
use tpl_paths::{Facts, TokenSet};

/// All tasks and tokens of a graph.
pub(crate) fn all_facts(graph: &Graph) -> Facts
    ensures { IsAll graph.now.graph result }
{
    graph.valid_law();
    Facts {
        tasks: all_tasks(graph),
        tokens: all_tokens(graph),
    }
}

/// Of the facts those of the graph whose tasks and tokens are all of these: all, where no facts are listed.
pub(crate) fn within(all: &Facts, facts: Option<Facts>) -> Facts
    ensures tasks { (g : TaskGraph) → IsAll g all.now
        → result.tasks ≡ tasks_where g (λ x. holds_in_all facts (IsSettled x)) }
    ensures tokens { (g : TaskGraph) → IsAll g all.now
        → tokens_in result.tokens ≡ tokens_where g (λ k. holds_in_all facts (IsRequested k)) }
{
    match facts {
        None => Facts {
            tasks: tasks_within(all, &all.tasks),
            tokens: tokens_within(all, all.tokens),
        },
        Some(facts) => Facts {
            tasks: tasks_within(all, &facts.tasks),
            tokens: tokens_within(all, facts.tokens),
        },
    }
}

/// Of the tasks those of the graph.
fn tasks_within(all: &Facts, tasks: &TaskSet) -> TaskSet
    ensures { (g : TaskGraph) (test : ℕ → Bool) → IsAll g all.now
        → ((x : ℕ) → x < length g.tasks → mem x tasks.now ≡ test x)
        → result ≡ tasks_where g test }
{
    all.tasks.intersection(tasks)
}

/// Of the tokens those of the graph.
fn tokens_within(all: &Facts, tokens: TokenSet) -> TokenSet
    ensures { (g : TaskGraph) (test : ℕ → Bool) → IsAll g all.now
        → ((k : ℕ) → k < length g.tokens → has_token tokens k ≡ test k)
        → tokens_in result ≡ tokens_where g test }
{
    all.tokens.intersection(tokens)
}
