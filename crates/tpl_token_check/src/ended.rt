//! The least row of a task once it is known how it ends.

ghost use Rattle.std.specs.Prelude.{◌≡◌, IfOk};
ghost use Rattle.tpl_laws.specs.Prelude.{ended_by, ended_row};
ghost use Rattle.tpl_token_leaf.specs.Prelude.{AreLeft, IsLeaf, assumed_in, graph_of, rows_in};
ghost use Rattle.tpl_model.specs.Prelude.{is_task};
ghost use Rattle.tpl_model.specs.declared.claim.Property as claims;
ghost use Rattle.tpl_model.specs.declared.ids.TaskId as ids;
ghost use Rattle.tpl_trees.specs.Prelude.{tokens_in};
ghost use Rattle.tpl_token_check.specs.Prelude.{IsAll};

use crate::shortest::chain_for;
use crate::within::within;
use std::alloc::{AllocError, Global};
use tpl_checker::some_end;
use tpl_model::{Finals, Property, TaskId, TaskSet};
use tpl_paths::{Facts, TokenSet};
use tpl_token_leaf::{Leaf, Ways, demanded, end_facts, ways_to_end};
use tpl_trees::{PlainRow, Row};

/// The row ends in each way in which it has to, and if in any, has all that it may say of its task's end.
pub(crate) fn ended_row(
    alloc: Global,
    leaf: &Leaf<'_>,
    all: &Facts,
    property: Property,
    task: TaskId,
) -> Result<Row, AllocError>
    requires leaf { IsLeaf leaf.now }
    requires task { is_task (graph_of leaf.now) task.0 }
    requires all { IsAll (graph_of leaf.now) all.now }
    ensures { IfOk result (λ row. row ≡ ended_row (graph_of leaf.now) (assumed_in leaf.now) property
        (rows_in leaf.now) task.0) }
{
    let ways = ways_to_end(leaf, task);
    let ends = demanded(leaf, task, &ways);
    let facts = said_of_end(leaf, all, task, &ways, ends);
    let begun = leaf.whole_row(task);
    let before = begun.row().before().copy();
    let chain = chain_for(alloc, leaf, property, task)?;
    let row = PlainRow::new(ends, begun.row().runs(), before, facts.tasks, chain);
    Ok(Row::new(row, begun.asked(), facts.tokens))
}

/// All that the row of a task that ends in these ways may say of its end: nothing, if it ends in none.
fn said_of_end(leaf: &Leaf<'_>, all: &Facts, task: TaskId, ways: &Ways, ends: Finals) -> Facts
    requires leaf { IsLeaf leaf.now }
    requires task { is_task (graph_of leaf.now) task.0 }
    requires all { IsAll (graph_of leaf.now) all.now }
    requires ways { AreLeft leaf.now task.0 ways.now }
    ensures tasks { (p : claims.Property ids.TaskId) → result.tasks ≡ (ended_by (graph_of leaf.now)
        (assumed_in leaf.now) p (rows_in leaf.now) task.0 ends).row.past }
    ensures tokens { (p : claims.Property ids.TaskId) → tokens_in result.tokens ≡ (ended_by
        (graph_of leaf.now) (assumed_in leaf.now) p (rows_in leaf.now) task.0 ends).asks }
{
    if !some_end(ends) {
        return Facts {
            tasks: TaskSet::empty(),
            tokens: TokenSet::empty(),
        };
    }
    within(all, end_facts(leaf, task, ways))
}
