//! Rows while they are worked out.

ghost use Rattle.std.specs.Prelude.{◌≡◌, ◌<◌, IfOk, length, map, replicate, slice_set};
ghost use Rattle.tpl_laws.specs.Prelude.{blank_row};
ghost use Rattle.tpl_token_leaf.specs.Prelude.{row_end};
ghost use Rattle.tpl_model.specs.Prelude.{TaskGraph};
ghost use Rattle.tpl_paths.specs.Prelude.{end_of};
ghost use Rattle.tpl_token_check.specs.Prelude.{AreRows, IsRows};

use std::alloc::{AllocError, Global};
use tpl_graph::Graph;
use tpl_model::{TaskId, TaskSet};
use tpl_paths::{ChildEnd, Facts, TokenSet};
use tpl_token_leaf::NO_END;
use tpl_trees::{PlainRow, Row};

/// A row for each task while the rows are worked out, and beside each how its task ends.
#[derive(Drop)]
pub(crate) struct Rows {
    pub(crate) rows: Vec<Row>,
    pub(crate) ends: Vec<ChildEnd>,
}

impl Rows {
    /// Rows that say nothing.
    pub(crate) fn blank(alloc: Global, graph: &Graph) -> Result<Rows, AllocError>
        ensures { IfOk result (AreRows graph.now.graph
            (replicate (length graph.now.graph.tasks) blank_row)) }
    {
        let mut rows = Vec::new(alloc);
        for _ in 0..graph.len() {
            rows.push(blank_row(alloc))?;
        }
        let ends = child_ends(alloc, rows.as_slice())?;
        Ok(Rows { rows, ends })
    }

    /// Puts the row of a task in the place of the one before.
    pub(crate) fn put(&mut self, task: TaskId, row: Row)
        requires rows { task.0 < length self.old.rows.items }
        requires ends { task.0 < length self.old.ends.items }
        ensures { (g : TaskGraph) → IsRows g self.old
            → AreRows g (slice_set self.old.rows.items task.0 row) self.new }
    {
        let at = task.0 as usize;
        self.ends[at] = end_of_row(&row);
        self.rows[at] = row;
    }
}

/// A row that says nothing.
pub(crate) fn blank_row(alloc: Global) -> Row
    ensures { result ≡ blank_row }
{
    let row = PlainRow::new(
        NO_END,
        false,
        TaskSet::empty(),
        TaskSet::empty(),
        Vec::new(alloc),
    );
    Row::new(row, TokenSet::empty(), TokenSet::empty())
}

/// By each row how its task ends.
pub(crate) fn child_ends(alloc: Global, rows: &[Row]) -> Result<Vec<ChildEnd>, AllocError>
    ensures { IfOk result (λ v. map end_of v.items ≡ map row_end rows.now) }
{
    let mut ends = Vec::new(alloc);
    for row in rows {
        ends.push(end_of_row(row))?;
    }
    Ok(ends)
}

/// How a task ends, by its row.
fn end_of_row(row: &Row) -> ChildEnd
    ensures { end_of result ≡ row_end row.now }
{
    ChildEnd {
        ends: row.row().ends(),
        facts: Facts {
            tasks: row.row().past().copy(),
            tokens: row.asks(),
        },
    }
}
