//! A leaf whose rows are left out.

ghost use Rattle.std.specs.Prelude.{◌≡◌, ℕ};
ghost use Rattle.tpl_token_leaf.specs.Prelude.{IsLeaf, assumed_in, graph_of, rows_in, leaf_assumed};
ghost use Rattle.tpl_model.specs.Prelude.{is_task};
ghost use Rattle.tpl_token_check.specs.Prelude.{IsAll, IsCase, IsCheck, IsRows, assumed_by, graph_by, graph_in};

use crate::check::Check;
use crate::rows::Rows;
use crate::within::all_facts;
use tpl_checker::{Assumptions, Below};
use tpl_graph::Graph;
use tpl_model::Property;
use tpl_paths::{Facts, TokenSet};
use tpl_token_leaf::{Leaf, WinnerSplit};

/// A leaf whose rows are left out: what it assumes, what it is to prove, and what is read once for all of its rows.
#[derive(Drop)]
pub(crate) struct Case<'c> {
    pub(crate) graph: &'c Graph,
    pub(crate) property: Property,
    pub(crate) assumed: &'c Assumptions,
    pub(crate) winners: &'c [WinnerSplit],
    pub(crate) linked: &'c [TokenSet],
    pub(crate) below: &'c Below,
    pub(crate) all: Facts,
}

impl<'c> Case<'c> {
    /// The leaf of a check that assumes this.
    pub(crate) fn new(
        check: &'c Check<'_>,
        assumed: &'c Assumptions,
        winners: &'c [WinnerSplit],
    ) -> Case<'c>
        requires { IsCheck check.now }
        ensures case { IsCase result }
        ensures graph { graph_by result ≡ graph_in check.now }
        ensures property { result.property ≡ check.now.property }
        ensures assumed { assumed_by result ≡ leaf_assumed assumed.now winners.now }
    {
        Case {
            graph: check.graph,
            property: check.property,
            assumed,
            winners,
            linked: check.linked,
            below: check.below,
            all: all_facts(check.graph),
        }
    }

    /// The leaf with these rows.
    pub(crate) fn leaf<'l>(&'l self, rows: &'l Rows) -> Leaf<'l>
        requires case { IsCase self.now }
        requires rows { IsRows (graph_by self.now) rows.now }
        ensures leaf { IsLeaf result }
        ensures all { IsAll (graph_of result) self.now.all }
        ensures task { (t : ℕ) → is_task (graph_by self.now) t → is_task (graph_of result) t }
        ensures graph { graph_of result ≡ graph_by self.now }
        ensures assumed { assumed_in result ≡ assumed_by self.now }
        ensures rows { rows_in result ≡ rows.now.rows.items }
    {
        Leaf {
            graph: self.graph,
            assumed: self.assumed,
            winners: self.winners,
            rows: rows.rows.as_slice(),
            linked: self.linked,
            ends: rows.ends.as_slice(),
            below: self.below,
        }
    }
}
