//! What is the same for all leaves of a tree.

ghost use Rattle.std.specs.Prelude.{◌≡◌};
ghost use Rattle.tpl_checker.specs.Prelude.{AreBelow};
ghost use Rattle.tpl_graph.specs.Prelude.{TasksOf};
ghost use Rattle.tpl_token_leaf.specs.Prelude.{AreLinks};
ghost use Rattle.tpl_token_check.specs.Prelude.{IsCheck};

use tpl_checker::Below;
use tpl_graph::Graph;
use tpl_model::Property;
use tpl_paths::TokenSet;

/// What is the same for all leaves of a tree: the graph, the claim with its number, and what is read off the graph.
#[derive(Drop)]
pub struct Check<'c> {
    pub(crate) graph: &'c Graph,
    pub(crate) property: Property,
    pub(crate) claim: usize,
    pub(crate) below: &'c Below,
    pub(crate) linked: &'c [TokenSet],
}

impl<'c> Check<'c> {
    /// The check of a claim's property, which has this number among the claims, with the tasks below each task of the
    /// graph, and by each token those that are requested with it.
    pub fn new(
        graph: &'c Graph,
        property: Property,
        claim: usize,
        below: &'c Below,
        linked: &'c [TokenSet],
    ) -> Check<'c>
        requires tasks { TasksOf graph.now.graph property }
        requires below { AreBelow graph.now.graph below.now }
        requires linked { AreLinks graph.now.graph linked.now }
        ensures check { IsCheck result }
        ensures graph { result.graph.now ≡ graph.now }
        ensures property { result.property ≡ property }
        ensures claim { result.claim ≡ claim }
    {
        Check {
            graph,
            property,
            claim,
            below,
            linked,
        }
    }

    /// The graph.
    pub fn graph(&self) -> &'c Graph
        ensures { result.now ≡ self.now.graph.now }
    {
        self.graph
    }
}
