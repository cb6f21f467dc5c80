//! The tree without a split, for all claims under the same given.

ghost use Rattle.std.specs.Prelude.{◌≡◌, ◌∷◌, ◌↔◌, [], None, false, length, IfOk, IsTrue};
ghost use Rattle.tpl_checker.specs.Prelude.{AreBelow};
ghost use Rattle.tpl_graph.specs.Prelude.{AreGivenOf, Fits, TasksOf};
ghost use Rattle.tpl_laws.specs.Prelude.{AcceptsWithTokens, least_rows, token_first_broken, token_proves};
ghost use Rattle.tpl_token_leaf.specs.Prelude.{AreLinks, leaf_assumed};
ghost use Rattle.tpl_model.specs.Prelude.{LeastLeaf, own_quiet};
ghost use Rattle.tpl_token_check.specs.Prelude.{AreSettled, HasNoChain, IsCase, IsRows, IsUnsplit, assumed_by, graph_by, graph_under};

use crate::accepted::least_leaf_proves;
use crate::case::Case;
use crate::check::Check;
use crate::least::least_rows;
use crate::rows::Rows;
use crate::within::all_facts;
use std::alloc::{AllocError, Global};
use tpl_checker::{Assumptions, Below, assumed, assumed_for};
use tpl_graph::{Claim, Graph};
use tpl_model::{Given, Property, RuleSet, TaskId};
use tpl_paths::TokenSet;
use tpl_token_leaf::{both, first_broken, narrowed, proves};

/// The least rows of a leaf, and whether they break no rule.
#[derive(Drop)]
struct Settled {
    rows: Rows,
    is_closed: bool,
}

/// The tree without a split, for all claims that take the same as given. Its rows are worked out once, and each claim only
/// reads what they prove.
#[derive(Drop)]
pub struct Unsplit<'c> {
    graph: &'c Graph,
    below: &'c Below,
    linked: &'c [TokenSet],
    given: &'c [Given],
    narrowed: Assumptions,
    settled: Settled,
}

/// The leaf that assumes this and is to prove the property.
fn case_of<'c>(
    graph: &'c Graph,
    below: &'c Below,
    linked: &'c [TokenSet],
    narrowed: &'c Assumptions,
    property: Property,
) -> Case<'c>
    requires below { AreBelow graph.now.graph below.now }
    requires linked { AreLinks graph.now.graph linked.now }
    ensures case { IsCase result }
    ensures graph { graph_by result ≡ graph.now.graph }
    ensures property { result.property ≡ property }
    ensures assumed { assumed_by result ≡ leaf_assumed narrowed.now [] }
{
    Case {
        graph,
        property,
        assumed: narrowed,
        winners: &[],
        linked,
        below,
        all: all_facts(graph),
    }
}

/// The rows break no rule.
fn are_closed(case: &Case<'_>, rows: &Rows) -> bool
    requires case { IsCase case.now }
    requires rows { rows.now.rows.items ≡ least_rows (graph_by case.now) (assumed_by case.now)
        case.now.property }
    requires kept { IsRows (graph_by case.now) rows.now }
    ensures { IsTrue result ↔ (token_first_broken (graph_by case.now) (assumed_by case.now)
        (least_rows (graph_by case.now) (assumed_by case.now) case.now.property) 0
        (length (graph_by case.now).tasks) ≡ None) }
{
    match first_broken(&case.leaf(rows)) {
        None => true,
        Some(_) => false,
    }
}

/// The least rows of the leaf.
fn settle(alloc: Global, case: &Case<'_>) -> Result<Settled, AllocError>
    requires { IsCase case.now }
    ensures { IfOk result (AreSettled (graph_by case.now) (assumed_by case.now)
        case.now.property) }
{
    let rows = least_rows(alloc, case)?;
    let is_closed = are_closed(case, &rows);
    Ok(Settled { rows, is_closed })
}

/// For a claim of the property the rows may be others than for most: one has a chain, or the own token of a task is taken as
/// quiet.
fn needs_own_rows(graph: &Graph, property: Property) -> bool
    requires { TasksOf graph.now.graph property }
    ensures chain { result ≡ false → HasNoChain property }
    ensures own { result ≡ false → own_quiet graph.now.graph property ≡ [] }
{
    match property {
        Property::Observed(_) => true,
        Property::After(_, task) | Property::Never(task) => graph.own_token(task).is_some(),
        Property::Excludes(_, other) => graph.own_token(other).is_some(),
        Property::Final(_, _) | Property::Runs(_) => false,
    }
}

impl<'c> Unsplit<'c> {
    /// The tree without a split for claims that take this as given, with the tasks below each task of the graph, and by
    /// each token those that are requested with it.
    pub fn new(
        alloc: Global,
        graph: &'c Graph,
        below: &'c Below,
        linked: &'c [TokenSet],
        given: &'c [Given],
    ) -> Result<Unsplit<'c>, AllocError>
        requires below { AreBelow graph.now.graph below.now }
        requires linked { AreLinks graph.now.graph linked.now }
        requires given { AreGivenOf graph.now.graph given.now }
        ensures unsplit { IfOk result IsUnsplit }
        ensures graph { IfOk result (λ u. graph_under u ≡ graph.now.graph) }
        ensures given { IfOk result (λ u. u.given.now ≡ given.now) }
    {
        let narrowed = narrowed(graph, &assumed(graph, given));
        let property = Property::Never(TaskId(0));
        let settled = settle(alloc, &case_of(graph, below, linked, &narrowed, property))?;
        Ok(Unsplit {
            graph,
            below,
            linked,
            given,
            narrowed,
            settled,
        })
    }

    /// The tree without a split is accepted for the claim, which takes the same as given.
    pub fn accepts(&self, alloc: Global, claim: &Claim) -> Result<bool, AllocError>
        requires unsplit { IsUnsplit self.now }
        requires claim { Fits (graph_under self.now) claim.now }
        requires given { claim.now.given ≡ self.now.given.now }
        ensures { IfOk result (λ b. IsTrue b ↔ AcceptsWithTokens (graph_under self.now)
            (claim.now ∷ []) (LeastLeaf ∷ [])) }
    {
        let property = claim.body();
        if needs_own_rows(self.graph, property) {
            return self.accepts_alone(alloc, claim);
        }
        self.graph.valid_law();
        tpl_laws::token_leaf_is_right();
        let proves = self.proves(property);
        Ok(both(self.settled.is_closed, proves))
    }

    /// The same of a claim for which other rows are needed: they have a chain, or a token is taken as quiet.
    fn accepts_alone(&self, alloc: Global, claim: &Claim) -> Result<bool, AllocError>
        requires unsplit { IsUnsplit self.now }
        requires claim { Fits (graph_under self.now) claim.now }
        ensures { IfOk result (λ b. IsTrue b ↔ AcceptsWithTokens (graph_under self.now)
            (claim.now ∷ []) (LeastLeaf ∷ [])) }
    {
        let check = Check::new(self.graph, claim.body(), 1, self.below, self.linked);
        let assumed = assumed_for(self.graph, claim, RuleSet::WithTokens);
        let accepted = least_leaf_proves(alloc, &check, &assumed, &[])?;
        Ok(accepted)
    }

    /// The rows prove the property.
    fn proves(&self, property: Property) -> bool
        requires unsplit { IsUnsplit self.now }
        requires tasks { TasksOf (graph_under self.now) property }
        requires chain { HasNoChain property }
        ensures { result ≡ token_proves (graph_under self.now) (leaf_assumed self.now.narrowed [])
            (least_rows (graph_under self.now) (leaf_assumed self.now.narrowed []) property)
            property }
    {
        let case = case_of(
            self.graph,
            self.below,
            self.linked,
            &self.narrowed,
            property,
        );
        proves(&case.leaf(&self.settled.rows), property)
    }
}
