//! What is searched for, and what is made once for all branches of the search.

ghost use Rattle.std.specs.Prelude.{◌≡◌};

use crate::cone::Cone;
use crate::form::Form;
use crate::split::Split;
use crate::trial::Trial;
use tpl_checker::{Assumptions, Below};
use tpl_graph::Graph;
use tpl_model::{Property, RuleSet};
use tpl_outline::{Followers, Setting, Stage};
use tpl_paths::TokenSet;

/// A claim's property and its graph, with what is made of the graph once.
#[derive(Clone, Copy)]
pub(crate) struct Question<'s> {
    pub(crate) graph: &'s Graph,
    pub(crate) below: &'s Below,
    pub(crate) stages: &'s [Stage],
    pub(crate) followers: &'s Followers,
    pub(crate) property: Property,
    /// How much the rows of a leaf are to say.
    pub(crate) form: Form,
    /// All splits of the graph, in the order of the search.
    pub(crate) splits: &'s [Split],
    /// What bears on the property.
    pub(crate) cone: &'s Cone,
    /// By each token those that are requested with it.
    pub(crate) linked: &'s [TokenSet],
    /// By which rules the claim is judged.
    pub(crate) rules: RuleSet,
    /// How leaves are tried.
    pub(crate) trial: Trial,
}

impl<'s> Question<'s> {
    /// The graph under these assumptions.
    pub(crate) fn setting(self, assumed: &'s Assumptions) -> Setting<'s>
        ensures graph { result.graph ≡ self.entry.graph }
        ensures stages { result.stages ≡ self.entry.stages }
    {
        Setting {
            graph: self.graph,
            below: self.below,
            stages: self.stages,
            followers: self.followers,
            assumed,
            rules: self.rules,
        }
    }
}
