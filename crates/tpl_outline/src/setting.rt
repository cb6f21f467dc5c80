//! A graph under what is assumed.

use crate::followers::Followers;
use crate::stages::Stage;
use tpl_checker::{Assumptions, Below};
use tpl_graph::Graph;
use tpl_model::RuleSet;

/// A graph under what is assumed, with what is made of the graph once.
#[derive(Clone, Copy)]
pub struct Setting<'s> {
    pub graph: &'s Graph,
    /// The tasks below each task.
    pub below: &'s Below,
    /// The order in which it is settled what becomes of the tasks.
    pub stages: &'s [Stage],
    /// Which tasks look at each task, and for which it waits.
    pub followers: &'s Followers,
    pub assumed: &'s Assumptions,
    /// By which rules leaves are judged.
    pub rules: RuleSet,
}
