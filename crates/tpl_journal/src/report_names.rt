//! The names that a report has, each an empty text where the graph has no such thing.

ghost use Rattle.std.specs.Prelude.{◌≡◌, ◌≤◌, [], None, length, slice_index_or};
ghost use Rattle.tpl_journal.specs.ReportText.{task_name};

use tpl_graph::Graph;
use tpl_model::{LONGEST_NAME, Label, LabelId, SiteId, TaskId, TokenId};

pub(crate) fn name_of(graph: &Graph, task: TaskId) -> &str
    ensures text { result.now ≡ task_name graph.now.names task.0 }
    ensures short { length result.now ≤ LONGEST_NAME }
{
    graph.valid_law();
    if (task.0 as usize) < graph.len() {
        graph.name(task)
    } else {
        ""
    }
}

pub(crate) fn token_name(graph: &Graph, token: TokenId) -> &str
    ensures text { result.now ≡ slice_index_or graph.now.names.tokens token.0 [] }
    ensures short { length result.now ≤ LONGEST_NAME }
{
    graph.valid_law();
    if (token.0 as usize) < graph.token_count() {
        graph.token_name(token)
    } else {
        ""
    }
}

pub(crate) fn label_name(graph: &Graph, label: LabelId) -> &str
    ensures { result.now ≡ slice_index_or graph.now.names.labels label.0 [] }
{
    if (label.0 as usize) < graph.label_count() {
        graph.label_name(label)
    } else {
        ""
    }
}

pub(crate) fn site_name(graph: &Graph, site: SiteId) -> &str
    ensures { result.now ≡ slice_index_or graph.now.names.sites site.0 [] }
{
    if (site.0 as usize) < graph.site_count() {
        graph.site_name(site)
    } else {
        ""
    }
}

/// What the body of a task threw, if anything is known of it.
pub(crate) fn label_of(labels: &[Option<Label>], task: TaskId) -> Option<Label>
    ensures { result ≡ slice_index_or labels.now task.0 None }
{
    let at = task.0 as usize;
    if at < labels.len() { labels[at] } else { None }
}
