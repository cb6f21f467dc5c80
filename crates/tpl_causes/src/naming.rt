//! The names of what a graph has.

ghost use Rattle.std.specs.Prelude.{◌≡◌};
ghost use Rattle.tpl_causes.specs.Prelude.{named_text};

use tpl_graph::Graph;
use tpl_model::{InputId, SiteId, TaskId, TokenId};

/// What a graph has names for.
#[derive(Clone, Copy)]
pub enum Named {
    /// A task.
    Task(TaskId),
    /// A token.
    Token(TokenId),
    /// A job.
    Site(SiteId),
    /// An input.
    Input(InputId),
}

/// The name of it, or a question mark where the graph has none for it.
pub fn name_of(graph: &Graph, named: Named) -> &str
    ensures { result.now ≡ named_text graph.now.names named }
{
    graph.valid_law();
    match named {
        Named::Task(task) if (task.0 as usize) < graph.len() => graph.name(task),
        Named::Token(token) if (token.0 as usize) < graph.token_count() => graph.token_name(token),
        Named::Site(site) if (site.0 as usize) < graph.site_count() => graph.site_name(site),
        Named::Input(input) if (input.0 as usize) < graph.input_count() => graph.input_name(input),
        _ => "?",
    }
}

/// The name of a task, or a question mark where the graph has no such task.
pub fn name(graph: &Graph, task: TaskId) -> &str
    ensures { result.now ≡ named_text graph.now.names (Named.Task task) }
{
    name_of(graph, Named::Task(task))
}

/// The name of a token, or a question mark where the graph has no such token.
pub fn token_name(graph: &Graph, token: TokenId) -> &str
    ensures { result.now ≡ named_text graph.now.names (Named.Token token) }
{
    name_of(graph, Named::Token(token))
}
