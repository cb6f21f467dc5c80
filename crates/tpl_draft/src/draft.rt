//! Graphs as a document spells them, with names.

ghost use Rattle.std.specs.Prelude.{◌≡◌};
ghost use Rattle.tpl_draft.specs.Prelude.{lines_of};

use std::marker::Model;
use tpl_model::{Final, Options};

/// A statement with names (Task Parallel Library guide: exception handling, task cancellation, child tasks).
#[cycle(draft)]
#[derive(Drop)]
pub enum DraftStmt {
    /// The body is over.
    Return,
    /// It throws an exception with this label.
    Throw(String),
    /// It asks whether a token is requested (`CancellationToken.ThrowIfCancellationRequested`).
    Check(String),
    /// It requests a token (`CancellationTokenSource.Cancel`).
    Cancel(String),
    /// It starts a child.
    Start(String),
    /// It reads the subject's exception.
    Observe,
    /// A site, and whether its job may fail.
    Work(String, bool),
    /// The first list where the input is true, else the second.
    If(String, DraftBody, DraftBody),
    /// The first list where the subject ended in this way, else the second.
    When(Final, DraftBody, DraftBody),
}

/// A list of statements with names.
#[cycle(draft)]
#[derive(Drop)]
pub struct DraftBody {
    list: Vec<DraftStmt>,
}

impl Model for DraftBody {
    ghost use Rattle.tpl_draft.specs.Draft.{Lines};
    ghost use Rattle.tpl_draft.specs.LineCoding.{lines_code};

    ghost Value = { Lines };

    ghost coded = { lines_code };

    ghost use Rattle.tpl_draft.specs.SeenDraft.{lines_of};

    ghost view = { λ b. lines_of b.list.items };

    ghost use Rattle.tpl_draft.specs.Draft.{line_count};

    ghost size = { line_count };

    ghost use Rattle.tpl_draft.specs.FallsDraft.{deepest_le-count};
    ghost use Rattle.std.proofs.Common.{arith};

    ghost size_decreases = { λ b _. omega (arith, deepest_le-count b.list.items) };
}

impl DraftBody {
    /// The body of these statements.
    pub fn new(list: Vec<DraftStmt>) -> Self
        ensures { result ≡ lines_of list.items }
    {
        DraftBody { list }
    }

    /// The statements, in the order of the text; those of a branch stand inside it.
    pub fn list(&self) -> &[DraftStmt]
        ensures { self.now ≡ lines_of result.now }
    {
        self.list.as_slice()
    }
}

/// A token.
#[derive(Drop)]
pub struct DraftToken {
    pub name: String,
    /// The tokens to which it is linked, if it is (`CancellationTokenSource.CreateLinkedTokenSource`).
    pub linked: Option<Vec<String>>,
}

/// What a task with a body has.
#[derive(Drop)]
pub struct DraftWork {
    pub body: DraftBody,
    /// Its own token.
    pub token: Option<String>,
    /// All its option words.
    pub options: Options,
}

/// What makes a task ready.
#[derive(Drop)]
pub enum DraftKind {
    /// It is ready from the first.
    Root(DraftWork),
    /// A statement of another task starts it.
    Child(DraftWork),
    /// A continuation of the task of that name.
    Then(String, DraftWork),
    /// It ends when all of these have ended (`Task.WhenAll`).
    All(Vec<String>),
    /// It ends when one of these has ended (`Task.WhenAny`).
    Any(Vec<String>),
}

/// A task.
#[derive(Drop)]
pub struct DraftTask {
    pub name: String,
    pub kind: DraftKind,
}

/// A graph as a document spells it.
#[derive(Drop)]
pub struct Draft {
    pub inputs: Vec<String>,
    pub tokens: Vec<DraftToken>,
    pub tasks: Vec<DraftTask>,
}
