//! What is left of a body while it runs.

ghost use Rattle.std.specs.Prelude.{◌≡◌, ◌<◌, ◌≤◌, length, MatchOption, IfSome};
ghost use Rattle.tpl_model.specs.Prelude.{BeginsWith, Nothing, behind, behind_choice, chosen, left_at, level_count, levels_in, statement_of};
ghost use Rattle.tpl_model.specs.Cursor.{IsSettled};

use crate::body::{Body, Stmt};
use crate::limits::MOST_LEVELS;
use crate::script::Script;
use std::marker::Model;

/// `MOST_LEVELS`, as a length.
const LEVELS: usize = MOST_LEVELS as usize;

/// What is left of a script while it runs. It borrows the script, and keeps what is left of each
/// list of statements that it stands in, the outermost first.
#[derive(Drop)]
pub struct Cursor<'a> {
    levels: [&'a [Stmt]; LEVELS],
    depth: usize,
}

impl<'a> Model for Cursor<'a> {
    ghost use Rattle.tpl_model.specs.Statements.{Statements};
    ghost use Rattle.tpl_model.specs.Coding.{statements_code};

    ghost Value = { Statements };

    ghost coded = { statements_code };

    ghost use Rattle.tpl_model.specs.Cursor.{left_at, FitsLevels};

    ghost view = { λ r. left_at r.levels r.depth };

    ghost invariant = { λ r. FitsLevels r.levels r.depth };
}

impl<'a> Cursor<'a> {
    /// The whole script is left.
    pub fn new(script: &'a Script) -> Cursor<'a>
        ensures { result ≡ script.now }
    {
        let list = script.body().list();
        Cursor {
            levels: [list; LEVELS],
            depth: 1,
        }
    }

    /// A copy.
    pub fn copy(&self) -> Cursor<'a>
        ensures { result ≡ self.now }
    {
        Cursor {
            levels: self.levels,
            depth: self.depth,
        }
    }

    /// The next statement, if one is left.
    pub fn first(&self) -> Option<&'a Stmt>
        ensures { MatchOption result (self.now ≡ Nothing)
            (λ s. BeginsWith self.now (statement_of s.now)) }
    {
        let levels = &self.levels[..];
        let depth = settled(levels, self.depth);
        if depth == 0 {
            return None;
        }
        let list = levels[depth - 1];
        Some(&list[0])
    }

    /// Nothing is left.
    pub fn finish(&mut self)
        ensures { self.new ≡ Nothing }
    {
        *self = Cursor {
            levels: self.levels,
            depth: 0,
        };
    }

    /// Passes the next statement, if one is left.
    pub fn pass(&mut self)
        ensures { self.new ≡ behind self.old }
    {
        let levels = &self.levels[..];
        let depth = settled(levels, self.depth);
        if depth == 0 {
            return;
        }
        let list = levels[depth - 1];
        let left = &list[1..];
        let slots = &mut self.levels[..];
        slots[depth - 1] = left;
        self.depth = depth;
    }

    /// Passes the next statement, and puts the first or the second list of an `if` or a `when` in front
    /// of what follows.
    pub fn enter(&mut self, first: bool)
        ensures { self.new ≡ behind_choice self.old first }
    {
        let levels = &self.levels[..];
        let depth = settled(levels, self.depth);
        if depth == 0 {
            return;
        }
        let list = levels[depth - 1];
        let rest = &list[1..];
        let Some(body) = chosen_list(&list[0], first) else {
            let slots = &mut self.levels[..];
            slots[depth - 1] = rest;
            self.depth = depth;
            return;
        };
        let inner = body.list();
        let slots = &mut self.levels[..];
        slots[depth - 1] = rest;
        slots[depth] = inner;
        self.depth = depth + 1;
    }
}

/// The first or the second list of an `if` or a `when`; none where the statement is another one.
fn chosen_list(statement: &Stmt, first: bool) -> Option<&Body>
    ensures list { MatchOption result (chosen (statement_of statement.now) first ≡ Nothing)
        (λ b. b.now ≡ chosen (statement_of statement.now) first) }
    ensures nested { IfSome result (λ b. level_count b.now < levels_in
        (statement_of statement.now)) }
{
    match statement {
        Stmt::If(_, yes, no) | Stmt::When(_, yes, no) => Some(if first { yes } else { no }),
        _ => None,
    }
}

/// The depth without the innermost lists that are empty.
fn settled(levels: &[&[Stmt]], depth: usize) -> usize
    requires { depth ≤ length levels.now }
    ensures within { result ≤ depth }
    ensures same { left_at levels.now result ≡ left_at levels.now depth }
    ensures some { IsSettled levels.now result }
{
    let mut depth = depth;
    while depth > 0 {
        let list = levels[depth - 1];
        if !list.is_empty() {
            return depth;
        }
        depth -= 1;
    }
    depth
}
