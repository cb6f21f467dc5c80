//! The paths to a place.

ghost use Rattle.std.specs.Prelude.{◌≡◌, ◌↔◌, IsTrue};
ghost use Rattle.tpl_model.specs.Prelude.{behind_start, both, from, join, known, nowhere, past_check, with_tokens};
ghost use Rattle.tpl_paths.specs.Prelude.{child_of, end_of, has_token, reached_of};

use crate::knowledge::Knowledge;
use crate::paths::{add_facts, add_tokens, keep_if, meet, meet_if, pass_check};
use crate::reading::ChildEnd;
use crate::token_set::TokenSet;
use tpl_model::{Final, TokenId, View};

/// The paths to a place, those on which no attached child ends Faulted and the others: none where
/// there are no paths.
#[derive(Drop)]
pub(crate) struct Reached {
    pub(crate) unburdened: Option<Knowledge>,
    pub(crate) burdened: Option<Knowledge>,
}

impl Reached {
    /// There is no path.
    pub(crate) fn is_nowhere(&self) -> bool
        ensures { IsTrue result ↔ (reached_of self.now ≡ nowhere) }
    {
        match self.unburdened {
            Some(_) => false,
            None => match self.burdened {
                Some(_) => false,
                None => true,
            },
        }
    }

    /// No path is left.
    pub(crate) fn clear(&mut self)
        ensures { reached_of self.new ≡ nowhere }
    {
        self.unburdened = None;
        self.burdened = None;
    }

    /// The one path before the first statement, which knows these tokens.
    pub(crate) fn begin(tokens: TokenSet) -> Reached
        ensures { reached_of result ≡ from (has_token tokens) }
    {
        Reached {
            unburdened: Some(Knowledge::of(tokens)),
            burdened: None,
        }
    }

    /// A copy.
    pub(crate) fn copy(&self) -> Reached
        ensures { reached_of result ≡ reached_of self.now }
    {
        let mut copied = Reached {
            unburdened: None,
            burdened: None,
        };
        copied.join(self);
        copied
    }

    /// The paths of either.
    pub(crate) fn join(&mut self, other: &Reached)
        ensures { reached_of self.new ≡ join (reached_of self.old) (reached_of other.now) }
    {
        meet(&mut self.unburdened, &other.unburdened);
        meet(&mut self.burdened, &other.burdened);
    }

    /// The paths know these tokens too.
    pub(crate) fn add_tokens(&mut self, tokens: TokenSet)
        ensures { reached_of self.new ≡ both (with_tokens (has_token tokens))
            (reached_of self.old) }
    {
        add_tokens(tokens, &mut self.unburdened);
        add_tokens(tokens, &mut self.burdened);
    }

    /// The paths that go on at a check of the token.
    pub(crate) fn pass_check(&mut self, view: &View, token: TokenId)
        ensures { reached_of self.new ≡ both (past_check (known view.now) token.0)
            (reached_of self.old) }
    {
        pass_check(view, token, &mut self.unburdened);
        pass_check(view, token, &mut self.burdened);
    }

    /// The paths behind the start of a child, which is attached if its end is given.
    pub(crate) fn pass_start(&mut self, child: Option<&ChildEnd>)
        ensures { reached_of self.new ≡ behind_start (child_of child.entry)
            (reached_of self.old) }
    {
        match child {
            None => {}
            Some(child) => self.pass_child(child),
        }
    }

    /// The paths behind the start of an attached child: they choose its end. Those on which it ends
    /// Faulted are burdened, and so are those that were.
    fn pass_child(&mut self, child: &ChildEnd)
        ensures { reached_of self.new ≡ behind_start (Some (end_of child.now))
            (reached_of self.old) }
    {
        let well = child.ends_well();
        let faulted = child.ends.contains(Final::Faulted);
        keep_if(child.may_end(), &mut self.burdened);
        meet_if(faulted, &mut self.burdened, &self.unburdened);
        add_facts(&child.facts, &mut self.burdened);
        keep_if(well, &mut self.unburdened);
        add_facts(&child.facts, &mut self.unburdened);
    }
}
