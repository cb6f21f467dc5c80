//! Which tokens are requested.

ghost use Rattle.std.specs.Prelude.{◌≡◌, ℕ, ◌<◌, ◌||◌, Bool, List, length, slice_index_or, false, option_map};
ghost use Rattle.tpl_draft.specs.Prelude.{token_number};
ghost use Rattle.tpl_fast.specs.Tokens.{AreAsked};
ghost use Rattle.tpl_model.specs.Prelude.{requested_itself};
ghost use Rattle.tpl_model.specs.declared.event.Event.{Event as SpecEvent};
ghost use Rattle.tpl_run.specs.Prelude.{is_it};

use tpl_graph::Graph;
use tpl_model::{MOST_TOKENS, TokenId};
use tpl_run::tokens::{close, none_requested};

/// The tokens that were requested themselves, and those that are requested, themselves or through their sources.
#[derive(Clone, Copy)]
pub(crate) struct Asked {
    itself: [bool; MOST_TOKENS],
    closed: [bool; MOST_TOKENS],
}

/// Marks the token.
fn mark(table: &mut [bool; MOST_TOKENS], token: TokenId)
    ensures marks { (k : ℕ) → k < MOST_TOKENS → slice_index_or table.new k false
        ≡ (is_it (option_map token_number (Some token)) k || slice_index_or table.old k false) }
    ensures count { length table.new ≡ length table.old }
{
    let at = token.0 as usize;
    if at < MOST_TOKENS {
        table[at] = true;
    }
}

impl Asked {
    /// No token is requested.
    pub fn none() -> Asked
        ensures itself { (k : ℕ) → slice_index_or result.itself k false ≡ false }
        ensures closed { (k : ℕ) → slice_index_or result.closed k false ≡ false }
        ensures itself_count { length result.itself ≡ MOST_TOKENS }
        ensures count { length result.closed ≡ MOST_TOKENS }
    {
        Asked {
            itself: none_requested(),
            closed: none_requested(),
        }
    }

    /// The token is requested.
    pub fn has(&self, token: TokenId) -> bool
        ensures { result ≡ slice_index_or self.now.closed token.0 false }
    {
        let at = token.0 as usize;
        at < MOST_TOKENS && self.closed[at]
    }

    /// Which tokens are requested.
    pub fn all(&self) -> [bool; MOST_TOKENS]
        ensures { result ≡ self.now.closed }
    {
        self.closed
    }

    /// One more token is requested, if there is one, and with it those that are linked to it.
    pub fn request(&mut self, token: Option<TokenId>, graph: &Graph)
        ensures { (v : List Bool) (h later : List SpecEvent) → AreAsked graph.now.graph v h
            self.old.itself self.old.closed
            → ((k : ℕ) → requested_itself graph.now.graph v later k
            ≡ (is_it (option_map token_number token) k || requested_itself graph.now.graph v h k))
            → AreAsked graph.now.graph v later self.new.itself self.new.closed }
    {
        graph.valid_law();
        if let Some(token) = token {
            mark(&mut self.itself, token);
            self.closed = close(&self.itself, graph);
        }
    }
}
