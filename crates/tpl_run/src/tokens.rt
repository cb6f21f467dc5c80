//! Tables of tokens.

ghost use Rattle.std.specs.Prelude.{◌≡◌, ℕ, ◌<◌, ◌||◌, Bool, List, length, map, slice_index_or, false};
ghost use Rattle.tpl_draft.specs.Prelude.{token_number};
ghost use Rattle.tpl_model.specs.Prelude.{some_in};
ghost use Rattle.tpl_model.specs.declared.event.Event.{Event as SpecEvent};
ghost use Rattle.tpl_run.specs.Prelude.{IsTable};

use tpl_graph::Graph;
use tpl_laws::requested_by_a_source;
use tpl_model::{MOST_TOKENS, TokenId};

/// No token is requested.
pub fn none_requested() -> [bool; MOST_TOKENS]
    ensures off { (k : ℕ) → slice_index_or result k false ≡ false }
    ensures many { length result ≡ MOST_TOKENS }
{
    [false; MOST_TOKENS]
}

/// One of the tokens is marked in the table.
fn some_in(table: &[bool; MOST_TOKENS], tokens: &[TokenId]) -> bool
    ensures { result ≡ some_in (λ k. slice_index_or table.now k false)
        (map token_number tokens.now) }
{
    for token in tokens {
        let at = token.0 as usize;
        if at < MOST_TOKENS && table[at] {
            return true;
        }
    }
    false
}

/// A token or one of its sources is marked in the table.
fn is_marked(table: &[bool; MOST_TOKENS], token: TokenId, sources: &[TokenId]) -> bool
    requires { token.0 < MOST_TOKENS }
    ensures { result ≡ (slice_index_or table.now token.0 false
        || some_in (λ k. slice_index_or table.now k false) (map token_number sources.now)) }
{
    table[token.0 as usize] || some_in(table, sources)
}

/// Which tokens are requested, themselves or through their sources, by those that were requested themselves.
pub fn close(itself: &[bool; MOST_TOKENS], graph: &Graph) -> [bool; MOST_TOKENS]
    ensures { (v : List Bool) (h : List SpecEvent) → IsTable graph.now.graph v h itself.now 0
        → IsTable graph.now.graph v h result (length graph.now.graph.tokens) }
{
    graph.valid_law();
    requested_by_a_source();
    let mut table = *itself;
    for i in 0..graph.token_count() {
        let token = TokenId(i as u8);
        let marked = is_marked(&table, token, graph.sources(token));
        table[i] = marked;
    }
    table
}
