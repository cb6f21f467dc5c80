//! Tokens that are requested with others.

ghost use Rattle.std.specs.Prelude.{◌≡◌, ◌||◌, ℕ, map, nat_eq, slice_index_or};
ghost use Rattle.tpl_draft.specs.Prelude.{token_number};
ghost use Rattle.tpl_token_leaf.specs.Prelude.{AreLinks};
ghost use Rattle.tpl_model.specs.Prelude.{is_token, linked, some_in, sources};
ghost use Rattle.tpl_paths.specs.Prelude.{has_token, no_tokens};

use tpl_graph::Graph;
use tpl_model::{MOST_TOKENS, TokenId};
use tpl_paths::TokenSet;

/// By each token of a graph those that are requested with it.
pub fn links(graph: &Graph) -> [TokenSet; MOST_TOKENS]
    ensures { AreLinks graph.now.graph result }
{
    graph.valid_law();
    let mut sets = [TokenSet::empty(); MOST_TOKENS];
    for token in 0..graph.token_count() {
        sets[token] = links_of(graph, TokenId(token as u8));
    }
    sets
}

/// The tokens that are requested with one: itself, each that is linked to it, and so on. A token is declared after those
/// to which it is linked, so one pass finds them.
fn links_of(graph: &Graph, token: TokenId) -> TokenSet
    requires { is_token graph.now.graph token.0 }
    ensures { (j : ℕ) → has_token result j ≡ linked graph.now.graph token.0 j }
{
    graph.valid_law();
    let mut found = TokenSet::empty();
    for number in 0..graph.token_count() {
        let other = TokenId(number as u8);
        if is_linked(graph, token, other, found) {
            found.insert(other);
        }
    }
    found
}

/// The other token is the one itself, or one of its sources is found.
fn is_linked(graph: &Graph, token: TokenId, other: TokenId, found: TokenSet) -> bool
    requires { is_token graph.now.graph other.0 }
    ensures { result ≡ (nat_eq token.0 other.0
        || some_in (has_token found) (sources graph.now.graph other.0)) }
{
    token.0 == other.0 || has_some(found, graph.sources(other))
}

/// One of the tokens is in the set.
fn has_some(set: TokenSet, tokens: &[TokenId]) -> bool
    ensures { result ≡ some_in (has_token set) (map token_number tokens.now) }
{
    for token in tokens {
        if set.contains(*token) {
            return true;
        }
    }
    false
}

/// The set of the token.
pub(crate) fn linked_with(sets: &[TokenSet], token: TokenId) -> TokenSet
    ensures { result ≡ slice_index_or sets.now token.0 no_tokens }
{
    let at = token.0 as usize;
    if at < sets.len() {
        sets[at]
    } else {
        TokenSet::empty()
    }
}
