//! What a token comes from.

use tpl_model::TokenId;

/// A token, of a source of its own or of one that is linked to other tokens.
#[derive(Drop)]
pub enum Origin {
    Plain,
    Linked(Vec<TokenId>),
}
