//! Rows of certificate trees.

ghost use Rattle.std.specs.Prelude.{◌≡◌, ◌↔◌, ℕ, IsTrue, []};
ghost use Rattle.tpl_model.specs.Prelude.{mem};
ghost use Rattle.tpl_paths.specs.Prelude.{has_token};
ghost use Rattle.tpl_trees.specs.Prelude.{HasTokenSets, tokens_in};

use crate::plain_row::PlainRow;
use std::marker::Model;
use tpl_paths::TokenSet;

/// What a leaf says of one task, and of the tokens that are requested when it begins and when it has ended. Contracts
/// see it with lists of the tokens' numbers.
#[derive(Drop)]
pub struct Row {
    row: PlainRow,
    asked: TokenSet,
    asks: TokenSet,
}

impl Model for Row {
    ghost use Rattle.tpl_model.specs.Certificate as certificate;
    ghost use Rattle.tpl_trees.specs.Coding.{row_code, tokens_in};

    ghost Value = { certificate.Row };

    ghost coded = { row_code };

    ghost view = { λ r. record {
      row = r.row;
      asked = tokens_in r.asked;
      asks = tokens_in r.asks;
    } };
}

impl Row {
    /// A row, with the tokens that are requested when its task begins, and those that are when it has ended.
    pub fn new(row: PlainRow, asked: TokenSet, asks: TokenSet) -> Row
        ensures row { result.row ≡ row }
        ensures asked { result.asked ≡ tokens_in asked }
        ensures asks { result.asks ≡ tokens_in asks }
    {
        Row { row, asked, asks }
    }

    /// The row that says nothing of tokens besides.
    pub fn without_tokens(row: PlainRow) -> Row
        ensures row { result.row ≡ row }
        ensures asked { result.asked ≡ [] }
        ensures asks { result.asks ≡ [] }
    {
        Row {
            row,
            asked: TokenSet::empty(),
            asks: TokenSet::empty(),
        }
    }

    /// Whether it says nothing of tokens.
    pub fn is_plain(&self) -> bool
        ensures { IsTrue result ↔ ((self.now.asked ≡ []) × (self.now.asks ≡ [])) }
    {
        let (asked, asks) = (self.asked, self.asks);
        let none = TokenSet::empty();
        asked.limit_law();
        asks.limit_law();
        asked.is_subset(none) && asks.is_subset(none)
    }

    /// Its tokens are sets: a caller that needs it calls this, which does nothing.
    pub fn sets_law(&self)
        ensures { HasTokenSets self.now }
    {
        let (asked, asks) = (self.asked, self.asks);
        asked.limit_law();
        asks.limit_law();
    }

    /// What it says besides of its task.
    pub fn row(&self) -> &PlainRow
        ensures { result.now ≡ self.now.row }
    {
        &self.row
    }

    /// The tokens that are requested when its task begins.
    pub fn asked(&self) -> TokenSet
        ensures members { (k : ℕ) → has_token result k ≡ mem k self.now.asked }
        ensures list { tokens_in result ≡ self.now.asked }
    {
        self.asked.limit_law();
        self.asked
    }

    /// The tokens that are requested when it has ended.
    pub fn asks(&self) -> TokenSet
        ensures members { (k : ℕ) → has_token result k ≡ mem k self.now.asks }
        ensures list { tokens_in result ≡ self.now.asks }
    {
        self.asks.limit_law();
        self.asks
    }
}
