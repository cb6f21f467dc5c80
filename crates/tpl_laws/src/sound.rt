//! What an accepted certificate promises.

ghost use Rattle.tpl_laws.specs.Prelude.{MoreIsAssumed, SomeLeafIsTrue, SomeTokenLeafIsTrue, SoundByRules, Soundness, TokensAcceptMore, TokensAreMore, TokenRowsAreTrue, TokenSoundness};

/// Where a certificate is accepted, each claim holds in each run.
pub fn soundness()
    ensures { Soundness }
{}

/// Rows that are closed stay so where more is assumed, and prove what they did.
pub fn more_is_assumed()
    ensures { MoreIsAssumed }
{}

/// What rows with tokens say is true of each run that agrees with their leaf, where the rules with tokens close it.
pub fn token_rows_are_true()
    ensures { TokenRowsAreTrue }
{}

/// Where a certificate of rows with tokens is accepted, each claim holds in each run.
pub fn token_soundness()
    ensures { TokenSoundness }
{}

/// Rows that are closed without tokens are closed with them, and prove what they did.
pub fn tokens_are_more()
    ensures { TokensAreMore }
{}

/// A certificate that is accepted without tokens is accepted with them.
pub fn tokens_accept_more()
    ensures { TokensAcceptMore }
{}

/// What the rows of some leaf of a tree that the rules without tokens accept say is true of each run of which the claim's given
/// is true.
pub fn some_leaf_is_true()
    ensures { SomeLeafIsTrue }
{}

/// What the rows of some leaf of a tree that the rules with tokens accept say is true of each run of which the claim's given is
/// true.
pub fn some_token_leaf_is_true()
    ensures { SomeTokenLeafIsTrue }
{}

/// Where a certificate is accepted by the rules without tokens or by those with tokens, each claim holds in each run.
pub fn sound_by_rules()
    ensures { SoundByRules }
{
    soundness();
    token_soundness();
}
