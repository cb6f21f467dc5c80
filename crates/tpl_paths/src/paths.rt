//! The paths of one kind to a place, by what they have in common: none where there are no paths.

ghost use Rattle.std.specs.Prelude.{◌≡◌};
ghost use Rattle.tpl_model.specs.Prelude.{known, meet, past_check, when, with_facts, with_tokens};
ghost use Rattle.tpl_paths.specs.Prelude.{has_fact, has_token, told};

use crate::facts::Facts;
use crate::knowledge::Knowledge;
use crate::token_set::TokenSet;
use tpl_model::{TokenId, View};

/// What both sets of paths have in common, if the others count; else what the first have.
pub(crate) fn meet_if(test: bool, paths: &mut Option<Knowledge>, others: &Option<Knowledge>)
    ensures { told paths.new ≡ meet (told paths.old) (when test (told others.now)) }
{
    if test {
        meet(paths, others);
    }
}

/// What both sets of paths have in common.
pub(crate) fn meet(paths: &mut Option<Knowledge>, others: &Option<Knowledge>)
    ensures { told paths.new ≡ meet (told paths.old) (told others.now) }
{
    match others {
        None => {}
        Some(other) => match paths {
            None => *paths = Some(other.copy()),
            Some(known) => known.narrow(other.requested, &other.later),
        },
    }
}

/// What both sets of paths have in common, if the others count, which know these tokens too; else what the first have.
pub(crate) fn meet_knowing_if(
    test: bool,
    paths: &mut Option<Knowledge>,
    tokens: TokenSet,
    others: &Option<Knowledge>,
)
    ensures { told paths.new ≡ meet (told paths.old) (when test (with_tokens (has_token tokens)
        (told others.now))) }
{
    if test {
        meet_knowing(paths, tokens, others);
    }
}

/// What both sets of paths have in common, where the others know these tokens too.
fn meet_knowing(paths: &mut Option<Knowledge>, tokens: TokenSet, others: &Option<Knowledge>)
    ensures { told paths.new ≡ meet (told paths.old) (with_tokens (has_token tokens)
        (told others.now)) }
{
    match others {
        None => {}
        Some(other) => match paths {
            None => *paths = Some(other.knowing(tokens)),
            Some(known) => {
                let other = other.knowing(tokens);
                known.narrow(other.requested, &other.later);
            }
        },
    }
}

/// The paths, if the test holds.
pub(crate) fn keep_if(test: bool, paths: &mut Option<Knowledge>)
    ensures { told paths.new ≡ when test (told paths.old) }
{
    if !test {
        *paths = None;
    }
}

/// The paths know these tokens too.
pub(crate) fn add_tokens(tokens: TokenSet, paths: &mut Option<Knowledge>)
    ensures { told paths.new ≡ with_tokens (has_token tokens) (told paths.old) }
{
    match paths {
        None => {}
        Some(known) => *known = known.knowing(tokens),
    }
}

/// The paths have these facts of a child too.
pub(crate) fn add_facts(facts: &Facts, paths: &mut Option<Knowledge>)
    ensures { told paths.new ≡ with_facts (has_fact facts.now) (told paths.old) }
{
    match paths {
        None => {}
        Some(known) => known.later = facts.union(&known.later),
    }
}

/// The paths that go on at a check of the token: it is never requested, or they don't know that it
/// is.
pub(crate) fn pass_check(view: &View, token: TokenId, paths: &mut Option<Knowledge>)
    ensures { told paths.new ≡ past_check (known view.now) token.0 (told paths.old) }
{
    let passed = match paths {
        None => true,
        Some(known) => view.is_quiet(token) || !known.requested.contains(token),
    };
    keep_if(passed, paths);
}
