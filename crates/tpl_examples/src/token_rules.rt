//! Worked leaves of rows that speak of tokens.

ghost use Rattle.tpl_examples.specs.TokenRules.{TokenIsAsked, CheckEnds, CheckPassed, OwnTokenIsNotKnown, ChildBurdens, ChildIsStuck, ChildAsks, DroppedChild, DroppedEarlyOrNot, OfArguments, CutBack, CutBackOfAll};

/// A token that a task surely requests keeps a continuation with it from beginning.
pub fn token_is_asked()
    ensures { TokenIsAsked }
{}

/// A check of a token that the path has requested ends it.
pub fn check_ends()
    ensures { CheckEnds }
{}

/// A check that was passed says nothing of its token.
pub fn check_passed()
    ensures { CheckPassed }
{}

/// A task that may end by its body says nothing of its own token.
pub fn own_token_is_not_known()
    ensures { OwnTokenIsNotKnown }
{}

/// An attached child that ends Faulted burdens its parent.
pub fn child_burdens()
    ensures { ChildBurdens }
{}

/// A parent of an attached child that never ends doesn't either, and still starts the next one.
pub fn child_is_stuck()
    ensures { ChildIsStuck }
{}

/// What a child requests is known once its parent has ended, and not before.
pub fn child_asks()
    ensures { ChildAsks }
{}

/// A child whose token is requested where it is started doesn't begin, and is canceled.
pub fn dropped_child()
    ensures { DroppedChild }
{}

/// What holds where a continuation is canceled is what all its ways have in common.
pub fn dropped_early_or_not()
    ensures { DroppedEarlyOrNot }
{}

/// Of WhenAll what one argument has holds, of WhenAny what all have.
pub fn of_arguments()
    ensures { OfArguments }
{}

/// A split on how a continuation ends narrows how its antecedent did.
pub fn cut_back()
    ensures { CutBack }
{}

/// A split on how WhenAll ends narrows how its arguments did.
pub fn cut_back_of_all()
    ensures { CutBackOfAll }
{}
