//! Requested tokens: what they stop, and what they don't.

ghost use Rattle.tpl_examples.specs.Cancellation.{CheckOfAnotherTokenThrows, CheckOfTheOwnTokenCancels, CheckOfAnUnrequestedTokenGoesOn, BodyThatNeverChecksIsNotStopped, RequestedBeforeItBegins, OnlyTheOwnTokenCancels, TokenIsRequestedOnce, CancelStatementRequests, CancelOfTheOwnToken, CancelOfARequestedToken};

/// A check of a requested token that is not the task's own throws.
pub fn check_of_another_token_throws()
    ensures { CheckOfAnotherTokenThrows }
{}

/// A check of the own requested token acknowledges the cancellation.
pub fn check_of_the_own_token_cancels()
    ensures { CheckOfTheOwnTokenCancels }
{}

/// A check of a token that isn't requested goes on.
pub fn check_of_an_unrequested_token_goes_on()
    ensures { CheckOfAnUnrequestedTokenGoesOn }
{}

/// A body that never checks is not stopped, and its task is not canceled once it has begun.
pub fn body_that_never_checks_is_not_stopped()
    ensures { BodyThatNeverChecksIsNotStopped }
{}

/// A task whose token is requested before it begins doesn't begin, and anyone may cancel it.
pub fn requested_before_it_begins()
    ensures { RequestedBeforeItBegins }
{}

/// A task is not canceled without a request, and the request of another token doesn't count.
pub fn only_the_own_token_cancels()
    ensures { OnlyTheOwnTokenCancels }
{}

/// The outside requests a token of the graph, once; a worker doesn't.
pub fn token_is_requested_once()
    ensures { TokenIsRequestedOnce }
{}

/// A cancel statement requests a token when it is passed, and the body goes on to its next check.
pub fn cancel_statement_requests()
    ensures { CancelStatementRequests }
{}

/// A body may cancel its own task's token, and acknowledge it.
pub fn cancel_of_the_own_token()
    ensures { CancelOfTheOwnToken }
{}

/// A cancel of a token that is requested already changes nothing, and is passed.
pub fn cancel_of_a_requested_token()
    ensures { CancelOfARequestedToken }
{}
