//! What a body does next.

ghost use Rattle.std.specs.Prelude.{◌≡◌, is_some, option_map};
ghost use Rattle.tpl_draft.specs.Prelude.{task_number, token_number};
ghost use Rattle.tpl_model.specs.Prelude.{cancellation, is_observe, outcome_of, steps, worked, works};
ghost use Rattle.tpl_run.specs.Prelude.{cancel_of, next_in, passed, start_of};

use crate::run::Next;
use tpl_model::{Answer, Cursor, Label, Outcome, Stmt, TaskId, TokenId};

/// How a check of a requested token ends a body: the own token acknowledges the cancellation, another one throws (Task
/// Parallel Library guide: task cancellation).
fn canceled(own: Option<TokenId>, token: TokenId) -> Outcome
    ensures { result ≡ cancellation (option_map token_number own) token.0 }
{
    let is_own = match own {
        None => false,
        Some(own) => own.0 == token.0,
    };
    if is_own {
        Outcome::Acknowledged
    } else {
        Outcome::Threw(Label::OperationCanceled(token))
    }
}

/// Passes the next statement, if it isn't a job, and returns the outcome, if it ends the body. `holds` is what the
/// statement tests.
pub(crate) fn pass(rest: &mut Cursor, own: Option<TokenId>, holds: bool) -> Option<Outcome>
    ensures { passed (option_map token_number own) holds rest.old
        ≡ record { left = rest.new; outcome = result } }
{
    let Some(statement) = rest.first() else {
        return None;
    };
    let outcome = match statement {
        Stmt::Return => Outcome::Returned,
        Stmt::Throw(label) => Outcome::Threw(Label::Thrown(*label)),
        Stmt::Check(token) => {
            if !holds {
                rest.pass();
                return None;
            }
            canceled(own, *token)
        }
        Stmt::Cancel(_) | Stmt::Start(_) | Stmt::Observe => {
            rest.pass();
            return None;
        }
        Stmt::Work(_, _) => return None,
        Stmt::If(_, _, _) | Stmt::When(_, _, _) => {
            rest.enter(holds);
            return None;
        }
    };
    rest.finish();
    Some(outcome)
}

/// Passes a job that has answered, and returns the outcome, if it ends the body.
pub(crate) fn pass_job(rest: &mut Cursor, answer: Answer) -> Option<Outcome>
    ensures { worked answer rest.old ≡ record { left = rest.new; outcome = result } }
{
    let Some(statement) = rest.first() else {
        return None;
    };
    match answer {
        Answer::Done => {
            rest.pass();
            None
        }
        Answer::Failed => {
            let Stmt::Work(site, _) = statement else {
                return None;
            };
            let outcome = Outcome::Threw(Label::WorkFailed(*site));
            rest.finish();
            Some(outcome)
        }
    }
}

/// The token that the next statement cancels.
pub(crate) fn cancels(rest: &Cursor) -> Option<TokenId>
    ensures { option_map token_number result ≡ cancel_of rest.now }
{
    match rest.first() {
        Some(Stmt::Cancel(token)) => Some(*token),
        _ => None,
    }
}

/// The child that the next statement starts.
pub(crate) fn starts(rest: &Cursor) -> Option<TaskId>
    ensures { option_map task_number result ≡ start_of rest.now }
{
    match rest.first() {
        Some(Stmt::Start(child)) => Some(*child),
        _ => None,
    }
}

/// The next statement observes the subject's exception.
pub(crate) fn observes(rest: &Cursor) -> bool
    ensures { result ≡ is_observe rest.now }
{
    matches!(rest.first(), Some(Stmt::Observe))
}

/// The next statement is one that a step passes.
pub(crate) fn steps(rest: &Cursor) -> bool
    ensures { result ≡ steps rest.now }
{
    match rest.first() {
        None | Some(Stmt::Work(_, _)) => false,
        Some(_) => true,
    }
}

/// The next statement is a job that may give this answer.
pub(crate) fn works(answer: Answer, rest: &Cursor) -> bool
    ensures { result ≡ works answer rest.now }
{
    match rest.first() {
        Some(Stmt::Work(_, may_fail)) => match answer {
            Answer::Done => true,
            Answer::Failed => *may_fail,
        },
        _ => false,
    }
}

/// The outcome of a body that is over.
pub(crate) fn outcome_now(outcome: Option<Outcome>, rest: &Cursor) -> Option<Outcome>
    ensures { result ≡ outcome_of outcome rest.now }
{
    match outcome {
        Some(outcome) => Some(outcome),
        None => match rest.first() {
            None => Some(Outcome::Returned),
            Some(_) => None,
        },
    }
}

/// What comes next in a body that runs.
pub(crate) fn next(outcome: Option<Outcome>, rest: &Cursor) -> Next
    ensures { result ≡ next_in outcome rest.now }
{
    if outcome.is_some() {
        return Next::Over;
    }
    match rest.first() {
        None => Next::Over,
        Some(Stmt::Work(site, _)) => Next::Work(*site),
        Some(_) => Next::Silent,
    }
}
