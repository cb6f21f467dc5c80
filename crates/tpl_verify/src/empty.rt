//! Why a claim that holds says nothing.

ghost use Rattle.std.specs.Prelude.{◌≡◌, ◌↔◌, Bool, true, IsTrue, IfOk, IfSome, is_some};
ghost use Rattle.tpl_checker.specs.Prelude.{assumed_of};
ghost use Rattle.tpl_graph.specs.Prelude.{AreGivenOf, Fits};
ghost use Rattle.tpl_model.specs.Prelude.{end_left, has, is_task, kind, to_end};
ghost use Rattle.tpl_model.specs.declared.finals.Final.{Final};
ghost use Rattle.tpl_verify.specs.Prelude.{EmptyClaimsHold, EndsAnyhow, EndsAsGiven, HasNoLabel, HoldsAlways, IsEmpty, IsNeverKept, IsPlainlyEmpty, LacksThrow, HasNoEnd, SpeaksOfBegin, SpeaksOfComplete, ThrowsNowhere};

use crate::certifying::is_certified;
use crate::limits::unsplit;
use crate::question::Question;
use crate::verdict::Empty;
use std::alloc::{AllocError, Global};
use tpl_checker::{Assumptions, assumed, parent};
use tpl_graph::{Claim, Graph, Kind};
use tpl_model::{Final, Finals, Given, Property, RuleSet, TaskId, may};
use tpl_outline::cancels_quiet;
use tpl_refute::Seen;

/// The most tasks whose bodies request a quiet token of which it is tried whether they never end (this program's own
/// limit).
const MOST_TRIED: usize = 32;

/// Each end but `Faulted`.
const UNFAULTED: Finals = Finals {
    ran: true,
    canceled: true,
    faulted: false,
};

/// Each end.
const EACH_END: Finals = Finals {
    ran: true,
    canceled: true,
    faulted: true,
};

/// No end.
const NO_END: Finals = Finals {
    ran: false,
    canceled: false,
    faulted: false,
};

/// The tasks of whose begin alone the property speaks: none, one or two.
fn needed(body: Property) -> (Option<TaskId>, Option<TaskId>)
    ensures first { IfSome result.0 (λ t. SpeaksOfBegin body t.0) }
    ensures second { IfSome result.1 (λ t. SpeaksOfBegin body t.0) }
{
    match body {
        Property::Final(task, ends) => {
            if ends.ran || ends.faulted {
                (Some(task), None)
            } else {
                (None, None)
            }
        }
        Property::After(_, second) => (Some(second), None),
        Property::Observed(task) => (Some(task), None),
        Property::Never(_) | Property::Runs(_) => (None, None),
        Property::Excludes(one, other) => (Some(one), Some(other)),
    }
}

/// The property lets its task end in each way.
fn ends_anyhow(body: Property) -> bool
    ensures { IsTrue result ↔ EndsAnyhow body }
{
    match body {
        Property::Final(_, ends) => ends.ran && ends.canceled && ends.faulted,
        _ => false,
    }
}

/// How the task may end by what is assumed.
fn ends_left(left: &Assumptions, task: TaskId) -> Finals
    ensures { (f : Final) → has result f ≡ end_left (assumed_of left.now) task.0 f }
{
    Finals {
        ran: left.may_end(task, Final::RanToCompletion),
        canceled: left.may_end(task, Final::Canceled),
        faulted: left.may_end(task, Final::Faulted),
    }
}

/// The property lets its task end in each way that what is given leaves.
fn ends_as_given(question: &Question<'_, '_>) -> bool
    requires { Fits question.now.graph.now.graph question.now.claim.now }
    ensures { IsTrue result
        ↔ EndsAsGiven question.now.claim.now.given question.now.claim.now.body }
{
    match question.claim.body() {
        Property::Final(task, ends) => {
            let left = assumed(question.graph, question.claim.given());
            ends_left(&left, task).is_subset(&ends)
        }
        _ => false,
    }
}

/// Whether this task, if there is one, never begins.
fn never_begins(
    question: &Question<'_, '_>,
    task: Option<TaskId>,
) -> Result<Option<Empty>, AllocError>
    requires { IfSome task (λ t. SpeaksOfBegin question.now.claim.now.body t.0) }
    ensures { HoldsAlways question.now.graph.now.graph question.now.claim.now
        → IfOk result (λ found. IfSome found (IsEmpty question.now.graph.now.graph
        question.now.claim.now)) }
{
    match task {
        None => Ok(None),
        Some(task) => {
            let body = Property::Never(task);
            let never = is_certified(question, body)?;
            if never {
                Ok(Some(Empty::NeverBegins(task)))
            } else {
                Ok(None)
            }
        }
    }
}

/// Whether a task never begins whose begin the claim needs to say something.
fn lacks_begin(question: &Question<'_, '_>) -> Result<Option<Empty>, AllocError>
    ensures { HoldsAlways question.now.graph.now.graph question.now.claim.now
        → IfOk result (λ found. IfSome found (IsEmpty question.now.graph.now.graph
        question.now.claim.now)) }
{
    let (first, second) = needed(question.claim.body());
    match never_begins(question, first)? {
        Some(empty) => Ok(Some(empty)),
        None => never_begins(question, second),
    }
}

/// The body of the task can't throw where this is given, whatever its subject does.
fn throws_nowhere(graph: &Graph, given: &[Given], task: TaskId) -> bool
    requires given { AreGivenOf graph.now.graph given.now }
    requires task { is_task graph.now.graph task.0 }
    ensures { IsTrue result ↔ ThrowsNowhere graph.now.graph given.now task.0 }
{
    let view = assumed(graph, given).view(graph.own_token(task), EACH_END);
    !may(graph.body(task), &view).thrown
}

/// Whether the body of the task throws in no complete run where the claim's given is true: it can't, or the task never
/// ends faulted.
fn never_throws(question: &Question<'_, '_>, task: TaskId) -> Result<bool, AllocError>
    requires fits { Fits question.now.graph.now.graph question.now.claim.now }
    requires task { is_task question.now.graph.now.graph task.0 }
    ensures never { IfOk result (λ never. IsTrue never
        → HasNoLabel question.now.graph.now.graph question.now.claim.now.given task.0) }
    ensures nowhere { IfOk result (λ never. ThrowsNowhere
        question.now.graph.now.graph question.now.claim.now.given task.0 → IsTrue never) }
{
    question.graph.valid_law();
    if throws_nowhere(question.graph, question.claim.given(), task) {
        return Ok(true);
    }
    let body = Property::Final(task, UNFAULTED);
    let never = is_certified(question, body)?;
    Ok(never)
}

/// Whether there is no exception to observe.
fn lacks_exception(question: &Question<'_, '_>) -> Result<Option<Empty>, AllocError>
    requires { Fits question.now.graph.now.graph question.now.claim.now }
    ensures empty { IfOk result (λ found. IfSome found (IsEmpty question.now.graph.now.graph
        question.now.claim.now)) }
    ensures plain { IfOk result (λ found. LacksThrow
        question.now.graph.now.graph question.now.claim.now → IsTrue (is_some found)) }
{
    match question.claim.body() {
        Property::Observed(task) => {
            let never = never_throws(question, task)?;
            if never {
                Ok(Some(Empty::NeverThrows))
            } else {
                Ok(None)
            }
        }
        _ => Ok(None),
    }
}

/// The task has ended in each complete run: it is no child.
fn has_to_end(graph: &Graph, task: TaskId) -> bool
    requires { is_task graph.now.graph task.0 }
    ensures { IsTrue result
        → (started : Bool) → to_end (kind graph.now.graph task.0) started ≡ true }
{
    match graph.kind(task) {
        Kind::Child => false,
        Kind::Root => true,
        Kind::Then => true,
        Kind::All => true,
        Kind::Any => true,
    }
}

/// Whether the task never ends where what the claim takes as given is true.
fn never_ends(question: &Question<'_, '_>, task: TaskId) -> Result<bool, AllocError>
    ensures { IfOk result (λ never. IsTrue never
        → HasNoEnd question.now.graph.now.graph question.now.claim.now.given task) }
{
    let body = Property::Final(task, NO_END);
    is_certified(question, body)
}

/// Whether a task whose ends are given never ends so.
fn lacks_end(question: &Question<'_, '_>) -> Result<Option<Empty>, AllocError>
    ensures { HoldsAlways question.now.graph.now.graph question.now.claim.now
        → IfOk result (λ found. IfSome found (IsEmpty question.now.graph.now.graph
        question.now.claim.now)) }
{
    for given in question.claim.given() {
        if let Given::Ended(task, _) = given {
            let never = never_ends(question, *task)?;
            if never {
                return Ok(Some(Empty::NeverEndsSo(*task)));
            }
        }
    }
    Ok(None)
}

/// Whether the claim speaks of how a task ends that never does.
fn lacks_own_end(question: &Question<'_, '_>) -> Result<Option<Empty>, AllocError>
    ensures { IfOk result (λ found. IfSome found (IsEmpty question.now.graph.now.graph
        question.now.claim.now)) }
{
    match question.claim.body() {
        Property::Final(task, _) => {
            let never = never_ends(question, task)?;
            if never {
                Ok(Some(Empty::NeverEnds(task)))
            } else {
                Ok(None)
            }
        }
        _ => Ok(None),
    }
}

/// Whether the task has ended in each complete run, and never ends where what the claim takes as given is true.
fn never_complete(question: &Question<'_, '_>, task: TaskId) -> Result<bool, AllocError>
    requires { is_task question.now.graph.now.graph task.0 }
    ensures { IfOk result (λ never. IsTrue never
        → IsNeverKept question.now.graph.now.graph question.now.claim.now.given) }
{
    if has_to_end(question.graph, task) {
        let never = never_ends(question, task)?;
        return Ok(never);
    }
    Ok(false)
}

/// The property speaks of complete runs alone.
fn speaks_of_complete(body: Property) -> bool
    ensures { IsTrue result ↔ SpeaksOfComplete body }
{
    matches!(body, Property::Observed(_) | Property::Runs(_))
}

/// The task itself; of a child the first task above it that is none. Where an attached child never ends, that one doesn't
/// either, once it has started the child.
fn above(graph: &Graph, task: TaskId) -> TaskId
    requires { is_task graph.now.graph task.0 }
    ensures { is_task graph.now.graph result.0 }
{
    let mut top = task;
    for _ in 0..graph.len() {
        match (graph.kind(top), parent(graph, top)) {
            (Kind::Child, Some(parent)) => top = parent,
            _ => return top,
        }
    }
    top
}

/// Whether the claim speaks of complete runs alone, and what it takes as given is true of none: a task whose body, or that of
/// a child of it, has to request a token that is given as quiet never ends.
fn lacks_run(question: &Question<'_, '_>) -> Result<Option<Empty>, AllocError>
    requires { Fits question.now.graph.now.graph question.now.claim.now }
    ensures { IfOk result (λ found. IfSome found (IsEmpty question.now.graph.now.graph
        question.now.claim.now)) }
{
    if !speaks_of_complete(question.claim.body()) {
        return Ok(None);
    }
    let graph = question.graph;
    let view = assumed(graph, question.claim.given()).view(None, NO_END);
    let mut left = MOST_TRIED;
    for number in 0..graph.len() {
        let task = TaskId(number as u16);
        if left > 0 && cancels_quiet(graph.body(task).body(), &view) {
            left -= 1;
            let never = never_complete(question, above(graph, task))?;
            if never {
                return Ok(Some(Empty::NeverKept));
            }
        }
    }
    Ok(None)
}

/// An empty claim holds in each run, whatever the reason: a caller that needs it calls this, which does nothing.
pub fn empty_claims_hold()
    ensures { EmptyClaimsHold }
{}

/// Why a claim says nothing if it holds, where that is certified without splits; of a claim that doesn't hold a reason promises
/// nothing. None promises only that the claim doesn't let its task end anyhow, nor in each way that what is given leaves, and
/// doesn't speak of the exception of a body of which no path throws. A claim that is empty for a reason holds in each run for
/// that reason alone ([`empty_claims_hold`]). Out of memory is the only error.
pub fn why_empty(
    alloc: Global,
    graph: &Graph,
    claim: &Claim,
    rules: RuleSet,
    seen: Option<&Seen>,
) -> Result<Option<Empty>, AllocError>
    requires { Fits graph.now.graph claim.now }
    ensures empty { HoldsAlways graph.now.graph claim.now
        → IfOk result (λ found. IfSome found (IsEmpty graph.now.graph claim.now)) }
    ensures plain { IfOk result (λ found. IsPlainlyEmpty graph.now.graph claim.now
        → IsTrue (is_some found)) }
{
    if ends_anyhow(claim.body()) {
        return Ok(Some(Empty::NamesAllEnds));
    }
    let question = Question {
        alloc,
        graph,
        claim,
        rules,
        depth: unsplit(),
        seen,
    };
    if let Some(empty) = lacks_begin(&question)? {
        return Ok(Some(empty));
    }
    if ends_as_given(&question) {
        return Ok(Some(Empty::NamesGivenEnds));
    }
    if let Some(empty) = lacks_exception(&question)? {
        return Ok(Some(empty));
    }
    if let Some(empty) = lacks_end(&question)? {
        return Ok(Some(empty));
    }
    if let Some(empty) = lacks_own_end(&question)? {
        return Ok(Some(empty));
    }
    lacks_run(&question)
}
