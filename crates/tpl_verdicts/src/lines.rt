//! The lines that belong to a claim's line.

ghost use Rattle.std.specs.Prelude.{◌≡◌, ◌++◌, ◌∷◌, [], map, IfOk, OnOk, string_bytes, All};
ghost use Rattle.tpl_graph.specs.Prelude.{Fits};
ghost use Rattle.tpl_journal.specs.Prelude.{CanSpell, line};
ghost use Rattle.tpl_verdicts.specs.Prelude.{AreLines, IsRight, inputs_lines, run_lines};

use crate::causes::add_causes_of;
use crate::judgement::Judgement;
use crate::reason::why_line;
use std::alloc::{AllocError, Global};
use std::slice;
use tpl_graph::{Claim, Graph};
use tpl_journal::spells_run;
use tpl_model::{Event, Inputs};
use tpl_reasons::{claim_words, input_words, obstacle_words, tried_words};
use tpl_refute::Counterexample;
use tpl_verify::{Tried, Verdict, journal_text};

/// What may be done about a claim of which nothing is known.
const NEXT: &str =
    "it may hold: ask it under a `given`; it may fail: try more `--runs`, or another `--seed`\n";

/// One line, as it is.
fn one_line(alloc: Global, line: String) -> Result<Vec<String>, AllocError>
    ensures { IfOk result (λ lines. lines.items ≡ line ∷ []) }
{
    let mut lines = Vec::new(alloc);
    lines.push(line)?;
    Ok(lines)
}

/// What was tried for a claim of which nothing is known, and what to do.
fn unknown_lines(
    alloc: Global,
    judgement: &Judgement<'_>,
    tried: Tried,
) -> Result<Vec<String>, AllocError>
    requires { Fits judgement.now.graph.now.graph judgement.now.claim.now }
{
    let Judgement {
        graph,
        claim,
        searched,
        ..
    } = *judgement;
    let words = tried_words(alloc, searched.depth, tried.ran_out)?;
    let (runs, most) = (tried.runs, tried.most());
    let mut lines = Vec::new(alloc);
    lines.push(format!(in alloc; "{words}\n")?)?;
    let obstacle = obstacle_words(alloc, graph, claim, searched.rules)?;
    if !obstacle.is_empty() {
        lines.push(obstacle)?;
    }
    lines.push(format!(in alloc; "it fails in none of {runs} random runs{most}\n")?)?;
    lines.push(String::from_str(alloc, NEXT)?)?;
    Ok(lines)
}

/// The line for the values of the inputs, if there are any.
fn input_lines(alloc: Global, graph: &Graph, inputs: &Inputs) -> Result<Vec<String>, AllocError>
    ensures { IfOk result (λ lines.
        map string_bytes lines.items ≡ inputs_lines graph.now.names inputs.now) }
{
    if inputs.is_empty() {
        return Ok(Vec::new(alloc));
    }
    let words = input_words(alloc, graph, inputs)?;
    let line = format!(in alloc; "where {words}\n")?;
    one_line(alloc, line)
}

/// The line of an event.
fn event_line(alloc: Global, graph: &Graph, event: &Event) -> Result<String, AllocError>
    requires { CanSpell graph.now.graph event.now }
    ensures { IfOk result (λ text. string_bytes text ≡ line graph.now.names event.now) }
{
    journal_text(alloc, graph, slice::from_ref(event))
}

/// Adds the line of each event.
fn add_events(
    lines: &mut Vec<String>,
    alloc: Global,
    graph: &Graph,
    events: &[Event],
) -> Result<(), AllocError>
    requires { All (CanSpell graph.now.graph) events.now }
    ensures { OnOk result (map string_bytes lines.new.items
        ≡ map string_bytes lines.old.items ++ map (line graph.now.names) events.now) }
{
    for event in events {
        let line = event_line(alloc, graph, event)?;
        lines.push(line)?;
    }
    Ok(())
}

/// The run, behind whose last event the claim of this number fails.
fn run_lines(
    alloc: Global,
    graph: &Graph,
    number: usize,
    run: &Counterexample,
) -> Result<Vec<String>, AllocError>
    requires { All (CanSpell graph.now.graph) run.now.events.items }
    ensures { IfOk result (λ lines.
        map string_bytes lines.items ≡ run_lines graph.now.names number run.now) }
{
    let mut lines = input_lines(alloc, graph, &run.inputs)?;
    add_events(&mut lines, alloc, graph, &run.events)?;
    lines.push(format!(in alloc; "claim {number} fails here\n")?)?;
    Ok(lines)
}

/// The run, behind whose last event the claim of this number fails, and how it came there.
fn failing_lines(
    alloc: Global,
    graph: &Graph,
    claim: &Claim,
    number: usize,
    run: &Counterexample,
) -> Result<Vec<String>, AllocError>
    requires { All (CanSpell graph.now.graph) run.now.events.items }
    ensures { IfOk result (λ lines. AreLines graph.now.names number (Verdict.Fails run.now)
        (map string_bytes lines.items)) }
{
    let mut lines = run_lines(alloc, graph, number, run)?;
    add_causes_of(&mut lines, alloc, graph, claim, run)?;
    Ok(lines)
}

/// The lines that belong to a claim's line.
pub(crate) fn lines_of(alloc: Global, judgement: &Judgement<'_>) -> Result<Vec<String>, AllocError>
    requires { IsRight judgement.now }
    ensures { IfOk result (λ lines. AreLines judgement.now.graph.now.names judgement.now.number
        judgement.now.verdict.now (map string_bytes lines.items)) }
{
    spells_run();
    let Judgement {
        graph,
        claim,
        number,
        ..
    } = *judgement;
    match judgement.verdict {
        Verdict::Holds { empty: None, .. } => Ok(Vec::new(alloc)),
        Verdict::Holds {
            empty: Some(empty),
            ..
        } => {
            let line = why_line(alloc, graph, claim, *empty)?;
            one_line(alloc, line)
        }
        Verdict::Fails(run) => failing_lines(alloc, graph, claim, number, run),
        Verdict::Unknown(tried) => unknown_lines(alloc, judgement, *tried),
    }
}
