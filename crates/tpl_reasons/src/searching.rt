//! Why no certificate was found.

ghost use Rattle.std.specs.Prelude.{◌≡◌, ◌<◌, length, All};
ghost use Rattle.tpl_graph.specs.Prelude.{Fits};
ghost use Rattle.tpl_reasons.specs.Prelude.{search_reason};

use crate::checking::yes_reason;
use crate::obstacle::obstacle_words;
use crate::reason::Reason;
use crate::words::{Said, claim_text, count_text};
use std::alloc::{AllocError, Global};
use tpl_analyser::{Budget, Depth, Form, Gap, Leaves, RanOut, Unwatched};
use tpl_commands::{Outcome, Searched, find_proof, rules_of};
use tpl_graph::{Claim, Graph};
use tpl_model::{MOST_SPLITS, RuleSet};
use tpl_reader::Document;

/// Why no certificate was found: the claim that the answer names, if it names one.
pub(crate) fn search_reason(document: &Document, searched: &Searched) -> Option<Reason>
    ensures { result ≡ search_reason document.now.claims.items searched.now.outcome }
{
    match &searched.outcome {
        Outcome::Certificate(_) => yes_reason(document),
        Outcome::Missed { claim, .. } => Some(Reason::NotFound(*claim)),
    }
}

/// A certificate of the claim at this place alone is found by the rules.
fn is_found(
    alloc: Global,
    graph: &Graph,
    claims: &[Claim],
    rules: RuleSet,
    at: usize,
    depth: Depth,
) -> Result<bool, AllocError>
    requires at { at < length claims.now }
    requires claims { All (Fits graph.now.graph) claims.now }
{
    let alone = &claims[at..at + 1];
    let mut budget = Budget::new(Unwatched, Leaves::USUAL);
    match find_proof(alloc, graph, alone, rules, depth, Form::Slim, &mut budget) {
        Err(Gap::NotFound { .. }) => Ok(false),
        Err(Gap::Memory) => Err(AllocError),
        Ok(_proof) => Ok(true),
    }
}

/// A line for each claim: whether it is found at this depth. The one of this number is the first that isn't; only those
/// behind it have not been searched yet.
fn each_text(alloc: Global, document: &Document, depth: Depth, missed: usize) -> Said
    requires claims { All (Fits document.now.graph.graph) document.now.claims.items }
{
    let mut lines = String::new(alloc);
    for at in 0..document.claims.len() {
        let number = at + 1;
        let found = if number <= missed {
            number < missed
        } else {
            let rules = rules_of(document);
            is_found(alloc, &document.graph, &document.claims, rules, at, depth)?
        };
        lines.push_str(if found { "found: " } else { "not found: " })?;
        let claim = claim_text(alloc, document, number)?;
        lines.push_str(claim.as_str())?;
        lines.push_str("\n")?;
    }
    Ok(lines)
}

/// A number of some thousands, with a comma before the last three digits.
fn thousands_text(alloc: Global, number: u32) -> Said {
    format!(in alloc; "{},{:03}", number / 1_000, number % 1_000)
}

/// What was tried for a claim that isn't certified, and what ran out. Out of memory is the only error.
pub fn tried_words(alloc: Global, depth: Depth, ran_out: RanOut) -> Result<String, AllocError> {
    if depth.splits() == 0 {
        return String::from_str(alloc, "the one tree without a split doesn't prove it");
    }
    let splits = count_text(alloc, usize::from(depth.splits()), "split")?;
    match ran_out {
        RanOut::Trees => {
            String::from_str(alloc, "no tree proves it, however many splits it has")
        }
        RanOut::Leaves => format!(in alloc;
            "no tree with at most {splits} on each path was found within {} leaves in order and {} in a directed search",
            thousands_text(alloc, Leaves::USUAL.in_order)?,
            thousands_text(alloc, Leaves::USUAL.directed)?
        ),
        RanOut::Depth => format!(in alloc; "no tree with at most {splits} on each path proves it"),
    }
}

/// What is said where the rules of a newer version may prove more.
const NEWER: &str = "the rules of version 3 prove more: say `\"version\": 3`\n";

/// What may be tried next for a claim.
fn next_text(alloc: Global, rules: RuleSet, ran_out: RanOut, depth: Depth) -> Said {
    let newer = match rules {
        RuleSet::WithoutTokens => NEWER,
        RuleSet::WithTokens => "",
    };
    match ran_out {
        RanOut::Depth if depth.splits() < MOST_SPLITS => format!(in alloc;
            "a claim that isn't found may be true: try a greater `--depth`, at most {MOST_SPLITS}, or `verify`, which shows a run in which the claim fails if it finds one\n{newer}"
        ),
        _ => format!(in alloc;
            "a claim that isn't found may be true: `verify` shows a run in which it fails if it finds one\n{newer}"
        ),
    }
}

/// Why no certificate was found for the claim of this number, and for which others there is one.
fn missed_text(
    alloc: Global,
    document: &Document,
    depth: Depth,
    number: usize,
    ran_out: RanOut,
) -> Said
    requires claims { All (Fits document.now.graph.graph) document.now.claims.items }
{
    let graph = &document.graph;
    let claim = claim_text(alloc, document, number)?;
    let tried = tried_words(alloc, depth, ran_out)?;
    let obstacle = match document.claims.get(number.saturating_sub(1)) {
        Some(claim) => obstacle_words(alloc, graph, claim, rules_of(document))?,
        None => String::new(alloc),
    };
    let each = each_text(alloc, document, depth, number)?;
    let next = next_text(alloc, rules_of(document), ran_out, depth)?;
    format!(in alloc; "{claim}: {tried}\n{obstacle}{each}{next}")
}

/// Why no certificate was found. Nothing, where one was.
pub(crate) fn not_found_text(alloc: Global, document: &Document, searched: &Searched) -> Said
    requires claims { All (Fits document.now.graph.graph) document.now.claims.items }
{
    match &searched.outcome {
        Outcome::Certificate(_) => Ok(String::new(alloc)),
        Outcome::Missed { claim, ran_out } => {
            missed_text(alloc, document, searched.depth, *claim, *ran_out)
        }
    }
}
