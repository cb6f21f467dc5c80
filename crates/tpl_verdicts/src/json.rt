//! The verdicts as one JSON object.

ghost use Rattle.std.specs.Prelude.{◌≡◌, codes, length, map, option_map, IfOk, string_bytes, All};
ghost use Rattle.serde_json.specs.Data.{member, no_members, object, string, Members};
ghost use Rattle.serde_json.specs.View.{view};
ghost use Rattle.tpl_graph.specs.Prelude.{Fits};
ghost use Rattle.tpl_journal.specs.Prelude.{CanSpell};
ghost use Rattle.tpl_reasons.specs.Prelude.{claim_words};
ghost use Rattle.tpl_verdicts.specs.Prelude.{AreNumbered, AreRight, IsClaimData, IsFailedData, IsJson, IsNamed, IsNamedData, IsRight, IsRunData, all_told, empty_data, failed_data, held_data, ran_out_word, sums_data, tried_data, unknown_data, verdicts_data, why_data};
ghost use Rattle.tpl_verify.specs.Prelude.{AreFirst, IsEmpty, IsHeld};

use crate::causes::causes_value;
use crate::judgement::{Judgement, Judgements};
use crate::sums::sums_of;
use crate::tree::tree_value;
use crate::word::{Word, words_of};
use serde_json::{Value, json};
use std::alloc::{AllocError, Global};
use tpl_analyser::RanOut;
use tpl_graph::{Claim, Graph};
use tpl_journal::spells_run;
use tpl_model::Inputs;
use tpl_reasons::claim_words;
use tpl_refute::Counterexample;
use tpl_shown::name_of;
use tpl_trees::Certificate;
use tpl_verify::{Empty, Tried, Verdict, input_members, journal_text};

/// Why a claim says nothing, by a word.
fn reason_value(alloc: Global, why: &str) -> Result<Value, AllocError>
    ensures { IfOk result (λ v.
        view v ≡ object (member (codes "why") (string why.now) no_members)) }
{
    json!(in alloc; {"why": why})
}

/// Why a claim says nothing, by a word and the name of a task.
fn task_value(alloc: Global, task: &str, why: &str) -> Result<Value, AllocError>
    ensures { IfOk result (λ v. view v ≡ object (member (codes "task") (string task.now)
        (member (codes "why") (string why.now) no_members))) }
{
    json!(in alloc; {"task": task, "why": why})
}

/// Why a claim says nothing.
fn why_value(alloc: Global, graph: &Graph, claim: &Claim, why: Empty) -> Result<Value, AllocError>
    requires fits { Fits graph.now.graph claim.now }
    requires empty { IsEmpty graph.now.graph claim.now why }
    ensures { IfOk result (λ v. view v ≡ why_data graph.now.names why) }
{
    let _ = claim;
    match why {
        Empty::NeverBegins(task) => task_value(alloc, name_of(graph, task), "NeverBegins"),
        Empty::NamesAllEnds => reason_value(alloc, "NamesAllEnds"),
        Empty::NamesGivenEnds => reason_value(alloc, "NamesGivenEnds"),
        Empty::NeverThrows => reason_value(alloc, "NeverThrows"),
        Empty::NeverEndsSo(task) => task_value(alloc, name_of(graph, task), "NeverEndsSo"),
        Empty::NeverEnds(task) => task_value(alloc, name_of(graph, task), "NeverEnds"),
        Empty::NeverKept => reason_value(alloc, "NeverKept"),
    }
}

/// What ran out in a search.
fn ran_out_word(ran_out: RanOut) -> &'static str
    ensures { result.now ≡ ran_out_word ran_out }
{
    match ran_out {
        RanOut::Depth => "Depth",
        RanOut::Leaves => "Leaves",
        RanOut::Trees => "Trees",
    }
}

/// How far a claim was tried.
fn tried_value(alloc: Global, tried: Tried) -> Result<Value, AllocError>
    ensures { IfOk result (λ v. view v ≡ tried_data tried) }
{
    let (played, word, runs) = (
        tried.events_ran_out,
        ran_out_word(tried.ran_out),
        tried.runs,
    );
    json!(in alloc; {"events_ran_out": played, "ran_out": word, "runs": runs})
}

/// The values of the inputs, by their names.
fn inputs_value(alloc: Global, graph: &Graph, inputs: &Inputs) -> Result<Value, AllocError>
    ensures { IfOk result (λ v. (ms : Members) × AreFirst graph.now.names.inputs inputs.now
        (length graph.now.names.inputs) ms × (view v ≡ object ms)) }
{
    let members = input_members(alloc, graph, inputs)?;
    Ok(Value::Object(members))
}

/// A run in which a claim fails.
fn run_value(alloc: Global, graph: &Graph, run: &Counterexample) -> Result<Value, AllocError>
    requires { All (CanSpell graph.now.graph) run.now.events.items }
    ensures { IfOk result (λ v. IsRunData graph.now.names run.now (view v)) }
{
    let events = run.events.len();
    let inputs = inputs_value(alloc, graph, &run.inputs)?;
    let journal = journal_text(alloc, graph, &run.events)?;
    json!(in alloc; {"events": events, "inputs": inputs, "journal": journal})
}

/// What is said of a claim that holds.
fn held_value(
    alloc: Global,
    number: usize,
    splits: u8,
    text: String,
    tree: Value,
) -> Result<Value, AllocError>
    ensures { IfOk result (λ v.
        view v ≡ held_data number splits (string_bytes text) (view tree)) }
{
    json!(in alloc; {
        "claim": number, "splits": splits, "text": text, "tree": tree, "verdict": "holds"
    })
}

/// What is said of a claim that holds and says nothing.
fn empty_value(
    alloc: Global,
    number: usize,
    empty: Value,
    splits: u8,
    text: String,
    tree: Value,
) -> Result<Value, AllocError>
    ensures { IfOk result (λ v.
        view v ≡ empty_data number (view empty) splits (string_bytes text) (view tree)) }
{
    json!(in alloc; {
        "claim": number, "empty": empty, "splits": splits, "text": text, "tree": tree,
        "verdict": "empty"
    })
}

/// What is said of a claim that fails.
fn failed_value(
    alloc: Global,
    number: usize,
    causes: Vec<Value>,
    run: Value,
    text: String,
) -> Result<Value, AllocError>
    ensures { IfOk result (λ v.
        view v ≡ failed_data number (map view causes.items) (view run) (string_bytes text)) }
{
    json!(in alloc; {
        "causes": causes, "claim": number, "run": run, "text": text, "verdict": "fails"
    })
}

/// What is said of a claim with these words that fails in this run.
fn failing_value(
    alloc: Global,
    judgement: &Judgement<'_>,
    run: &Counterexample,
    text: String,
) -> Result<Value, AllocError>
    requires events { All (CanSpell judgement.now.graph.now.graph) run.now.events.items }
    requires text { string_bytes text
        ≡ claim_words judgement.now.graph.now.names judgement.now.claim.now }
    ensures { IfOk result (λ v. IsFailedData judgement.now.graph.now.names judgement.now.number
        judgement.now.claim.now run.now (view v)) }
{
    let Judgement {
        graph,
        claim,
        number,
        ..
    } = *judgement;
    let causes = causes_value(alloc, graph, claim, run)?;
    let value = run_value(alloc, graph, run)?;
    failed_value(alloc, number, causes, value, text)
}

/// What is said of a claim of which nothing is known.
fn unknown_value(
    alloc: Global,
    number: usize,
    text: String,
    tried: Value,
) -> Result<Value, AllocError>
    ensures { IfOk result (λ v. view v ≡ unknown_data number (string_bytes text) (view tried)) }
{
    json!(in alloc; {"claim": number, "text": text, "tried": tried, "verdict": "unknown"})
}

/// What is said of a claim with these words that holds by this certificate, and why it says nothing, if it does.
fn holding_value(
    alloc: Global,
    judgement: &Judgement<'_>,
    certificate: &Certificate,
    splits: u8,
    why: Option<Empty>,
    text: String,
) -> Result<Value, AllocError>
    requires fits { Fits judgement.now.graph.now.graph judgement.now.claim.now }
    requires held { IsHeld judgement.now.searched.rules judgement.now.graph.now.graph
        judgement.now.claim.now certificate.now splits why }
    requires text { string_bytes text
        ≡ claim_words judgement.now.graph.now.names judgement.now.claim.now }
    ensures { IfOk result (λ v. IsClaimData judgement.now.searched.rules
        judgement.now.graph.now.names judgement.now.number judgement.now.claim.now
        (Verdict.Holds certificate.now splits why) (view v)) }
{
    let Judgement {
        graph,
        claim,
        number,
        searched,
        ..
    } = *judgement;
    let tree = tree_value(alloc, graph, claim, searched.rules, certificate, splits)?;
    match why {
        None => held_value(alloc, number, splits, text, tree),
        Some(why) => {
            let empty = why_value(alloc, graph, claim, why)?;
            empty_value(alloc, number, empty, splits, text, tree)
        }
    }
}

/// What is said of a claim.
fn claim_value(alloc: Global, judgement: &Judgement<'_>) -> Result<Value, AllocError>
    requires { IsRight judgement.now }
    ensures { IfOk result (λ v. IsClaimData judgement.now.searched.rules
        judgement.now.graph.now.names judgement.now.number judgement.now.claim.now
        judgement.now.verdict.now (view v)) }
{
    spells_run();
    let Judgement {
        graph,
        claim,
        number,
        ..
    } = *judgement;
    let text = claim_words(alloc, graph, claim)?;
    match judgement.verdict {
        Verdict::Holds {
            certificate,
            splits,
            empty,
        } => holding_value(alloc, judgement, certificate, *splits, *empty, text),
        Verdict::Fails(run) => failing_value(alloc, judgement, run, text),
        Verdict::Unknown(tried) => {
            let tried = tried_value(alloc, *tried)?;
            unknown_value(alloc, number, text, tried)
        }
    }
}

/// The value with this name of its claim.
fn named(alloc: Global, value: Value, name: &str) -> Result<Value, AllocError>
    requires { (ms : Members) × (view value ≡ object ms) }
    ensures { IfOk result (λ v. IsNamed (Some name.now) (view value) (view v)) }
{
    let mut value = value;
    if let Some(members) = value.as_object_mut() {
        let key = String::from_str(alloc, "name")?;
        drop(members.insert(key, Value::String(String::from_str(alloc, name)?))?);
    }
    Ok(value)
}

/// The value with the name of its claim, if that has one.
fn with_name(alloc: Global, value: Value, name: Option<&str>) -> Result<Value, AllocError>
    requires { (ms : Members) × (view value ≡ object ms) }
    ensures { IfOk result (λ v.
        IsNamed (option_map (λ given. given.now) name.entry) (view value) (view v)) }
{
    match name {
        Some(name) => named(alloc, value, name),
        None => Ok(value),
    }
}

/// What is said of each claim.
fn claim_values(alloc: Global, all: &Judgements<'_>) -> Result<Vec<Value>, AllocError>
    requires { AreRight all.now }
    ensures { IfOk result (λ values.
        AreNumbered (IsNamedData all.now.searched.rules all.now.graph.now.names) 1
        (all_told all.now) (map view values.items)) }
{
    let mut values = Vec::new(alloc);
    for place in 0..all.verdicts.len() {
        let judgement = all.at(place);
        let plain = claim_value(alloc, &judgement)?;
        let value = with_name(alloc, plain, judgement.name)?;
        values.push(value)?;
    }
    Ok(values)
}

/// How many claims there are, and how many of each word.
fn sums_value(alloc: Global, words: &[Word]) -> Result<Value, AllocError>
    ensures { IfOk result (λ v. view v ≡ sums_data words.now) }
{
    let sums = sums_of(words);
    json!(in alloc; {
        "claims": sums.claims, "empty": sums.empty, "fails": sums.fails, "holds": sums.holds,
        "unknown": sums.unknown
    })
}

/// The whole value.
fn whole_value(alloc: Global, claims: Vec<Value>, words: &[Word]) -> Result<Value, AllocError>
    ensures { IfOk result (λ v. view v ≡ verdicts_data (map view claims.items) words.now) }
{
    let sums = sums_value(alloc, words)?;
    json!(in alloc; {"claims": claims, "sums": sums})
}

/// The verdicts on the claims as one line of JSON.
pub(crate) fn json_of(alloc: Global, all: &Judgements<'_>) -> Result<String, AllocError>
    requires { AreRight all.now }
    ensures { IfOk result (λ text.
        IsJson all.now.searched.rules all.now.graph.now.names (all_told all.now)
        all.now.verdicts.now (string_bytes text)) }
{
    let values = claim_values(alloc, all)?;
    let words = words_of(alloc, all.verdicts)?;
    let mut text = whole_value(alloc, values, &words)?.to_string(alloc)?;
    text.push_str("\n")?;
    Ok(text)
}
