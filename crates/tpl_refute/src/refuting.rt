//! The search.

ghost use Rattle.std.specs.Prelude.{◌≤◌, IfOk, IfSome, IfNone};
ghost use Rattle.tpl_graph.specs.Prelude.{Fits};
ghost use Rattle.tpl_refute.specs.Refuting.{IsUsedUp, Refutes};

use crate::budget::Budget;
use crate::counterexample::Counterexample;
use crate::dice::Dice;
use crate::improving::improve;
use crate::judging::judge;
use crate::plan::{MOST_DROPS, Plan};
use crate::walk::{Tables, Walked, walk};
use crate::weights::Way;
use std::alloc::{AllocError, Global};
use tpl_graph::{Claim, Graph};

/// How long to search, and where its chances come from.
#[derive(Clone, Copy, PartialEq, Eq, Debug)]
pub struct Effort {
    /// The most runs.
    pub runs: u32,
    /// How many events are played at most, until a run is found. Opening a run of a large graph counts as some, and so
    /// does choosing one of many tasks.
    pub events: u64,
    /// The seed of the random numbers. The same search is made for the same seed.
    pub seed: u64,
    /// Which of the seed's streams of numbers.
    pub stream: u64,
}

/// How a search ended.
#[derive(Drop)]
pub struct Sought {
    /// A run in which the claim fails, if one was found.
    pub found: Option<Counterexample>,
    /// How many runs were made, the one that was found among them.
    pub runs: u32,
    /// How many events might still be played until one was found. Where there is none and fewer runs were made than may
    /// be, that is 0.
    pub left: u64,
}

/// How the weights of a run are read, and how often a priority drops in it: one run by chances, then one by priorities
/// with no drop, and so on to four drops.
fn way_of(run: u32) -> (Way, usize) {
    if run % 2 == 0 {
        (Way::Chances, 0)
    } else {
        (Way::Priorities, (run / 2) as usize % (MOST_DROPS + 1))
    }
}

/// Makes the run of a plan, and gives it where the claim fails in it. Else the next run is expected to be as long.
fn attempt(
    alloc: Global,
    graph: &Graph,
    claim: &Claim,
    tables: &mut Tables,
    dice: &mut Dice,
    plan: Plan,
    budget: &mut Budget,
    length: &mut u32,
) -> Result<Option<Counterexample>, AllocError>
    requires { Fits graph.now.graph claim.now }
    ensures { IfOk result (λ found. IfSome found (λ one.
        Refutes graph.now.graph claim.now one.inputs one.events.items)) }
{
    match walk(alloc, graph, claim, tables, dice, &plan, budget)? {
        Walked::Holds(events) => {
            *length = events.min(graph.bound() as usize) as u32;
            Ok(None)
        }
        Walked::Fails(events) => judge(alloc, graph, claim, plan.inputs, events),
    }
}

/// Searches for a run of the graph in which the claim fails, by random runs, and gives the smallest that it finds with a
/// little more work. Where none is found there may be one: then all runs were made, or the events that may be played were
/// used up before. Out of memory is the only error.
///
/// Each run is drawn in one of two ways in turn: whoever may act has a random priority, and the priority of who acts
/// drops at up to four random places (probabilistic concurrency testing: Burckhardt, Kothari, Musuvathi, Nagarakatte,
/// ASPLOS 2010); or whoever may act has a random weight, and many are much slower than others. Half of the runs are led
/// to where such a claim may fail. The bodies of each worker nest, as those of a thread do.
pub fn refute(
    alloc: Global,
    graph: &Graph,
    claim: &Claim,
    effort: Effort,
) -> Result<Sought, AllocError>
    requires { Fits graph.now.graph claim.now }
    ensures found { IfOk result (λ sought. IfSome sought.found (λ one.
        Refutes graph.now.graph claim.now one.inputs one.events.items)) }
    ensures ran_out { IfOk result (λ sought. IfNone sought.found
        (IsUsedUp effort.runs sought.runs sought.left)) }
    ensures made { IfOk result (λ sought. sought.runs ≤ effort.runs) }
{
    let mut dice = Dice::new(effort.seed, effort.stream);
    let mut tables = Tables::new(alloc, graph)?;
    let mut budget = Budget::new(graph, effort.events);
    let mut length = graph.bound();
    for run in 0..effort.runs {
        if budget.is_spent() {
            return Ok(Sought {
                found: None,
                runs: run,
                left: 0,
            });
        }
        let (way, drops) = way_of(run);
        let weights = &mut tables.weights;
        let plan = Plan::draw(graph, claim, weights, &mut dice, way, drops, length);
        let (left, habit) = (&mut budget, plan.habit);
        let (tables, dice) = (&mut tables, &mut dice);
        let found = attempt(alloc, graph, claim, tables, dice, plan, left, &mut length)?;
        if let Some(found) = found {
            let best = improve(alloc, graph, claim, found, habit, tables, dice, budget)?;
            return Ok(Sought {
                found: Some(best),
                runs: run + 1,
                left: budget.left(),
            });
        }
    }
    Ok(Sought {
        found: None,
        runs: effort.runs,
        left: budget.left(),
    })
}
