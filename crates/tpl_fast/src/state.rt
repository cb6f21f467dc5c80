//! A run with the state of each task and token at hand.

ghost use Rattle.std.specs.Prelude.{◌≡◌, ◌<◌, IfOk};
ghost use Rattle.tpl_run.specs.Prelude.{opened};

mod heads;
mod readers;
mod record;

use crate::marks::{Mark, unmarked};
use crate::tokens::Asked;
use std::alloc::{AllocError, Global};
use std::marker::Model;
use tpl_graph::Graph;
use tpl_machine::Machine;
use tpl_model::Inputs;

/// A run, which contracts see as a journal. Beside the events and rows of the plain machine it keeps when each task
/// was released, begun and left, which tokens are requested, how far the arguments and the attached children of each
/// task have ended, and whether an argument has, so that no reader walks the events and a task that waits looks at none
/// again that has ended.
#[derive(Drop)]
pub(crate) struct State<'g> {
    machine: Machine<'g>,
    graph: &'g Graph,
    marks: Vec<Mark>,
    asked: Asked,
    ended: Vec<usize>,
    over: Vec<usize>,
    found: Vec<bool>,
}

impl<'g> Model for State<'g> {
    ghost use Rattle.tpl_run.specs.Journal.{Journal, journal_code};

    ghost Value = { Journal };

    ghost coded = { journal_code };

    ghost use Rattle.tpl_fast.specs.Kept.{IsKept};

    ghost view = { λ s. s.machine };

    ghost invariant = { λ s. IsKept s.machine s.graph.now s.marks.items s.asked.itself
        s.asked.closed s.ended.items s.over.items s.found.items };
}

impl<'g> State<'g> {
    /// The run without events.
    pub fn open(alloc: Global, graph: &'g Graph, inputs: Inputs) -> Result<State<'g>, AllocError>
        ensures { IfOk result (λ s. s ≡ opened graph.now inputs) }
    {
        graph.valid_law();
        let marks = unmarked(alloc, graph.len())?;
        let ended = vec![in alloc; 0; graph.len()]?;
        let over = vec![in alloc; 0; graph.len()]?;
        let found = vec![in alloc; false; graph.len()]?;
        let machine = Machine::open(alloc, graph, inputs)?;
        Ok(State {
            machine,
            graph,
            marks,
            asked: Asked::none(),
            ended,
            over,
            found,
        })
    }
}
