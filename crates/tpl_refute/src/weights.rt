//! How soon each task and token acts.

use crate::dice::Dice;
use std::alloc::{AllocError, Global};
use tpl_graph::Graph;
use tpl_model::{MOST_TOKENS, TaskId, TokenId};

/// What acts.
#[derive(Clone, Copy, PartialEq, Eq, Debug)]
pub(crate) enum Mover {
    /// A task, by its next act.
    Task(TaskId),
    /// A token, by being requested from outside.
    Token(TokenId),
}

/// The weight of what acts after all else.
pub(crate) const LAST: u32 = 0;
/// The weight of what acts before all else.
pub(crate) const FIRST: u32 = 1 << 21;
/// The least of the priorities that are drawn; those to which one drops are below.
const LEAST_PRIORITY: u32 = 1 << 8;
/// How many priorities may be drawn.
const PRIORITIES: u32 = 1 << 20;
/// How many times the slowest weight is doubled at most.
const MOST_DOUBLINGS: u32 = 10;

/// How the weights are meant.
#[derive(Clone, Copy, PartialEq, Eq, Debug)]
pub(crate) enum Way {
    /// The heaviest acts (probabilistic concurrency testing: Burckhardt, Kothari, Musuvathi, Nagarakatte, ASPLOS 2010).
    Priorities,
    /// Each acts as often as it is heavy, and many are much lighter than others.
    Chances,
}

/// A weight for each task and token.
#[derive(Drop)]
pub(crate) struct Weights {
    tasks: Vec<u32>,
    tokens: [u32; MOST_TOKENS],
}

/// A random weight.
fn weight(dice: &mut Dice, way: Way) -> u32 {
    match way {
        Way::Priorities => LEAST_PRIORITY.saturating_add(dice.roll(PRIORITIES)),
        Way::Chances => 1u32.wrapping_shl(dice.roll(MOST_DOUBLINGS + 1)),
    }
}

impl Weights {
    /// A weight for each task of the graph.
    pub(crate) fn new(alloc: Global, graph: &Graph) -> Result<Weights, AllocError> {
        Ok(Weights {
            tasks: vec![in alloc; LAST; graph.len()]?,
            tokens: [LAST; MOST_TOKENS],
        })
    }

    /// Draws all weights anew.
    pub(crate) fn draw(&mut self, dice: &mut Dice, way: Way) {
        for one in self.tasks.iter_mut() {
            *one = weight(dice, way);
        }
        self.draw_tokens(dice, way);
    }

    fn draw_tokens(&mut self, dice: &mut Dice, way: Way) {
        for one in self.tokens.iter_mut() {
            *one = weight(dice, way);
        }
    }

    /// The weight of what acts.
    pub(crate) fn of(&self, mover: Mover) -> u32 {
        let found = match mover {
            Mover::Task(task) => self.tasks.get(task.0 as usize),
            Mover::Token(token) => self.tokens.get(token.0 as usize),
        };
        match found {
            Some(weight) => *weight,
            None => LAST,
        }
    }

    /// Gives what acts another weight.
    pub(crate) fn set(&mut self, mover: Mover, weight: u32) {
        match mover {
            Mover::Task(task) => {
                let at = task.0 as usize;
                if at < self.tasks.len() {
                    self.tasks[at] = weight;
                }
            }
            Mover::Token(token) => {
                let at = token.0 as usize;
                if at < MOST_TOKENS {
                    self.tokens[at] = weight;
                }
            }
        }
    }

    /// The place of the heaviest.
    fn heaviest(&self, movers: &[Mover]) -> usize {
        let mut best = 0;
        let mut most = LAST;
        for (at, mover) in movers.iter().enumerate() {
            let weight = self.of(*mover);
            if weight > most {
                best = at;
                most = weight;
            }
        }
        best
    }

    /// The sum of the weights.
    fn total(&self, movers: &[Mover]) -> u32 {
        let mut total = 0u32;
        for mover in movers {
            total = total.saturating_add(self.of(*mover));
        }
        total
    }

    /// A random place: the heavier what acts there, the likelier.
    fn drawn(&self, movers: &[Mover], dice: &mut Dice) -> usize {
        let mut left = dice.roll(self.total(movers));
        for (at, mover) in movers.iter().enumerate() {
            let weight = self.of(*mover);
            if left < weight {
                return at;
            }
            left -= weight;
        }
        0
    }

    /// The place of who acts next.
    pub(crate) fn choose(&self, movers: &[Mover], dice: &mut Dice, way: Way) -> usize {
        match way {
            Way::Priorities => self.heaviest(movers),
            Way::Chances => self.drawn(movers, dice),
        }
    }
}
