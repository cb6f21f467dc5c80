//! What is drawn for one run.

use crate::crew::Habit;
use crate::dice::Dice;
use crate::kept::Kept;
use crate::weights::{FIRST, LAST, Mover, Way, Weights};
use tpl_graph::{Claim, Graph};
use tpl_model::{Answer, Given, InputId, Inputs, MOST_TOKENS, Property, TaskId, TokenId};

/// The most places at which a priority drops.
pub(crate) const MOST_DROPS: usize = 4;
/// How often of ten times a token may be requested from outside.
const ASKED_IN_TEN: u32 = 6;
/// How often of ten times a run is led to where the claim may fail.
const LED_IN_TEN: u32 = 5;
/// How often of ten times what waits for nobody is done by workers that are in no body.
const ASIDE_IN_TEN: u32 = 5;
/// How many of ten jobs fail, one of these for a run.
const FAILING_IN_TEN: [u32; 6] = [0, 1, 3, 5, 9, 10];

/// What is drawn for one run.
#[derive(Drop)]
pub(crate) struct Plan {
    /// The values of the inputs.
    pub(crate) inputs: Inputs,
    /// The tokens that may be requested from outside.
    pub(crate) tokens: [bool; MOST_TOKENS],
    /// How the weights are meant.
    pub(crate) way: Way,
    /// At these places the priority of who acts drops.
    pub(crate) drops: [u32; MOST_DROPS],
    /// How many of ten jobs fail.
    pub(crate) failing: u32,
    /// A task all of whose jobs give this answer, if they may.
    pub(crate) fixed: Option<(TaskId, Answer)>,
    /// What is to be kept of what is given.
    pub(crate) kept: Kept,
    /// Who does what waits for nobody.
    pub(crate) habit: Habit,
}

/// Gives an input its value.
fn set(inputs: &mut Inputs, input: InputId, value: bool) {
    if (input.0 as usize) < inputs.len() {
        inputs.set(input, value);
    }
}

/// Random values of the inputs; those that are given stay.
fn inputs_of(graph: &Graph, given: &[Given], dice: &mut Dice) -> Inputs {
    let mut inputs = Inputs::new(graph.input_count());
    for number in 0..graph.input_count() {
        set(&mut inputs, InputId(number as u8), dice.in_ten(5));
    }
    for one in given {
        if let Given::Input(input, value) = one {
            set(&mut inputs, *input, *value);
        }
    }
    inputs
}

/// Some of the tokens that aren't quiet.
fn tokens_of(graph: &Graph, kept: &Kept, dice: &mut Dice) -> [bool; MOST_TOKENS] {
    let mut tokens = [false; MOST_TOKENS];
    for number in 0..graph.token_count() {
        tokens[number] = !kept.is_quiet(TokenId(number as u8)) && dice.in_ten(ASKED_IN_TEN);
    }
    tokens
}

/// Random places within a run of this length, `count` of them; the others are 0.
fn drops_of(dice: &mut Dice, count: usize, length: u32) -> [u32; MOST_DROPS] {
    let mut drops = [0; MOST_DROPS];
    for (at, one) in drops.iter_mut().enumerate() {
        if at < count {
            *one = dice.roll(length).saturating_add(1);
        }
    }
    drops
}

/// Has a task act first, and what it comes after.
fn hurry(weights: &mut Weights, graph: &Graph, task: TaskId) {
    let mut at = task;
    for _ in 0..graph.len() {
        if at.0 as usize >= graph.len() {
            return;
        }
        weights.set(Mover::Task(at), FIRST);
        match (graph.antecedent(at), graph.parent_of(at)) {
            (Some(before), _) => at = before,
            (None, Some(before)) => at = before,
            (None, None) => return,
        }
    }
}

/// Has a task's own token requested first.
fn hurry_token(weights: &mut Weights, graph: &Graph, task: TaskId) {
    if (task.0 as usize) < graph.len() {
        if let Some(token) = graph.own_token(task) {
            weights.set(Mover::Token(token), FIRST);
        }
    }
}

/// Leads a run to where the property may fail, and says what a task's jobs are to answer.
fn lead(weights: &mut Weights, graph: &Graph, body: Property) -> Option<(TaskId, Answer)> {
    match body {
        Property::After(first, second) => {
            hurry(weights, graph, second);
            weights.set(Mover::Task(first), LAST);
            None
        }
        Property::Never(task) => {
            hurry(weights, graph, task);
            None
        }
        Property::Excludes(one, other) => {
            hurry(weights, graph, one);
            hurry(weights, graph, other);
            None
        }
        Property::Observed(task) => Some((task, Answer::Failed)),
        Property::Runs(task) => {
            hurry_token(weights, graph, task);
            None
        }
        Property::Final(task, ends) => {
            if !ends.canceled {
                hurry_token(weights, graph, task);
            }
            if ends.faulted {
                Some((task, Answer::Done))
            } else {
                Some((task, Answer::Failed))
            }
        }
    }
}

fn habit_of(dice: &mut Dice) -> Habit {
    if dice.in_ten(ASIDE_IN_TEN) {
        Habit::Aside
    } else {
        Habit::Inside
    }
}

impl Plan {
    /// Draws the weights of a run and all else of it. A run has `drops` drops of priority, and is expected to have
    /// this length.
    pub(crate) fn draw(
        graph: &Graph,
        claim: &Claim,
        weights: &mut Weights,
        dice: &mut Dice,
        way: Way,
        drops: usize,
        length: u32,
    ) -> Plan {
        weights.draw(dice, way);
        let fixed = if dice.in_ten(LED_IN_TEN) {
            lead(weights, graph, claim.body())
        } else {
            None
        };
        let kept = Kept::of_given(graph, claim.given());
        let failing = FAILING_IN_TEN[dice.roll(FAILING_IN_TEN.len() as u32) as usize];
        Plan {
            inputs: inputs_of(graph, claim.given(), dice),
            tokens: tokens_of(graph, &kept, dice),
            way,
            drops: drops_of(dice, drops, length),
            failing,
            fixed,
            kept,
            habit: habit_of(dice),
        }
    }

    /// Draws the calm run of this number, in which little goes wrong: nothing in the first one; then each token in turn is
    /// requested before all else; and in later ones one token may be requested at any moment, or the jobs of one task fail,
    /// or nothing goes wrong.
    pub(crate) fn calm(
        graph: &Graph,
        claim: &Claim,
        weights: &mut Weights,
        dice: &mut Dice,
        number: u32,
    ) -> Plan {
        let way = if number % 2 == 0 {
            Way::Chances
        } else {
            Way::Priorities
        };
        let mut plan = Plan::draw(graph, claim, weights, dice, way, 0, 1);
        plan.failing = 0;
        plan.tokens = [false; MOST_TOKENS];
        if number > graph.token_count() as u32 {
            plan.disturb(graph, dice);
        } else if let Some(token) = number.checked_sub(1) {
            plan.ask(graph, TokenId(token as u8));
            weights.set(Mover::Token(TokenId(token as u8)), FIRST);
        }
        plan
    }

    /// One token may be requested, or the jobs of one task fail, or neither.
    fn disturb(&mut self, graph: &Graph, dice: &mut Dice) {
        match dice.roll(3) {
            0 => (),
            1 => self.ask(graph, TokenId(dice.roll(graph.token_count() as u32) as u8)),
            _ => {
                let task = TaskId(dice.roll(graph.len() as u32) as u16);
                self.fixed = Some((task, Answer::Failed));
            }
        }
    }

    /// A token may be requested, if it is one that may.
    fn ask(&mut self, graph: &Graph, token: TokenId) {
        let at = token.0 as usize;
        if at < graph.token_count() && at < MOST_TOKENS && !self.kept.is_quiet(token) {
            self.tokens[at] = true;
        }
    }

    /// Draws a run in which this many of ten jobs fail, and nobody outside requests a token.
    pub(crate) fn undisturbed(
        graph: &Graph,
        weights: &mut Weights,
        dice: &mut Dice,
        failing: u32,
    ) -> Plan {
        weights.draw(dice, Way::Chances);
        Plan {
            inputs: inputs_of(graph, &[], dice),
            tokens: [false; MOST_TOKENS],
            way: Way::Chances,
            drops: [0; MOST_DROPS],
            failing,
            fixed: None,
            kept: Kept::of_given(graph, &[]),
            habit: Habit::Inside,
        }
    }

    /// What the next job of a task answers, if it may.
    pub(crate) fn answer(&self, dice: &mut Dice, task: TaskId) -> Answer {
        match self.fixed {
            Some((fixed, answer)) if fixed == task => answer,
            _ => {
                if dice.in_ten(self.failing) {
                    Answer::Failed
                } else {
                    Answer::Done
                }
            }
        }
    }

    /// The priority to which who acts at this place drops.
    pub(crate) fn dropped(&self, place: usize) -> Option<u32> {
        match self.drops.iter().position(|drop| *drop as usize == place) {
            Some(at) => Some(at as u32 + 1),
            None => None,
        }
    }
}
