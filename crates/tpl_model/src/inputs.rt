//! The truth values of a graph's inputs.

ghost use Rattle.std.specs.Prelude.{◌≡◌, ◌<◌, ◌≤◌, ◌↔◌, false, length, replicate, slice_index_or, slice_set, IsTrue};

use crate::ids::InputId;
use crate::limits::MOST_INPUTS;
use std::marker::Model;

/// One truth value for each input of a graph, of which there are at most `MOST_INPUTS`. Contracts
/// see the list of them in declared order.
#[derive(Drop)]
pub struct Inputs {
    values: [bool; MOST_INPUTS],
    count: usize,
}

impl Model for Inputs {
    ghost use Rattle.std.specs.Prelude.{◌≤◌, Bool, List, take};
    ghost use Rattle.tpl_model.specs.declared.limits.TheConstants.{MOST_INPUTS};

    ghost Value = { List Bool };

    ghost view = { λ s. take s.count s.values };

    ghost invariant = { λ s. s.count ≤ MOST_INPUTS };
}

impl Inputs {
    /// Values for this many inputs, all false.
    pub fn new(count: usize) -> Inputs
        requires { count ≤ MOST_INPUTS }
        ensures { result ≡ replicate count false }
    {
        Inputs {
            values: [false; MOST_INPUTS],
            count,
        }
    }

    /// A copy.
    pub fn copy(&self) -> Inputs
        ensures { result ≡ self.now }
    {
        Inputs {
            values: self.values,
            count: self.count,
        }
    }

    /// How many inputs there are: at most `MOST_INPUTS`.
    pub fn len(&self) -> usize
        ensures count { result ≡ length self.now }
        ensures limit { length self.now ≤ MOST_INPUTS }
    {
        let Inputs { count, .. } = self;
        *count
    }

    /// There are no inputs.
    pub fn is_empty(&self) -> bool
        ensures { IsTrue result ↔ (length self.now ≡ 0) }
    {
        self.count == 0
    }

    /// The value of an input. Past the last one it is false.
    pub fn get(&self, input: InputId) -> bool
        ensures { result ≡ slice_index_or self.now input.0 false }
    {
        let at = input.0 as usize;
        at < self.count && self.values[at]
    }

    /// Gives an input its value.
    pub fn set(&mut self, input: InputId, value: bool)
        requires { input.0 < length self.old }
        ensures { self.new ≡ slice_set self.old input.0 value }
    {
        self.values[input.0 as usize] = value;
    }

    /// Both have as many inputs, with the same values.
    pub fn same(&self, other: &Inputs) -> bool
        ensures { IsTrue result ↔ (self.now ≡ other.now) }
    {
        self.values[..self.count] == other.values[..other.count]
    }
}
