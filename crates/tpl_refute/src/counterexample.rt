//! What refutes a claim.

use tpl_model::{Event, Inputs};

/// A run in which a claim fails.
#[derive(Drop)]
pub struct Counterexample {
    /// The values of the inputs.
    pub inputs: Inputs,
    /// The events, the first one first. After the last one the claim doesn't hold.
    pub events: Vec<Event>,
}
