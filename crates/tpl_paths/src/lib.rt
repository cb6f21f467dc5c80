//! What the paths of a body know, found in one walk over it.
#![tactic(auto)]

ghost use Rattle.tpl_paths.specs.Prelude.{AgreeingReadings};

mod asked;
mod facts;
mod gathered;
mod knowledge;
mod paths;
mod reached;
mod reading;
mod token_set;
mod walk;

pub use facts::Facts;
pub use knowledge::Knowledge;
pub use reading::{ChildEnd, Reading};
pub use token_set::TokenSet;
pub use walk::{known_at_end, known_at_start, known_at_throw};

/// Two readings that agree on the tokens of a body find the same in it.
pub fn readings_agree()
    ensures { AgreeingReadings }
{}
