//! How values are told.

use std::alloc::{AllocError, Global};

/// How values are told, one behind another, and what is kept of each.
pub trait Tell<V> {
    /// What is kept of a value once it is told.
    type Kept: Drop + Send;

    ghost use Rattle.std.specs.Prelude.{◌≡◌, ℕ, List, IfOk, string_bytes};
    ghost use Rattle.tpl_series.specs.Told.{IsNext};

    // This value may be told at this place.
    ghost fits: { Self → ℕ → V → Type 0 };

    // The text tells these values, which are the first ones.
    ghost tells: { Self → List V → List ℕ → Type 0 };

    // This is kept of the value.
    ghost keep: { V → Self.Kept };

    /// The text for the value at this place. Out of memory is the only error.
    fn text(&self, alloc: Global, place: usize, value: &V) -> Result<String, AllocError>
        requires { fits self.now place value.now }
        ensures { IfOk result (λ text. IsNext (tells self.now) place value.now (string_bytes text)) };

    /// What is kept of the value.
    fn kept(&self, value: &V) -> Self::Kept
        ensures { result ≡ keep value.now };
}
