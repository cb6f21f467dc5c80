//! What is known of values that threads find.

use std::marker::Brand;

/// What is known of values that threads find.
pub trait Known<V> {
    ghost use Rattle.std.specs.Prelude.{ℕ};

    // This value may be told at this place.
    ghost fits: { ℕ → V → Type 0 };
}

impl<V> Known<V> for Brand {
    ghost fits = { λ place value. ⊥ };
}
