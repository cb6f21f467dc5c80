//! How deep a search goes.

ghost use Rattle.std.specs.Prelude.{◌≡◌, ◌≤◌, ◌↔◌, ℕ, IsSome, IfSome};

use std::marker::Model;
use tpl_model::MOST_SPLITS;

/// The most splits on each path of the trees that a search gives: 0 to `MOST_SPLITS`.
#[derive(Clone, Copy, Debug, PartialEq, Eq)]
pub struct Depth {
    splits: u8,
}

impl Model for Depth {
    ghost use Rattle.std.specs.Prelude.{◌≤◌, ℕ};
    ghost use Rattle.tpl_model.specs.declared.limits.TheConstants.{MOST_SPLITS};

    ghost Value = { ℕ };

    ghost view = { λ d. d.splits };

    ghost invariant = { λ d. d.splits ≤ MOST_SPLITS };

    ghost inverse = { λ n. record { splits = n } };
}

impl Depth {
    /// This many splits; none where that is more than `MOST_SPLITS`.
    pub fn new(splits: u8) -> Option<Depth>
        ensures limit { IsSome result ↔ (splits ≤ MOST_SPLITS) }
        ensures value { IfSome result (λ d. d ≡ splits) }
    {
        if splits <= MOST_SPLITS {
            Some(Depth { splits })
        } else {
            None
        }
    }

    /// How many splits.
    pub fn splits(self) -> u8
        ensures value { result ≡ self }
        ensures limit { result ≤ MOST_SPLITS }
    {
        self.splits
    }
}
