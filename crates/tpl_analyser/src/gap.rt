//! Why no certificate is given.

ghost use Rattle.std.specs.Prelude.{◌≡◌};
ghost use Rattle.tpl_analyser.specs.declared.gap.Gap.TheVariants as gap;

use std::alloc::{AllocError, AllocFailed};
use thiserror::Error;

/// Why no certificate is given.
#[derive(Clone, Copy, Debug, PartialEq, Eq, Error)]
pub enum Gap {
    /// The first claim for which no tree was found; claims count from 1.
    #[error("not found: claim {claim}")]
    NotFound { claim: usize },
    /// An allocation was refused.
    #[error("out of memory")]
    Memory,
}

impl From<AllocError> for Gap {
    ghost from_gives = { λ _ e. e ≡ gap.Memory };

    fn from(_e: AllocError) -> Gap {
        Gap::Memory
    }
}

impl<T: Drop> From<AllocFailed<T>> for Gap {
    ghost from_gives = { λ _ e. e ≡ gap.Memory };

    fn from(_e: AllocFailed<T>) -> Gap {
        Gap::Memory
    }
}
