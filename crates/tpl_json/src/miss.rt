//! Why something was not read.

ghost use Rattle.std.specs.Prelude.{◌≡◌};
ghost use Rattle.tpl_json.specs.Prelude.{numbered, or_fault};
ghost use Rattle.tpl_json.specs.declared.miss.Miss.TheVariants.{Memory};

use json::Value;
use std::alloc::{AllocError, AllocFailed};

/// Why something was not read.
#[derive(Clone, Copy, Debug, Drop, PartialEq, Eq)]
pub enum Miss<F> {
    /// This is wrong, with its place where there are several.
    Wrong(F),
    /// Memory ran out.
    Memory,
}

/// What is wrong with a value: its shape.
#[derive(Clone, Copy, Drop)]
pub struct Shape<'v, 't> {
    /// The value itself, or the one in it that was the first to have the wrong shape.
    pub at: &'v Value<'t>,
}

impl<F: Drop> From<AllocError> for Miss<F> {
    ghost from_gives = { λ _ e. e ≡ Memory };

    fn from(_e: AllocError) -> Miss<F> {
        Miss::Memory
    }
}

impl<F: Drop, T: Drop> From<AllocFailed<T>> for Miss<F> {
    ghost from_gives = { λ _ e. e ≡ Memory };

    fn from(_e: AllocFailed<T>) -> Miss<F> {
        Miss::Memory
    }
}

/// What was read, or this fault where the shape is wrong.
pub fn or_fault<T: Drop, F: Drop>(
    read: Result<T, Miss<Shape<'_, '_>>>,
    fault: F,
) -> Result<T, Miss<F>>
    ensures { result ≡ or_fault fault read.entry }
{
    match read {
        Ok(found) => Ok(found),
        Err(Miss::Wrong(_)) => Err(Miss::Wrong(fault)),
        Err(Miss::Memory) => Err(Miss::Memory),
    }
}

/// What was read, or what is wrong with it beside this number.
pub fn at_number<T: Drop, F: Drop>(
    number: usize,
    read: Result<T, Miss<F>>,
) -> Result<T, Miss<(usize, F)>>
    ensures { result ≡ numbered number read }
{
    match read {
        Ok(found) => Ok(found),
        Err(Miss::Wrong(fault)) => Err(Miss::Wrong((number, fault))),
        Err(Miss::Memory) => Err(Miss::Memory),
    }
}
