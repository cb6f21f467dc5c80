//! The option words of a task.

ghost use Rattle.std.specs.Prelude.{◌≡◌};
ghost use Rattle.std.specs.Int.RustNames.{bit_or};
ghost use Rattle.bitflags.specs.Sets.{find_name};
ghost use Rattle.tpl_model.specs.Prelude.{allows, attached_to_parent, deny_child_attach, execute_synchronously, has_bits, lazy_cancellation, run_continuations_asynchronously, validity, words};

use crate::finals::Final;
use bitflags::{Flag, Flags, bitflag_items};
use std::marker::Model;
use thiserror::Error;

/// The words as bits.
#[derive(Clone, Copy, PartialEq, Eq, Debug)]
struct Words(u32);

bitflag_items! {
    impl Words: u32 {
        const None = 0;
        const PreferFairness = 1;
        const LongRunning = 2;
        const AttachedToParent = 4;
        const DenyChildAttach = 8;
        const HideScheduler = 16;
        const LazyCancellation = 32;
        const RunContinuationsAsynchronously = 64;
        const NotOnRanToCompletion = 0x10000;
        const NotOnFaulted = 0x20000;
        const NotOnCanceled = 0x40000;
        const OnlyOnCanceled = 0x30000;
        const OnlyOnFaulted = 0x50000;
        const OnlyOnRanToCompletion = 0x60000;
        const ExecuteSynchronously = 0x80000;
    }
}

impl Flags for Words {
    type Bits = u32;

    ghost use Rattle.std.specs.Prelude.{⊤};
    ghost use Rattle.tpl_model.specs.Options.{words};

    ghost exact = { ⊤ };

    ghost table = { words };

    ghost set_of = { λ w. w.0 };

    fn flags<'a>() -> &'a [Flag<Words>] {
        Words::FLAGS
    }

    fn bits(&self) -> u32 {
        self.0
    }

    fn from_bits_retain(bits: u32) -> Words {
        Words(bits)
    }
}

/// What a task's option words come to, which contracts see as a number (.NET API documentation:
/// the enumerations TaskCreationOptions and TaskContinuationOptions).
#[derive(Clone, Copy, PartialEq, Eq, Debug)]
pub struct Options {
    words: Words,
}

impl Model for Options {
    ghost use Rattle.std.specs.Prelude.{ℕ};

    ghost Value = { ℕ };

    ghost view = { λ o. o.words.0 };

    ghost inverse = { λ n. record { words = record { 0 = n } } };
}

/// What is wrong with a task's options (.NET API documentation: the ArgumentOutOfRangeException of
/// Task.ContinueWith).
#[derive(Clone, Copy, PartialEq, Eq, Debug, Error)]
pub enum OptionFault {
    /// All three final statuses are excluded.
    #[error("ExcludesAll")]
    ExcludesAll,
    /// LongRunning stands with ExecuteSynchronously.
    #[error("LongAndSync")]
    LongAndSync,
}

impl Options {
    /// No option.
    pub fn empty() -> Options
        ensures { result ≡ 0 }
    {
        Options {
            words: Words::empty(),
        }
    }

    /// The option that a word names: one of the fifteen words of the two enumerations.
    pub fn from_word(word: &str) -> Option<Options>
        ensures { result ≡ find_name words word.now }
    {
        Words::from_name(word).map(|words| Options { words })
    }

    /// The words of both.
    pub fn union(self, other: Options) -> Options
        ensures { result ≡ bit_or self other }
    {
        Options {
            words: self.words.union(other.words),
        }
    }

    /// It has each of the other's bits.
    pub fn contains(self, other: Options) -> bool
        ensures { result ≡ has_bits self other }
    {
        self.words.contains(other.words)
    }

    /// A continuation with these options may run after this status of its antecedent: the NotOn bit
    /// of the status isn't set.
    pub fn allows(self, status: Final) -> bool
        ensures { result ≡ allows self status }
    {
        !self.words.contains(match status {
            Final::RanToCompletion => Words::NotOnRanToCompletion,
            Final::Canceled => Words::NotOnCanceled,
            Final::Faulted => Words::NotOnFaulted,
        })
    }

    /// Tests what no task may have: `ExcludesAll` where the NotOn bits of all three statuses are set,
    /// else `LongAndSync` where LongRunning and ExecuteSynchronously are.
    pub fn valid(self) -> Result<(), OptionFault>
        ensures { result ≡ validity self }
    {
        let excludes_all = !self.allows(Final::RanToCompletion)
            && !self.allows(Final::Canceled)
            && !self.allows(Final::Faulted);
        if excludes_all {
            return Err(OptionFault::ExcludesAll);
        }
        if self.words.contains(Words::LongRunning) && self.execute_synchronously() {
            return Err(OptionFault::LongAndSync);
        }
        Ok(())
    }

    /// As a child it is attached to its parent, where that allows it.
    pub fn attached_to_parent(self) -> bool
        ensures { result ≡ attached_to_parent self }
    {
        self.words.contains(Words::AttachedToParent)
    }

    /// No child is attached to it.
    pub fn deny_child_attach(self) -> bool
        ensures { result ≡ deny_child_attach self }
    {
        self.words.contains(Words::DenyChildAttach)
    }

    /// As a continuation it isn't canceled before its antecedent has ended.
    pub fn lazy_cancellation(self) -> bool
        ensures { result ≡ lazy_cancellation self }
    {
        self.words.contains(Words::LazyCancellation)
    }

    /// None of its continuations runs on the thread that ended it.
    pub fn run_continuations_asynchronously(self) -> bool
        ensures { result ≡ run_continuations_asynchronously self }
    {
        self.words.contains(Words::RunContinuationsAsynchronously)
    }

    /// As a continuation it runs on the thread that ended its antecedent.
    pub fn execute_synchronously(self) -> bool
        ensures { result ≡ execute_synchronously self }
    {
        self.words.contains(Words::ExecuteSynchronously)
    }
}
