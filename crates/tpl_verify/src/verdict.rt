//! What is answered of a claim.

ghost use Rattle.std.specs.Prelude.{◌≡◌, ◌↔◌, IsTrue, codes, if◌then◌else◌};

use tpl_analyser::RanOut;
use tpl_model::TaskId;
use tpl_refute::{Counterexample, Sought};
use tpl_trees::Certificate;

/// What is answered of a claim.
#[derive(Drop)]
pub enum Verdict {
    /// It holds in each run of the graph, for all inputs.
    Holds {
        /// The certificate that was found, one tree.
        certificate: Certificate,
        /// How many splits that tree has above its deepest leaf.
        splits: u8,
        /// Why it says nothing, where that is certified too.
        empty: Option<Empty>,
    },
    /// It fails after the last event of this run.
    Fails(Counterexample),
    /// Neither a certificate nor a run in which it fails was found. That promises nothing.
    Unknown(Tried),
}

/// Why a claim that holds says nothing.
#[derive(Clone, Copy, PartialEq, Eq, Debug)]
pub enum Empty {
    /// It speaks only of what comes with the begin of this task, which never begins where what is given is true.
    NeverBegins(TaskId),
    /// It lets its task end in each of the three ways.
    NamesAllEnds,
    /// It lets its task end in each way that what is given leaves.
    NamesGivenEnds,
    /// The body of its task throws in no complete run of which what is given is true: there is no exception to observe.
    NeverThrows,
    /// Ends of this task are given, and in no run of which what is given is true has it ended.
    NeverEndsSo(TaskId),
    /// It speaks of how this task ends, which never does where what is given is true.
    NeverEnds(TaskId),
    /// It speaks of complete runs alone, and what is given is true of none.
    NeverKept,
}

/// How far a claim was tried that is neither certified nor refuted.
#[derive(Clone, Copy, PartialEq, Eq, Debug)]
pub struct Tried {
    /// What ran out in the search for a certificate.
    pub ran_out: RanOut,
    /// How many random runs were made.
    pub runs: u32,
    /// The events that may be played were used up before the runs.
    pub events_ran_out: bool,
}

impl Tried {
    /// How far a claim was tried by a search that found no run in which it fails, where this ran out in the search for a
    /// certificate.
    pub(crate) fn by(ran_out: RanOut, sought: &Sought) -> Tried
        ensures ran_out { result.ran_out ≡ ran_out }
        ensures runs { result.runs ≡ sought.now.runs }
        ensures events { IsTrue result.events_ran_out ↔ (sought.now.left ≡ 0) }
    {
        Tried {
            ran_out,
            runs: sought.runs,
            events_ran_out: sought.left == 0,
        }
    }

    /// What is said behind the number of runs.
    pub fn most(self) -> &'static str
        ensures { result.now
            ≡ (if self.events_ran_out then codes ", and no more may be made" else codes "") }
    {
        if self.events_ran_out {
            ", and no more may be made"
        } else {
            ""
        }
    }
}
