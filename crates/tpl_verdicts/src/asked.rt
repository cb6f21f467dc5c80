//! The claims of a graph, and how what is found of each is told as text.

ghost use Rattle.std.specs.Prelude.{◌≡◌, ◌+◌, ◌<◌, length, map, option_map, IfOk, Some, slice_get, string_bytes, All};
ghost use Rattle.tpl_graph.specs.Prelude.{Fits};
ghost use Rattle.tpl_series.specs.Prelude.{IsNext};
ghost use Rattle.tpl_verdicts.specs.Prelude.{IsOneOf, IsRight, TellsFirst, names_of, told_of, told_there, word_of};
ghost use Rattle.tpl_verdicts.specs.declared.asked.Asked.{Asked};
ghost use Rattle.tpl_verify.specs.declared.verdict.Verdict.{Verdict};

use crate::entries::entry_of;
use crate::judgement::{Judgement, name_at};
use crate::searched::Searched;
use crate::text::entry_text;
use crate::word::{Word, word_of};
use std::alloc::{AllocError, Global};
use tpl_graph::{Claim, Graph};
use tpl_series::Tell;
use tpl_verify::Verdict;

/// The claims of a graph on which verdicts are sought.
#[derive(Clone, Copy, Drop)]
pub(crate) struct Asked<'d> {
    pub(crate) graph: &'d Graph,
    pub(crate) claims: &'d [Claim],
    /// The name of each claim that has one.
    pub(crate) names: &'d [Option<String>],
    pub(crate) searched: Searched,
}

impl<'d> Asked<'d> {
    /// The claim at this place with this verdict.
    fn at(&self, place: usize, verdict: &'d Verdict) -> Judgement<'d>
        requires { IsOneOf self.now place verdict.now }
        ensures right { IsRight result }
        ensures graph { result.graph.now ≡ self.now.graph.now }
        ensures number { result.number ≡ place + 1 }
        ensures claim { slice_get self.now.claims.now place ≡ Some (told_of result).claim }
        ensures told { told_of result
            ≡ told_there (names_of self.now) place (told_of result).claim verdict.now }
    {
        let Asked {
            graph,
            claims,
            names,
            searched,
        } = *self;
        Judgement {
            graph,
            number: place + 1,
            claim: &claims[place],
            name: name_at(names, place),
            verdict,
            searched,
        }
    }

    /// The lines for the claim at this place with this verdict.
    fn lines_at(&self, alloc: Global, place: usize, verdict: &Verdict) -> Result<String, AllocError>
        requires { IsOneOf self.now place verdict.now }
        ensures { IfOk result (λ text.
            IsNext (TellsFirst self.now) place verdict.now (string_bytes text)) }
    {
        let entry = entry_of(alloc, &self.at(place, verdict))?;
        entry_text(alloc, &entry)
    }
}

impl Tell<Verdict> for Asked<'_> {
    type Kept = Word;

    ghost fits = { IsOneOf };

    ghost tells = { TellsFirst };

    ghost keep = { word_of };

    fn text(&self, alloc: Global, place: usize, value: &Verdict) -> Result<String, AllocError> {
        let Asked {
            graph,
            claims,
            names,
            searched,
        } = *self;
        let asked = Asked {
            graph,
            claims,
            names,
            searched,
        };
        asked.lines_at(alloc, place, value)
    }

    fn kept(&self, value: &Verdict) -> Word {
        word_of(value)
    }
}
