//! What was found of the claims of a graph.

ghost use Rattle.std.specs.Prelude.{◌≡◌, ◌+◌, ◌<◌, length, map, option_map, slice_get, slice_index_or, string_bytes};
ghost use Rattle.tpl_verdicts.specs.Prelude.{AreRight, IsRight, all_told, told_of};

use crate::searched::Searched;
use tpl_graph::{Claim, Graph};
use tpl_verify::Verdict;

/// The verdict on a claim of a graph.
#[derive(Clone, Copy, Drop)]
pub(crate) struct Judgement<'d> {
    pub(crate) graph: &'d Graph,
    /// The number of the claim; the first one has 1.
    pub(crate) number: usize,
    pub(crate) claim: &'d Claim,
    /// The name of the claim, where it has one.
    pub(crate) name: Option<&'d str>,
    pub(crate) verdict: &'d Verdict,
    pub(crate) searched: Searched,
}

/// The verdicts on the claims of a graph.
#[derive(Clone, Copy, Drop)]
pub(crate) struct Judgements<'d> {
    pub(crate) graph: &'d Graph,
    pub(crate) claims: &'d [Claim],
    /// The name of each claim that has one.
    pub(crate) names: &'d [Option<String>],
    /// The verdict on each claim.
    pub(crate) verdicts: &'d [Verdict],
    pub(crate) searched: Searched,
}

/// The name at this place, if there is one.
pub(crate) fn name_at(names: &[Option<String>], place: usize) -> Option<&str>
    ensures { option_map (λ name. name.now) result
        ≡ slice_index_or (map (λ name. option_map string_bytes name) names.now) place None }
{
    match names.get(place) {
        Some(Some(name)) => Some(name.as_str()),
        _ => None,
    }
}

impl<'d> Judgements<'d> {
    /// The one at this place.
    pub(crate) fn at(&self, place: usize) -> Judgement<'d>
        requires right { AreRight self.now }
        requires place { place < length self.now.verdicts.now }
        ensures right { IsRight result }
        ensures graph { result.graph.now ≡ self.now.graph.now }
        ensures rules { result.searched.rules ≡ self.now.searched.rules }
        ensures number { result.number ≡ place + 1 }
        ensures told { slice_get (all_told self.now) place ≡ Some (told_of result) }
    {
        let Judgements {
            graph,
            claims,
            names,
            verdicts,
            searched,
        } = *self;
        let name = name_at(names, place);
        Judgement {
            graph,
            number: place + 1,
            claim: &claims[place],
            name,
            verdict: &verdicts[place],
            searched,
        }
    }
}
