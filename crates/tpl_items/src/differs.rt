//! Items that may fail where the graph says that their site may not, or the other way round.

ghost use Rattle.std.specs.Prelude.{◌≡◌, ◌↔◌, ◌<◌, ℕ, length, slice_index_or, false, IsTrue, IsFalse, IfSome, IfNone};
ghost use Rattle.tpl_draft.specs.Prelude.{all_may_fail};
ghost use Rattle.tpl_items.specs.Prelude.{SayAt, SomeDiffers};

use crate::item::Item;
use tpl_graph::Graph;
use tpl_model::SiteId;

/// Both are true, or both false.
fn same_bool(a: bool, b: bool) -> bool
    ensures { IsTrue result ↔ (a ≡ b) }
{
    if a { b } else { !b }
}

/// Each item of the site says this of whether it may fail.
fn says<K, W: Item<K>>(site: u16, may_fail: bool, items: &[W]) -> bool
    ensures yes { IsTrue result → SayAt W.site W.may_fail site may_fail items.now }
    ensures no { IsFalse result → SomeDiffers W.site W.may_fail site may_fail items.now }
{
    for item in items {
        if item.site().0 == site && !same_bool(item.may_fail(), may_fail) {
            return false;
        }
    }
    true
}

/// The least site whose item and graph don't agree on whether it may fail.
pub(crate) fn first_differing<K, W: Item<K>>(graph: &Graph, items: &[W]) -> Option<u16>
    ensures some { IfSome result (λ s. (s < length graph.now.names.sites)
        × SomeDiffers W.site W.may_fail s (slice_index_or (all_may_fail graph.now.graph) s false)
        items.now × ((r : ℕ) → r < s → SayAt W.site W.may_fail r (slice_index_or (all_may_fail
        graph.now.graph) r false) items.now)) }
    ensures none { IfNone result ((s : ℕ) → s < length graph.now.names.sites
        → SayAt W.site W.may_fail s (slice_index_or (all_may_fail graph.now.graph) s false)
        items.now) }
{
    for site in 0..graph.site_count() as u16 {
        let fails = graph.site_may_fail(SiteId(site));
        if !says::<K, W>(site, fails, items) {
            return Some(site);
        }
    }
    None
}
