//! Items of no site of the graph.

ghost use Rattle.std.specs.Prelude.{◌≡◌, ◌≤◌, ◌<◌, ℕ, map, IfSome, IfNone};
ghost use Rattle.tpl_items.specs.Prelude.{AreKnown, count_of};

use crate::item::Item;

/// Above each site's number.
const NO_SITE: u32 = 65536;

/// The lower of what was found and this site, where it is none of the graph's.
fn lower(least: u32, sites: u16, site: u16) -> u32
    ensures not_above { (result ≤ least) × (sites ≤ site → result ≤ site) }
    ensures of_both { result < least → (result ≡ site) × (sites ≤ site) }
{
    if site >= sites && (site as u32) < least {
        site as u32
    } else {
        least
    }
}

/// The least site of an item that is none of the graph's.
pub(crate) fn first_strange<K, W: Item<K>>(sites: u16, items: &[W]) -> Option<u16>
    ensures some { IfSome result (λ s. (sites ≤ s) × (0 < count_of (map W.site items.now) s)
        × ((r : ℕ) → sites ≤ r → r < s → count_of (map W.site items.now) r ≡ 0)) }
    ensures none { IfNone result (AreKnown sites (map W.site items.now)) }
{
    let mut least = NO_SITE;
    for item in items {
        least = lower(least, sites, item.site().0);
    }
    if least < NO_SITE {
        Some(least as u16)
    } else {
        None
    }
}
