//! How many items there are of each site.

ghost use Rattle.std.specs.Prelude.{◌≡◌, ◌≤◌, ◌<◌, length, map, count_by, nat_eq, IfSome, IfNone};
ghost use Rattle.tpl_items.specs.Prelude.{AreSingle, AreThere, count_of};

use crate::item::Item;

/// How many items there are of a site.
pub fn items_of<K, W: Item<K>>(site: u16, items: &[W]) -> usize
    ensures count { result ≡ count_by (nat_eq site) (map W.site items.now) }
    ensures short { result ≤ length items.now }
{
    items.iter().filter(|item| site == item.site().0).count()
}

/// The least site without an item.
pub(crate) fn first_missing<K, W: Item<K>>(sites: u16, items: &[W]) -> Option<u16>
    ensures some { IfSome result (λ s. (s < sites) × (count_of (map W.site items.now) s ≡ 0)
        × AreThere s (map W.site items.now)) }
    ensures none { IfNone result (AreThere sites (map W.site items.now)) }
{
    for site in 0..sites {
        let count = items_of::<K, W>(site, items);
        if count == 0 {
            return Some(site);
        }
    }
    None
}

/// The least site with two items.
pub(crate) fn first_twice<K, W: Item<K>>(sites: u16, items: &[W]) -> Option<u16>
    ensures some { IfSome result (λ s. (s < sites) × (1 < count_of (map W.site items.now) s)
        × AreSingle s (map W.site items.now)) }
    ensures none { IfNone result (AreSingle sites (map W.site items.now)) }
{
    for site in 0..sites {
        let count = items_of::<K, W>(site, items);
        if count > 1 {
            return Some(site);
        }
    }
    None
}
