//! Receipts by their sites.

ghost use Rattle.std.specs.Prelude.{◌≡◌, ◌≤◌, length, map, count_by, nat_eq};

use tpl_items::Receipt;

/// How many receipts there are of a site.
pub fn receipts_of<K>(site: u16, receipts: &[Receipt<K>]) -> usize
    ensures count { result ≡ count_by (nat_eq site) (map (λ r. r.site.0) receipts.now) }
    ensures short { result ≤ length receipts.now }
{
    receipts
        .iter()
        .filter(|receipt| site == receipt.site().0)
        .count()
}
