//! What a session runs.

use crate::receipt::Receipt;
use crate::work_item::WorkItem;
use tpl_model::SiteId;

/// The box of one work statement, stamped by a `K`. A session calls it at most once, and can make none.
///
/// Everything that threads share is generic in the items, and not in the boxes themselves: so a pass of the queue comes
/// back through a thread as one of the same queue.
pub trait Item<K>: Drop {
    ghost use Rattle.std.specs.Prelude.{◌≡◌, ℕ, Bool, false};
    ghost use Rattle.tpl_model.specs.declared.status.Answer.TheVariants.{Done};

    ghost site: { Self → ℕ };

    ghost may_fail: { Self → Bool };

    /// The work statement.
    fn site(&self) -> SiteId
        ensures { result.0 ≡ site self.now };

    /// Whether the box may answer `Failed`.
    fn may_fail(&self) -> bool
        ensures { result ≡ may_fail self.now };

    /// Calls the box on its site.
    fn call(self) -> Receipt<K>
        ensures site { result.site.0 ≡ site self }
        ensures done { may_fail self ≡ false → result.answer ≡ Done };
}

impl<K: Drop> Item<K> for WorkItem<K> {
    ghost use Rattle.std.specs.Prelude.{◌≡◌, false};
    ghost use Rattle.tpl_model.specs.declared.status.Answer.TheVariants.{Done};

    ghost site = { λ item. item.site.0 };

    ghost may_fail = { λ item. item.may_fail };

    fn site(&self) -> SiteId
        ensures { result.0 ≡ self.now.site.0 }
    {
        WorkItem::site(self)
    }

    fn may_fail(&self) -> bool
        ensures { result ≡ self.now.may_fail }
    {
        WorkItem::may_fail(self)
    }

    fn call(self) -> Receipt<K>
        ensures site { result.site.0 ≡ self.site.0 }
        ensures done { self.may_fail ≡ false → result.answer ≡ Done }
    {
        WorkItem::call(self)
    }
}
