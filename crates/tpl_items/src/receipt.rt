//! What is left of a work item once it was called.
ghost use Rattle.std.specs.Prelude.{◌≡◌};

use tpl_model::{Answer, SiteId};

/// The receipt of one call: the item's stamp and site, and what its box answered.
#[derive(Drop)]
pub struct Receipt<K> {
    pub(crate) stamp: K,
    pub(crate) site: SiteId,
    pub(crate) answer: Answer,
}

impl<K> Receipt<K> {
    /// The stamp of the item that was called.
    pub fn stamp(&self) -> &K
        ensures { result.now ≡ self.now.stamp }
    {
        &self.stamp
    }

    /// The work statement that was called.
    pub fn site(&self) -> SiteId
        ensures { result ≡ self.now.site }
    {
        self.site
    }

    /// What the box answered.
    pub fn answer(&self) -> Answer
        ensures { result ≡ self.now.answer }
    {
        self.answer
    }
}
