//! How many leaves may still be tried, and who is told of those that are.

use crate::ran_out::RanOut;
use crate::watch::Watch;

/// How many leaves are tried for one claim at most.
#[derive(Clone, Copy, Debug, PartialEq, Eq)]
pub struct Leaves {
    /// Before all others: without a split, and with one on how a task near to the claim's ends.
    pub near: u32,
    /// In the order of the search.
    pub in_order: u32,
    /// Then in a directed search.
    pub directed: u32,
}

impl Leaves {
    /// How many leaves are tried where the caller says nothing else (this program's own limit).
    pub const USUAL: Leaves = Leaves {
        near: 0,
        in_order: 100_000,
        directed: 20_000,
    };

    /// Only those that are tried before all others, as many as a glance takes (this program's own limit).
    pub const GLANCE: Leaves = Leaves {
        near: 400,
        in_order: 0,
        directed: 0,
    };
}

/// After so many leaves the watcher is told again.
const LEAVES_BETWEEN: u32 = 1_000;

/// How many leaves may still be tried for a claim, and who is told of those that are. No clause speaks of it.
#[derive(Drop)]
pub struct Budget<W> {
    watch: W,
    leaves: Leaves,
    /// The number of the claim.
    claim: usize,
    /// How many have been tried for it.
    tried: u32,
    left: u32,
    /// Those near to the claim have been tried.
    looked: bool,
    /// They were used up once, and more were allowed.
    renewed: bool,
    /// There is no tree for the claim, however many splits it may have.
    hopeless: bool,
}

impl<W: Watch> Budget<W> {
    /// Before the first claim.
    pub fn new(watch: W, leaves: Leaves) -> Budget<W> {
        Budget {
            watch,
            leaves,
            claim: 0,
            tried: 0,
            left: 0,
            looked: false,
            renewed: false,
            hopeless: false,
        }
    }

    /// The search for the claim of this number begins.
    pub(crate) fn begin(&mut self, claim: usize) {
        self.claim = claim;
        self.tried = 0;
        self.looked = false;
        self.again();
        self.watch.tries(claim, 0);
    }

    /// The search near to the claim begins, if there is one that hasn't been made yet.
    pub(crate) fn looks_near(&mut self) -> bool {
        let looks = !self.looked && self.leaves.near > 0;
        self.looked = true;
        if looks {
            self.left = self.leaves.near;
        }
        looks
    }

    /// Another search for the same claim begins.
    pub(crate) fn again(&mut self) {
        self.left = self.leaves.in_order;
        self.renewed = false;
        self.hopeless = false;
    }

    /// The directed search for the same claim begins.
    pub(crate) fn renew(&mut self) {
        self.left = self.leaves.directed;
        self.renewed = true;
    }

    /// Uses up so many leaves. True where as many were left; else none is.
    pub(crate) fn spend(&mut self, leaves: u32) -> bool {
        if self.left < leaves {
            self.left = 0;
            return false;
        }
        self.left -= leaves;
        let told = self.tried / LEAVES_BETWEEN;
        self.tried = self.tried.saturating_add(leaves);
        if self.tried / LEAVES_BETWEEN != told {
            self.watch.tries(self.claim, self.tried);
        }
        true
    }

    /// No leaf is left.
    pub(crate) fn is_spent(&self) -> bool {
        self.left == 0
    }

    /// There is no tree for the claim, however many splits it may have: no more leaves are tried.
    pub(crate) fn give_up(&mut self) {
        self.left = 0;
        self.hopeless = true;
    }

    /// What ran out, where no tree was found for the claim that was searched last.
    pub fn ran_out(&self) -> RanOut {
        if self.hopeless {
            RanOut::Trees
        } else if self.renewed || self.left == 0 {
            RanOut::Leaves
        } else {
            RanOut::Depth
        }
    }
}
