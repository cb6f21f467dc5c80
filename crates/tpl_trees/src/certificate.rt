//! Certificates.

ghost use Rattle.std.specs.Prelude.{◌≡◌, All};
ghost use Rattle.tpl_trees.specs.Prelude.{IsWithinLimits};

use crate::tree::Tree;
use std::marker::Model;

/// A certificate: a tree for each claim, in the order of the claims, each within the limits: at most `MOST_SPLITS`
/// splits on each path, and at most `MOST_IN_CHAIN` tasks in a chain. Contracts see the list of the trees.
#[derive(Drop)]
pub struct Certificate {
    trees: Vec<Tree>,
}

impl Model for Certificate {
    ghost use Rattle.std.specs.Prelude.{List};
    ghost use Rattle.std.specs.Coded.{coded_list};
    ghost use Rattle.tpl_model.specs.Certificate as certificate;
    ghost use Rattle.std.specs.List.{All};
    ghost use Rattle.tpl_trees.specs.Coding.{tree_code};
    ghost use Rattle.tpl_trees.specs.Heights.{IsWithinLimits};

    ghost Value = { List certificate.Tree };

    ghost coded = { coded_list tree_code };

    ghost view = { λ c. c.trees.items };

    ghost invariant = { λ c. All IsWithinLimits c.trees.items };
}

impl Certificate {
    /// The certificate of these trees, each of which is within the limits (`is_within_limits` tests that).
    pub fn new(trees: Vec<Tree>) -> Certificate
        requires { All IsWithinLimits trees.items }
        ensures { result ≡ trees.items }
    {
        Certificate { trees }
    }

    /// Each tree is within the limits: a caller that needs it calls this, which does nothing.
    pub fn limits_law(&self)
        ensures { All IsWithinLimits self.now }
    {
        let _ = &self.trees;
    }

    /// Its trees.
    pub fn trees(&self) -> &[Tree]
        ensures { result.now ≡ self.now }
    {
        self.trees.as_slice()
    }
}
