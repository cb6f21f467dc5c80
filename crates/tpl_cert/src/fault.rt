//! Why a tree isn't read or written.

ghost use Rattle.std.specs.Prelude.{◌≡◌};
ghost use Rattle.tpl_cert.specs.Prelude.{shape_fault, tree_fault};
ghost use Rattle.tpl_cert.specs.declared.fault.TreeToFault.TheVariants.{Memory};

use std::alloc::{AllocError, AllocFailed};
use thiserror::Error;
use tpl_json::{Miss, Shape};

/// Why a JSON value isn't read as a certificate tree. The least that applies anywhere in the tree is named, in this
/// order; `Memory` can come before any of them.
#[derive(Clone, Copy, Debug, PartialEq, Eq, Error)]
pub enum TreeFault {
    /// It has the wrong shape for a tree.
    #[error("Shape")]
    Shape,
    /// A name isn't the graph's.
    #[error("Unknown")]
    Unknown,
    /// More than 6 splits on a path, or more than 16 tasks in a chain.
    #[error("Limit")]
    Limit,
    /// An allocation was refused.
    #[error("out of memory")]
    Memory,
}

impl From<Miss<Shape<'_, '_>>> for TreeFault {
    ghost from_gives = { λ miss e. e ≡ shape_fault miss };

    fn from(miss: Miss<Shape<'_, '_>>) -> TreeFault {
        match miss {
            Miss::Wrong(_) => TreeFault::Shape,
            Miss::Memory => TreeFault::Memory,
        }
    }
}

impl From<Miss<TreeFault>> for TreeFault {
    ghost from_gives = { λ miss e. e ≡ tree_fault miss };

    fn from(miss: Miss<TreeFault>) -> TreeFault {
        match miss {
            Miss::Wrong(fault) => fault,
            Miss::Memory => TreeFault::Memory,
        }
    }
}

/// Why a tree isn't written.
#[derive(Clone, Copy, Debug, PartialEq, Eq, Error)]
pub enum TreeToFault {
    /// An id that isn't the graph's.
    #[error("Unknown")]
    Unknown,
    /// An allocation was refused.
    #[error("out of memory")]
    Memory,
}

impl From<AllocError> for TreeToFault {
    ghost from_gives = { λ _ e. e ≡ Memory };

    fn from(_e: AllocError) -> TreeToFault {
        TreeToFault::Memory
    }
}

impl<T: Drop> From<AllocFailed<T>> for TreeToFault {
    ghost from_gives = { λ _ e. e ≡ Memory };

    fn from(_e: AllocFailed<T>) -> TreeToFault {
        TreeToFault::Memory
    }
}
