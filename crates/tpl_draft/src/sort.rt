//! The sorts of names that stand in bodies.

/// Which names of statements.
#[derive(Clone, Copy)]
pub enum Sort {
    Labels,
    Sites,
}
