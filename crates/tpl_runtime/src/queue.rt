//! The queue of a session's jobs.

use tpl_items::{JobQueue, QueuePass};

/// The queue that carries jobs of items.
pub type ItemQueue<W> = JobQueue<Vec<W>>;

/// A pass of it.
pub type ItemPass<W> = QueuePass<Vec<W>>;
