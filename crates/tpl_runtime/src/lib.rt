//! Runs by threads: the one lock with the hall under it, the workers in their threads, and the session that they
//! share.
//!
//! ## Choices
//!
//! - **The runtime is generic in the item, not only in its stamp**: a pass of the queue then comes back through a
//!   thread as one of the same queue. For the same reason a job in the queue has the type of a list of items, though
//!   it is empty: items stay under the lock until they are called. With jobs of nothing but a task, what the prover
//!   knows of a scope's answer no longer says whose pass it holds. `WorkItem<K>` is an item for each `K`. Structs
//!   carry no bounds; impls do.
//! - **The runtime can make no box**: an item holds a stamp of a type that the runtime knows nothing of. So a body
//!   that calls a box of its own does not compile, and no wrong body can show it.
//! - **The session keeps graph and inputs outside the lock and compares them under it**, because a lock keeps only
//!   what its type says. A request and a look at a task compare them, and the seat's list with the journal, in their
//!   one section. A worker does so when it comes and when its work ends. In the sections between it compares only the
//!   length of the run, so that these cost no more for a larger graph or a longer list. If the comparison at the end
//!   failed, the worker would go as stray, with the list with which it came, so that nothing is claimed of the events
//!   between.
//! - **A watcher's cells promise nothing; the comparison at the close does.** It refuses to close with a watcher
//!   whose list is no beginning of the journal.
//! - **A cell that shows an event is one word.** The actor and the act of an event fit into 64 bits, so a cell is
//!   written and read in a single step. A `OnceLock` keeps an event as it is, but calls the system at each write, to
//!   wake those who wait for it. Nobody ever waits for a cell, and that call was half of what an event cost.
//! - **A worker keeps the lock while it goes on**, for at most 65 sections. All events are made under the one lock,
//!   so handing it on gains nothing before a worker has a job to call or has nothing to do. The limit is for those
//!   who wait: it takes some ten microseconds. It waits only where its first section says so. After one that did
//!   something it comes again, so that those who wait hear of that first.
//! - **What an event of a run costs is mostly the work under the one lock**, so several workers make no more events
//!   in a second than one: each time the lock is handed on, what lies under it moves from one processor's memory to
//!   another's. `cases/measure.py speed` measures it. These were tried and gained nothing that stood out: to wake as
//!   many workers as a section made jobs, to take the next job in the section that ends one, and to look for the lock
//!   a thousand times before sleeping for it. To compare no graph where a worker comes and goes, a lock would have to
//!   know of which session it is, which its type can't say.
//! - **`close` plays the journal once more** on a fresh machine, to test what was last reported to each seat, at its
//!   place; all else is compared in place.
//! - **A worker's synchronous continuations are taken first in, first out**, and before the queue: whenever it holds
//!   no task, a job that was kept for it comes first. A section under the lock ends by putting the jobs of ready
//!   tasks in declared order: a worker's first section and a request those of all that are ready and weren't put, a
//!   later section of a worker those that its own events made ready, which are the task of a release and the children
//!   of a task that made a step; all others have been put before it. If its events released tasks in another order,
//!   as when a step requests a token that ends several, the section looks at all tasks once. No clause speaks of the
//!   order; the cases show it. A worker's first section sweeps before anything else, so that a WhenAny task over
//!   tasks that had ended before the first event settles.
//! - **Items of a job that was never put** (a task dropped before, a child never started) are counted in `returned`.
//! - **A refused run names the worker also where memory ran out** (`RunWhy::Memory`), so that a clause can say which
//!   seats come back: those of all workers before it.
//! - **A close that misses something has a reason of its own, `Lost`.** No caller's contract knows what lies under a
//!   session's lock, so only the close finds a receipt that a stray worker dropped, by a test that comes first. Any
//!   other refusal gives back the journal, the receipts and the items, and says so. A close compares which actors
//!   were seated, and not only how many; a fault of a seat names the worker that it was for (`RunWhy::Seat`). The
//!   program writes `run: Mismatch` for both, since a report needs both alike.
#![tactic(auto)]

mod ask;
mod closing;
mod crew;
mod kit;
mod open;
mod put;
mod queue;
mod run;
mod sections;
mod session;
mod shared;
mod tables;
mod threads;
mod turn;
mod watch;

pub use closing::{CloseFault, CloseWhy, Report};
pub use open::OpenFault;
pub use run::{RunFault, RunWhy};
pub use session::Session;
pub use tpl_hall::{Asked, Ended, Hall, Looked, Seat, SeatFault, Sight, Watcher};
pub use tpl_items::{Item, OpenWhy};
