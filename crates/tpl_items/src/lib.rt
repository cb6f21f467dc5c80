//! What a session runs: items, each the box of one work statement that is called once, and the receipts of their calls;
//! the test whether they are the items of a graph, and where they are until they are called; a bounded queue of jobs
//! that workers share with no lock, and the passes that they use it by; and the children that each task may start.
//!
//! A pass has no bytes. It shows contracts the tasks of the jobs that it put and took, and which
//! share of the queue's whole pass it is. The whole pass knows what the queue holds: each task as
//! often as it was put and not taken.
//!
//! ## Choices
//!
//! - **`Job` is generic in its items, not in the stamp of its items.** The toolchain refuses a method of a trait
//!   whose contract names the boxed closure at a type parameter (`unsupported-contract-type`); `WorkJob<K>` is the
//!   type that callers use.
//! - **A pass is a share of a queue**: parts out of two to the power of its halvings, so that `split` needs no
//!   condition and `join` adds the shares; the whole pass is the one with all parts.
//! - **"Full", "empty" and "a free place" are said of one moment of the call.** For a part of the pass the clauses
//!   say nothing of them, since nothing names what the others did; their force is at the whole pass. The whole pass
//!   at `drain` says that no job is lost. What the ring says of a push sees only the pass before, the item and the
//!   pass after, and not how many places there are. So each job lies in the ring with a witness of that number, which
//!   has no bytes. It comes from the table of the list that `drain` fills, which was told the number, at one load of
//!   a word that never changes.
//! - **The clauses of jobs name private fields**, as a boxed closure has no model.
//! - **`new` reserves the list that `drain` fills.** It lies in a table of one place, whose rule keeps it empty and
//!   large enough. The table has one word, since a witness of the number of places is made by a load.
//! - **Items that weren't called lie in a queue** of which the shorter side moves where one is taken out. They stay
//!   in their order, as the contract says. Mostly the first one is taken, and then nothing moves.
//! - **Jobs, their queue and the items that a session keeps are one crate**, `tpl_items`, of some fifty functions.
//!   The queue needs no graph, and stood in a crate of its own below the items. But each crate that takes jobs or
//!   receipts stands on graphs anyway, and so none has more to wait for.
//! - **Where only memory can be wanting, the error is `AllocError`**, the toolchain's own (`JobQueue::new`,
//!   `Session::watch`, `Fast::open`, `refute`, `explain`): a type of ours with the single case `Memory` would say no
//!   more. Where a call can fail otherwise too, `Memory` is one of the cases of its error.
#![tactic(auto)]

mod children;
mod counts;
mod differs;
mod item;
mod job;
mod pass;
mod queue;
mod receipt;
mod reserve;
mod rule;
mod stock;
mod strange;
mod why;
mod work_item;

pub use children::Children;
pub use counts::items_of;
pub use item::Item;
pub use job::{Job, WorkJob};
pub use pass::QueuePass;
pub use queue::JobQueue;
pub use receipt::Receipt;
pub use stock::{ItemJob, Stock};
pub use why::{OpenWhy, refusal};
pub use work_item::{Work, WorkItem};
