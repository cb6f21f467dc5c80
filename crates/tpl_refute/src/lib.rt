//! The search for runs of a graph in which a claim about it fails.
//!
//! ## Choices
//!
//! - **Runs by random weights and by random priorities take turns.** By weights (each 1 to 1,024, and as likely to be
//!   small as large) many tasks are much slower than others; by priorities, of which up to four drop, a run is one of
//!   few changes of turn (probabilistic concurrency testing). In half of the runs a rule for the kind of claim puts
//!   the named tasks last or first, or fixes the answers of their jobs.
//! - **A task has one next act at most**, so what is chosen is a task, or a token that may be requested. A task that
//!   was found to have nothing to do is left aside until the end of a task, a started child or a requested token may
//!   have changed that.
//! - **The bodies of each worker nest in a run that is searched**, since those of a thread do. A begin is done by a
//!   free worker, or by the one to whom it is bound, if that is free or in the body in which it ended the antecedent.
//!   A body goes on only while it is the innermost one. In half of the runs an act that waits for nobody is done by
//!   whoever acted last, inside a body too, in the others by a free worker. What waits for a worker is tried again
//!   once one has left a body.
//! - **A run is made smaller by playing its acts again, changed.** What isn't allowed any more is passed over, so leaving
//!   out a task leaves out what depends on it. Where a job that failed is done, or a task is dropped that was begun, what
//!   depends on it goes on in another way, so the run is played out then; and so it is of a claim about complete runs.
//!   Each change is kept that makes the run smaller. What counts most are jobs that fail and requests: they are what a
//!   reader has to understand.
//! - **What a run needs is told from its graph, and not found out by playing.** A task that begins needs what released it, and
//!   so the end of what it continues, with all that was done for that. So of a run of hundreds of tasks no change is played
//!   that leaves out what the claim can't fail without. What is told is less than what is needed: tokens and WhenAny tasks
//!   are looked at by playing alone, and so is all of a claim about complete runs.
//! - **The first run that fails is seldom the smallest one**, since many things go wrong in most random runs. So calm runs
//!   are tried once one is found: no failure, then a request of each token at once, then one cause drawn by chance. None is
//!   tried where nothing of the first one can be left out and no token, input or failure could spare it something. The
//!   smallest one is put in order and judged.
//! - **What a search plays is counted in events**, and what is dear beside them as so many; seconds would give
//!   another answer on another machine. Making a run smaller, the calm runs, and putting in order have budgets of their
//!   own, so that a long run costs no more than some tenths of a second.
#![tactic(auto)]

mod acting;
mod awake;
mod bodies;
mod budget;
mod change;
mod counterexample;
mod crew;
mod dice;
mod improving;
mod judging;
mod kept;
mod links;
mod needed;
mod plan;
mod refuting;
mod replay;
mod seen;
mod shortening;
mod size;
mod tidying;
mod walk;
mod weights;

pub use bodies::first_crossing;
pub use counterexample::Counterexample;
pub use refuting::{Effort, Sought, refute};
pub use seen::Seen;
