//! Values that are found one by one, by threads beside each other, and told in order, each as soon as it is found and those
//! before it are told, from a function to a writer.
//!
//! ## Choices
//!
//! - **A value goes to the thread that writes through a ring of its own**, whose protocol says what is known of the value:
//!   so what is told is what was found, and it is told while other values are still sought.
//! - **Who writes has a thread beside those that seek.** Where none can be made for it, it writes behind them. So no number
//!   of threads that are refused keeps a value from being told.
//! - **Once telling has ended, no more is sought** than what was begun.
//! - **A value is let go once it is told**: what is kept of it may be a word, however large it is.
#![tactic(auto)]

mod beside;
mod known;
mod ring;
mod stop;
mod tell;
mod telling;

pub use beside::tell_in_order;
pub use stop::Stop;
pub use tell::Tell;
