//! The run that lies under a session's lock, with its receipts; the seats of those who take part in it; and those who
//! watch it with no lock.
#![tactic(auto)]

mod board;
mod bound;
mod checks;
mod hall;
mod looks;
mod own;
mod receipts;
mod seat;
mod sight;
mod sights;
mod stint;
mod watcher;
mod words;

pub use board::{Cells, cells};
pub use checks::has_seat;
pub use hall::Hall;
pub use own::{are_own, are_seated, have_seats};
pub use receipts::receipts_of;
pub use seat::{Seat, SeatFault};
pub use sight::{Asked, Ended, Looked, Sight};
pub use sights::all_last;
pub use stint::Stint;
pub use watcher::{Watcher, all_begin};
