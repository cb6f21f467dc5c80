//! The run of a journal for a viewer, in the Trace Event Format.
#![tactic(auto)]

mod answering;
mod arrows;
mod bodies;
mod entries;
mod marks;
mod moment;
mod run;
mod text;
mod tracks;

pub use answering::trace_document;
