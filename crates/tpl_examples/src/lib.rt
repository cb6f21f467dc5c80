//! Worked runs of small task graphs, and worked certificates: which are accepted, and at which place the others are
//! refused. Each function's contract is one of them, proved by computing what the definitions say.
//!
//! ## Choices
//!
//! - **Worked runs are told as stories**: a graph with its inputs, and then what happens, event by event, with what
//!   is true in between (`tpl_examples`, `Stories`). One table says what each word of a story means by the
//!   definitions. Before, each example named its events, its run and each beginning of it, and asked one thing after
//!   another of them; so most of a page was names, and the same beginnings stood on page after page. A story says too
//!   that its graph is valid. The prover computes it, as before.
#![tactic(auto, using(crate::proofs::Computed::valid, crate::proofs::Computed::invalid, crate::proofs::Computed::story))]

pub mod bodies;
pub mod both_rules;
pub mod cancellation;
pub mod certificates;
pub mod children;
pub mod claims;
pub mod combinators;
pub mod continuations;
pub mod journals;
pub mod least_rows;
pub mod links;
pub mod many_tasks;
pub mod row_rules;
pub mod token_rules;
pub mod valid_graphs;
pub mod winner_rules;
