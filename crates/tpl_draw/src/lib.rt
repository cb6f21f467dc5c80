//! Pictures of task graphs, in Mermaid and in Graphviz' DOT, coloured by how tasks may end, or stand in a run.
//!
//! ## Choices
//!
//! - **A picture is made in two steps**: the edges of the graph as a list, then a line for each. So the definitions
//!   say once which edges there are, whatever the language. Nodes are named by their tasks and tokens and not by
//!   numbers, so that a line can be read.
//! - **A picture has an edge for each statement that starts a child or requests a token**, also where two say the
//!   same. One edge for each pair would need a look back over the list.
//! - **A picture shows the rows of a leaf that leaves them out.** `analyse` writes such leaves in version 3, so
//!   without their rows the picture of what it wrote would rule nothing out. `draw` works them out leaf by leaf, as
//!   the check did before, and keeps of each leaf only how the tasks end.
#![tactic(auto)]

mod draw;
mod edge;
mod edges;
mod ending;
mod language;
mod legend;
mod lines;
mod marks;
mod showing;
mod shown;
mod token_ending;

pub use draw::picture;
pub use ending::{endings_are_true, endings_by};
pub use language::Language;
pub use shown::{Failing, Moment, Shown};
