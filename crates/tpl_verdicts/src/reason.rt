//! Why a claim that holds says nothing, in a line.

ghost use Rattle.std.specs.Prelude.{◌≡◌, IfOk, string_bytes};
ghost use Rattle.tpl_graph.specs.Prelude.{Fits};
ghost use Rattle.tpl_verdicts.specs.Prelude.{why_line};
ghost use Rattle.tpl_verify.specs.Prelude.{IsEmpty};

use std::alloc::{AllocError, Global};
use tpl_graph::{Claim, Graph};
use tpl_shown::name_of;
use tpl_verify::Empty;

/// The line that tells why a claim is empty.
pub(crate) fn why_line(
    alloc: Global,
    graph: &Graph,
    claim: &Claim,
    why: Empty,
) -> Result<String, AllocError>
    requires fits { Fits graph.now.graph claim.now }
    requires empty { IsEmpty graph.now.graph claim.now why }
    ensures { IfOk result (λ line. string_bytes line ≡ why_line graph.now.names why) }
{
    let _ = claim;
    match why {
        Empty::NeverBegins(task) => {
            let name = name_of(graph, task);
            format!(in alloc; "{name} never begins\n")
        }
        Empty::NamesAllEnds => String::from_str(alloc, "it names each way to end\n"),
        Empty::NamesGivenEnds => {
            String::from_str(alloc, "it names each way to end that is given\n")
        }
        Empty::NeverThrows => {
            String::from_str(alloc, "there is never an exception to observe\n")
        }
        Empty::NeverEndsSo(task) => {
            let name = name_of(graph, task);
            format!(in alloc; "{name} never ends in a way that is given\n")
        }
        Empty::NeverEnds(task) => {
            let name = name_of(graph, task);
            format!(in alloc; "{name} never ends\n")
        }
        Empty::NeverKept => String::from_str(alloc, "no complete run keeps what is given\n"),
    }
}
