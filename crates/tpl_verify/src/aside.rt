//! What is told beside the answer, for people. No answer depends on it.

use crate::Verdict;
use crate::finding::Found;
use crate::search::Search;
use std::alloc::{AllocError, Global};
use tpl_causes::{causes_of, told};
use tpl_commands::Listen;
use tpl_reader::Document;

/// Says how the search for a claim has ended.
pub(crate) fn tell_end<L: Listen>(
    alloc: Global,
    number: usize,
    verdict: &Verdict,
    listener: L,
) -> Result<(), AllocError> {
    let text = match verdict {
        Verdict::Holds { .. } => format!(in alloc; "claim {number}: it holds, by a certificate\n")?,
        Verdict::Fails(_) => format!(in alloc; "claim {number}: it fails in a run\n")?,
        Verdict::Unknown(tried) => {
            let (runs, most) = (tried.runs, tried.most());
            format!(in alloc; "claim {number}: it fails in none of {runs} random runs{most}\n")?
        }
    };
    listener.tells(text.as_str());
    Ok(())
}

/// Shows the run after whose last event the claim fails.
pub(crate) fn tell_run<L: Listen>(
    alloc: Global,
    number: usize,
    journal: &str,
    listener: L,
) -> Result<(), AllocError> {
    let text = match journal.strip_suffix("\n") {
        Some(events) => format!(in alloc; "{events} <- claim {number} fails here\n")?,
        None => format!(in alloc; "claim {number} fails before the first event\n")?,
    };
    listener.tells(text.as_str());
    Ok(())
}

/// Says how the run came to where the claim fails, where reasons are asked for.
pub(crate) fn tell_causes<L: Listen>(
    alloc: Global,
    search: Search,
    document: &Document,
    found: &Found,
    listener: L,
) -> Result<(), AllocError> {
    let claim = document.claims.get(found.number.saturating_sub(1));
    match claim {
        Some(claim) if search.explain => {
            let (graph, run) = (&document.graph, &found.run);
            let causes = causes_of(alloc, graph, claim, &run.inputs, &run.events)?;
            listener.tells(told(alloc, "line", &causes)?.as_str());
            Ok(())
        }
        _ => Ok(()),
    }
}

/// Says how many claims there are, where the one that is asked for isn't there.
pub(crate) fn tell_missing<L: Listen>(
    alloc: Global,
    number: usize,
    count: usize,
    listener: L,
) -> Result<(), AllocError> {
    let text = match count {
        0 => format!(in alloc; "claim {number}: the document has no claim\n")?,
        1 => format!(in alloc; "claim {number}: the document has 1 claim\n")?,
        _ => format!(in alloc; "claim {number}: the document has {count} claims\n")?,
    };
    listener.tells(text.as_str());
    Ok(())
}
