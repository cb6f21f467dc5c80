//! Tokens that are linked to others.

ghost use Rattle.tpl_examples.specs.Links.{LinkIsRequestedThroughASource, LinkIsNotRequestedAgain, LinkLeavesItsSourcesAlone, SourceCancelsTheTask, QuietLinkHasQuietSources, LinkOfALink, LinkInTheMiddle, CancelOfASourceOfAQuietLink};

/// A check of a link whose source is requested acknowledges the cancellation.
pub fn link_is_requested_through_a_source()
    ensures { LinkIsRequestedThroughASource }
{}

/// A link whose source is requested isn't requested again; the other source may be.
pub fn link_is_not_requested_again()
    ensures { LinkIsNotRequestedAgain }
{}

/// A link that is requested itself leaves its sources alone, and its task is canceled.
pub fn link_leaves_its_sources_alone()
    ensures { LinkLeavesItsSourcesAlone }
{}

/// A task whose token is a link doesn't begin where the second source is requested, and is canceled.
pub fn source_cancels_the_task()
    ensures { SourceCancelsTheTask }
{}

/// A claim about runs in which a link is quiet doesn't speak of one in which a source is requested.
pub fn quiet_link_has_quiet_sources()
    ensures { QuietLinkHasQuietSources }
{}

/// A cancel statement of a source is one of each link of its links; a check of one that is not the own throws.
pub fn link_of_a_link()
    ensures { LinkOfALink }
{}

/// A link in the middle requests those linked to it, and not its source.
pub fn link_in_the_middle()
    ensures { LinkInTheMiddle }
{}

/// A body that cancels a source ends the runs in which the link is quiet, so a claim about these says nothing of what
/// it does then.
pub fn cancel_of_a_source_of_a_quiet_link()
    ensures { CancelOfASourceOfAQuietLink }
{}
