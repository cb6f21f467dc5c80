//! What is true of tokens that are linked to others.

ghost use Rattle.tpl_laws.specs.Prelude.{QuietByALink, QuietWithSources, RequestedByASource, RequestedThroughSources, WithoutLinks};

/// A token is requested where it or, repeatedly, one of its sources was requested itself.
pub fn requested_through_sources()
    ensures { RequestedThroughSources }
{}

/// A token is requested where it was requested itself or one of its sources is requested.
pub fn requested_by_a_source()
    ensures { RequestedByASource }
{}

/// A token is quiet where it is, repeatedly, a source of one that is given as quiet.
pub fn quiet_with_sources()
    ensures { QuietWithSources }
{}

/// A token is quiet where it is given as quiet or is a source of a quiet one.
pub fn quiet_by_a_link()
    ensures { QuietByALink }
{}

/// Without links, a token is requested or quiet only by itself.
pub fn without_links()
    ensures { WithoutLinks }
{}
