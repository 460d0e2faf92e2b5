//! What the longest stretches of a set come to.
ghost use Rattle.time_sets.specs.Spans.{SpansCover};

/// Each time of a domain lies in one of the longest stretches of a set of it.
pub fn spans_cover()
    ensures { SpansCover }
{}
