//! The stretches of showings, each once.

ghost use Rattle.std.specs.Prelude.{◌≡◌, ◌||◌, OnOk};
ghost use Rattle.std.specs.Ordering.{eq_by_cmp};
ghost use Rattle.ft_windows.specs.Showings.{span_cmp, span_of};
ghost use Rattle.ft_windows.specs.Telling.{has_span};
ghost use Rattle.ft_windows.specs.declared.spans.Span.{Span};

use ft_dispatch::Showing;
use ft_maps::{entries, put};
use std::alloc::AllocError;
use std::collections::BTreeMap;

/// A stretch of time, by stamps. They are ordered by their beginnings, then by their ends.
#[derive(Clone, Copy, PartialEq, Eq, PartialOrd, Ord)]
pub(crate) struct Span {
    /// The stamp at which it begins.
    pub(crate) from: u64,
    /// The stamp at which it ends.
    pub(crate) at: u64,
}

/// Stretches, in order, each once.
pub(crate) type SpanSet = BTreeMap<Span, ()>;

/// Adds the stretch of a showing.
pub(crate) fn add_span(spans: &mut SpanSet, showing: Showing) -> Result<(), AllocError>
    ensures { OnOk result ((span : Span) → has_span spans.new span ≡ (eq_by_cmp span_cmp span (span_of showing) || has_span spans.old span)) }
{
    let (from, at) = (showing.from, showing.at);
    put(spans, Span { from, at }, ())?;
    Ok(())
}

/// Adds the stretches of a part.
pub(crate) fn add_spans(spans: &mut SpanSet, part: &SpanSet) -> Result<(), AllocError>
    ensures { OnOk result ((span : Span) → has_span spans.new span ≡ (has_span spans.old span || has_span part.now span)) }
{
    for (span, _mark) in entries(part) {
        put(spans, *span, ())?;
    }
    Ok(())
}
