//! The source pixels that a target pixel covers.
ghost use Rattle.std.specs.Prelude.{◌≡◌, ◌+◌, ◌*◌, ◌^◌, ◌<◌, ◌≤◌};
ghost use Rattle.v_frame_resize.specs.Spans.{IsFirst, IsSpan};

/// The source pixels that one target pixel covers along one axis. Positions are counted in units: a source pixel has as many
/// units as the target has pixels, and a target pixel has as many units as the source has pixels.
///
/// The target pixel covers a part of the source pixel `first`, all pixels after it, and a part of the last pixel, `stop - 1`.
#[derive(Clone, Copy)]
pub struct Span {
    /// The position in units at which the target pixel ends.
    pub end: usize,
    pub first: usize,
    pub stop: usize,
    /// The number of units that it covers of the first source pixel.
    pub head: usize,
    /// The number of units that it covers of the last source pixel, which may be the first one.
    pub tail: usize,
}

/// Returns the source pixel in which target pixel `x` begins.
pub fn first_pixel(source: usize, target: usize, x: usize) -> usize
    requires some { 0 < source }
    requires within { x < target }
    requires countable { source * target < 2 ^ 64 }
    ensures { IsFirst source target x result }
{
    x * source / target
}

/// Returns the span of target pixel `x`, which begins in source pixel `first`.
#[inline(always)]
pub fn span_from(source: usize, target: usize, x: usize, first: usize) -> Span
    requires some { 0 < source }
    requires within { x < target }
    requires countable { source * target < 2 ^ 64 }
    requires first { IsFirst source target x first }
    ensures { IsSpan source target x result }
{
    let start = x * source;
    let end = start + source;
    let stop = (end - 1) / target + 1;
    Span {
        end,
        first,
        stop,
        head: (first * target + target).min(end) - start,
        tail: end - start.max((stop - 1) * target),
    }
}

/// Returns the source pixel in which the next target pixel begins.
#[inline(always)]
pub fn next_first(source: usize, target: usize, x: usize, span: Span) -> usize
    requires countable { source * target < 2 ^ 64 }
    requires span { IsSpan source target x span }
    ensures { IsFirst source target (x + 1) result }
{
    if span.stop * target == span.end {
        span.stop
    } else {
        span.stop - 1
    }
}
