//! Laws: facts that callers may rely on beyond a single call.
//!
//! Each function makes the calls that its law is about, and its contract states the law. A law that is only about definitions
//! has an empty body. Not part of `v_frame` 0.7.0.
ghost use Rattle.std.specs.Prelude.{◌≡◌, List, Err, IfOk, OnOk, IsOkUnless, MatchOption};
ghost use Rattle.v_frame_raster.specs.Pixel.{byte_list};
ghost use Rattle.v_frame.specs.Build.{IsZeroEverywhere, refusal_of};
ghost use Rattle.v_frame.specs.Frame.{tables_of, KeepsBorders};
ghost use Rattle.v_frame_raster.specs.Raster.{table_of};
ghost use Rattle.v_frame_raster.specs.Table.{row_major};
ghost use Rattle.v_frame.specs.declared.replay.draw.Side.{Side};
ghost use Rattle.v_frame.specs.Walk.{draws_answer, AreCounted, AreDrawnOnce};
ghost use Rattle.v_frame.specs.Replay.{answers_to, tables_after};

mod byte_paths;
mod equality;
mod iterations;
mod writing_iterators;

use crate::frame::{Frame, FrameBuilder, FrameError};
use crate::pixel::Pixel;
use crate::plane::Plane;
use crate::replay::walk::draw_items;
use crate::replay::{Answer, Drawn, Side, VisibleCall, replay};
use crate::sequence::Sequence;
pub use byte_paths::bytes_go_through_a_frame;
pub use equality::frames_are_equal;
pub use iterations::full_iterations_change_each_pixel;
use std::alloc::{AllocError, Global};
pub use v_frame_plane::laws::{
    buffer_is_determined, bytes_come_back, bytes_come_back_without_tails,
    dropped_pixels_keep_their_values, dropped_rows_keep_their_pixels, held_items_make_the_table,
    held_rows_are_the_table, packed_copies_agree, packed_outcomes_agree, pixels_have_places,
    places_have_marks, places_hold_pixels, planes_are_equal, rows_are_parts,
    same_entries_same_table, tables_are_rectangles,
};
pub use v_frame_raster::laws::{
    chroma_sizes_agree, depths_fit, geometries_are_equal, halves_join, lists_agree_by_items,
    lists_are_written, lists_are_written_in_place, pixel_of_bytes, pixel_of_value,
    pixels_are_equal, pixels_compare, pixels_hash, quotients_are_exact, rows_follow, sums_add_up,
    sums_of_pairs_add_up, tables_agree_by_rows,
};
pub use writing_iterators::{
    lent_pixels_are_drawn_once, lent_pixels_hold_what_is_written, lent_rows_are_drawn_once,
    lent_rows_hold_what_is_written,
};

/// If two frames show the same tables, every list of calls returns equal results for both, and both show the same tables
/// afterwards.
///
/// The error means that memory could not be allocated. Each frame keeps its own border, even after an error.
pub fn same_tables_same_answers<T: Pixel>(
    alloc: Global,
    a: &mut Frame<T>,
    b: &mut Frame<T>,
    calls: &[VisibleCall<T>],
) -> Result<(Vec<Answer<T>>, Vec<Answer<T>>), AllocError>
    requires { tables_of a.old ≡ tables_of b.old }
    ensures answers { IfOk result (λ both.
        both.0.items ≡ answers_to T.form calls.now (tables_of a.old)) }
    ensures same_answers { IfOk result (λ both. both.0.items ≡ both.1.items) }
    ensures tables { OnOk result
        (tables_of a.new ≡ tables_after T.form calls.now (tables_of a.old)) }
    ensures shown { OnOk result (tables_of a.new ≡ tables_of b.new) }
    ensures borders { KeepsBorders a.old a.new × KeepsBorders b.old b.new }
{
    let first = replayed(alloc, a, calls)?;
    let second = replayed(alloc, b, calls)?;
    Ok((first, second))
}

/// Replays `calls`. If memory cannot be allocated, the results so far are dropped.
fn replayed<T: Pixel>(
    alloc: Global,
    frame: &mut Frame<T>,
    calls: &[VisibleCall<T>],
) -> Result<Vec<Answer<T>>, AllocError>
    ensures answers { IfOk result (λ answers.
        answers.items ≡ answers_to T.form calls.now (tables_of frame.old)) }
    ensures tables { OnOk result
        (tables_of frame.new ≡ tables_after T.form calls.now (tables_of frame.old)) }
    ensures border { KeepsBorders frame.old frame.new }
{
    replay(alloc, frame, calls).map_err(|_| AllocError)
}

/// A frame that can be built is zero everywhere. Its chroma planes have the size that the format specifies, or are absent.
pub fn built_frame_is_zero<T: Pixel>(
    alloc: Global,
    builder: FrameBuilder,
) -> Result<Frame<T>, FrameError>
    ensures refused { MatchOption (refusal_of T.BYTES builder)
        (IsOkUnless result FrameError.OutOfMemory) (λ e. result ≡ Err e) }
    ensures zero { IfOk result (IsZeroEverywhere T.ZERO builder) }
{
    builder.build(alloc)
}

/// In any series of `next` and `next_back` calls, each call yields the first or the last of the remaining items. A description
/// by the number of calls so far gives the same items.
pub fn draws_are_counted<T>()
    ensures { AreCounted T }
{}

/// Any series of `next` and `next_back` calls yields each item once. The items from the front, the remaining items and the
/// items from the back, joined in this order, are all items.
pub fn items_are_drawn_once<T>()
    ensures { (items : List T) (sides : List Side)
        → AreDrawnOnce items sides (draws_answer items sides) }
{}

/// Any series of `next` and `next_back` calls on `Plane::rows` yields each row of the plane once. The rows are copied, and the
/// error means that memory could not be allocated.
pub fn rows_are_drawn_once<T: Pixel>(
    alloc: Global,
    plane: &Plane<T>,
    sides: &[Side],
) -> Result<Vec<Drawn<Sequence<T>>>, AllocError>
    ensures counted { IfOk result (λ drawn.
        drawn.items ≡ draws_answer (table_of plane.now) sides.now) }
    ensures once { IfOk result (λ drawn. AreDrawnOnce (table_of plane.now) sides.now drawn.items) }
{
    draw_items(alloc, &mut plane.rows(), sides)
}

/// Any series of `next` and `next_back` calls on `Plane::pixels` yields each pixel of the plane once. The error means that
/// memory could not be allocated.
pub fn pixels_are_drawn_once<T: Pixel>(
    alloc: Global,
    plane: &Plane<T>,
    sides: &[Side],
) -> Result<Vec<Drawn<T>>, AllocError>
    ensures counted { let pixels = row_major (table_of plane.now) in IfOk result (λ drawn.
        drawn.items ≡ draws_answer pixels sides.now) }
    ensures once { IfOk result (λ drawn.
        AreDrawnOnce (row_major (table_of plane.now)) sides.now drawn.items) }
{
    draw_items(alloc, &mut plane.pixels(), sides)
}

/// Any series of `next` and `next_back` calls on `Plane::byte_data` yields each byte of the plane once. The error means that
/// memory could not be allocated.
pub fn bytes_are_drawn_once<T: Pixel>(
    alloc: Global,
    plane: &Plane<T>,
    sides: &[Side],
) -> Result<Vec<Drawn<u8>>, AllocError>
    ensures counted { let bytes = byte_list T.form (table_of plane.now) in
        IfOk result (λ drawn. drawn.items ≡ draws_answer bytes sides.now) }
    ensures once { IfOk result (λ drawn.
        AreDrawnOnce (byte_list T.form (table_of plane.now)) sides.now drawn.items) }
{
    draw_items(alloc, &mut plane.byte_data(), sides)
}
