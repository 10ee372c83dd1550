//! The drawing of a series: its band, the line through its means, and its dots.
ghost use Rattle.std.specs.Prelude.{◌≡◌, ◌++◌, ◌<◌, [], OnOk, flat_map, if◌then◌else◌, is_some, length, string_bytes};
ghost use Rattle.std.specs.List.{range_with_len};
ghost use Rattle.v_frame_chart.specs.Lines.{band_head, band_text, circle_of, dot_part, dots_text, drawn_text, is_joined as the_joined, mark_after, mark_before, mean_at, mean_part, means_head, means_text, path_end, stroke_of};

use crate::marks::Mark;
use crate::places::Place;
use std::alloc::AllocError;

/// Appends a series: a band if columns have more than one value, a line through the means, and dots.
#[tactic(auto, using(crate::proofs::Appended::joins), unfolding(crate::specs::Lines::drawn_text))]
pub(crate) fn push_drawn(
    text: &mut String,
    drawn: &[Option<Mark>],
    banded: bool,
    color: &str,
) -> Result<(), AllocError>
    ensures { OnOk result (string_bytes text.new
        ≡ string_bytes text.old ++ drawn_text drawn.now banded color.now) }
{
    push_band_if(text, drawn, banded, color)?;
    push_means(text, drawn, color)?;
    push_dots(text, drawn, color)?;
    Ok(())
}

/// Appends a band, if `banded` is true.
fn push_band_if(
    text: &mut String,
    drawn: &[Option<Mark>],
    banded: bool,
    color: &str,
) -> Result<(), AllocError>
    ensures { OnOk result (string_bytes text.new
        ≡ string_bytes text.old ++ (if banded then band_text drawn.now color.now else [])) }
{
    if banded {
        push_band(text, drawn, color)
    } else {
        Ok(())
    }
}

/// Appends a stroke from the least to the greatest value of each column.
#[tactic(auto, using(crate::proofs::Appended::joins), unfolding(crate::specs::Lines::band_text))]
fn push_band(text: &mut String, drawn: &[Option<Mark>], color: &str) -> Result<(), AllocError>
    ensures { OnOk result (string_bytes text.new
        ≡ string_bytes text.old ++ band_text drawn.now color.now) }
{
    push_band_head(text, color)?;
    push_strokes(text, drawn)?;
    push_path_end(text)?;
    Ok(())
}

/// Appends the head of a band.
#[tactic(auto, unfolding(crate::specs::Lines::band_head))]
fn push_band_head(text: &mut String, color: &str) -> Result<(), AllocError>
    ensures { OnOk result (string_bytes text.new ≡ string_bytes text.old ++ band_head color.now) }
{
    write!(
        text,
        "<path fill=\"none\" stroke=\"{color}\" stroke-opacity=\"0.3\" d=\""
    )
}

/// Appends a stroke for each column.
fn push_strokes(text: &mut String, drawn: &[Option<Mark>]) -> Result<(), AllocError>
    ensures { OnOk result (string_bytes text.new
        ≡ string_bytes text.old ++ flat_map stroke_of drawn.now) }
{
    for mark in drawn {
        push_stroke(text, *mark)?;
    }
    Ok(())
}

/// Appends a stroke from the least to the greatest value of a column.
fn push_stroke(text: &mut String, mark: Option<Mark>) -> Result<(), AllocError>
    ensures { OnOk result (string_bytes text.new ≡ string_bytes text.old ++ stroke_of mark) }
{
    match mark {
        Some(mark) => {
            let (x, least, most) = (
                Place::nearest(mark.x),
                Place::nearest(mark.least),
                Place::nearest(mark.most),
            );
            write!(text, "M{x} {least}V{most}")
        }
        None => Ok(()),
    }
}

/// Appends the end of a path.
pub(crate) fn push_path_end(text: &mut String) -> Result<(), AllocError>
    ensures { OnOk result (string_bytes text.new ≡ string_bytes text.old ++ path_end) }
{
    text.push_str("\"/>\n")
}

/// Appends the line through the means. After a gap, a new line begins.
#[tactic(auto, using(crate::proofs::Appended::joins), unfolding(crate::specs::Lines::means_text))]
fn push_means(text: &mut String, drawn: &[Option<Mark>], color: &str) -> Result<(), AllocError>
    ensures { OnOk result (string_bytes text.new
        ≡ string_bytes text.old ++ means_text drawn.now color.now) }
{
    push_means_head(text, color)?;
    push_each_mean(text, drawn)?;
    push_path_end(text)?;
    Ok(())
}

/// Appends the head of the line through the means.
#[tactic(auto, unfolding(crate::specs::Lines::means_head))]
fn push_means_head(text: &mut String, color: &str) -> Result<(), AllocError>
    ensures { OnOk result (string_bytes text.new ≡ string_bytes text.old ++ means_head color.now) }
{
    write!(
        text,
        "<path fill=\"none\" stroke=\"{color}\" stroke-width=\"1.5\" \
         stroke-linecap=\"round\" stroke-linejoin=\"round\" d=\""
    )
}

/// Appends the mean of each column.
fn push_each_mean(text: &mut String, drawn: &[Option<Mark>]) -> Result<(), AllocError>
    ensures { OnOk result (string_bytes text.new ≡ string_bytes text.old
        ++ flat_map (mean_at drawn.now) (range_with_len 0 (length drawn.now))) }
{
    for k in 0..drawn.len() {
        push_mean(text, drawn[k], has_before(drawn, k))?;
    }
    Ok(())
}

/// Appends a mean: a line from the mean before it if `joined` is true, and otherwise the start of a line.
fn push_mean(text: &mut String, mark: Option<Mark>, joined: bool) -> Result<(), AllocError>
    ensures { OnOk result (string_bytes text.new ≡ string_bytes text.old ++ mean_part mark joined) }
{
    match mark {
        Some(mark) => {
            let letter = if joined { 'L' } else { 'M' };
            let (x, mean) = (Place::nearest(mark.x), Place::nearest(mark.mean));
            write!(text, "{letter}{x} {mean}")
        }
        None => Ok(()),
    }
}

/// Appends a dot for each column between two gaps, because the line has no length there.
#[tactic(auto, unfolding(crate::specs::Lines::dots_text))]
fn push_dots(text: &mut String, drawn: &[Option<Mark>], color: &str) -> Result<(), AllocError>
    ensures { OnOk result (string_bytes text.new
        ≡ string_bytes text.old ++ dots_text drawn.now color.now) }
{
    for k in 0..drawn.len() {
        push_dot(text, drawn[k], is_joined(drawn, k), color)?;
    }
    Ok(())
}

/// Appends a dot, if no line leads to the mark.
fn push_dot(
    text: &mut String,
    mark: Option<Mark>,
    joined: bool,
    color: &str,
) -> Result<(), AllocError>
    ensures { OnOk result (string_bytes text.new
        ≡ string_bytes text.old ++ dot_part mark joined color.now) }
{
    match mark {
        Some(mark) => {
            if joined {
                Ok(())
            } else {
                push_circle(text, mark, color)
            }
        }
        None => Ok(()),
    }
}

/// Appends a dot.
#[tactic(auto, unfolding(crate::specs::Lines::circle_of))]
fn push_circle(text: &mut String, mark: Mark, color: &str) -> Result<(), AllocError>
    ensures { OnOk result (string_bytes text.new
        ≡ string_bytes text.old ++ circle_of mark color.now) }
{
    let (x, mean) = (Place::nearest(mark.x), Place::nearest(mark.mean));
    write!(
        text,
        "<circle cx=\"{x}\" cy=\"{mean}\" r=\"2\" fill=\"{color}\"/>\n"
    )
}

/// Returns whether the column before or after column `k` has a value.
fn is_joined(drawn: &[Option<Mark>], k: usize) -> bool
    requires { k < length drawn.now }
    ensures { result ≡ the_joined drawn.now k }
{
    has_before(drawn, k) || has_after(drawn, k)
}

/// Returns whether the column before column `k` has a value.
fn has_before(drawn: &[Option<Mark>], k: usize) -> bool
    requires { k < length drawn.now }
    ensures { result ≡ is_some (mark_before drawn.now k) }
{
    k > 0 && drawn[k - 1].is_some()
}

/// Returns whether the column after column `k` has a value.
fn has_after(drawn: &[Option<Mark>], k: usize) -> bool
    requires { k < length drawn.now }
    ensures { result ≡ is_some (mark_after drawn.now k) }
{
    k + 1 < drawn.len() && drawn[k + 1].is_some()
}
