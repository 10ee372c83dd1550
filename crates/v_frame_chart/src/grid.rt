//! The grid: a line and a label for each mark of the axis of numbers.
ghost use Rattle.std.specs.Prelude.{◌≡◌, ◌++◌, ◌≤◌, OnOk, string_bytes};
ghost use Rattle.v_frame_chart.specs.Scales.{grid_line, grid_text, line_head};

use crate::decimals::push_label;
use crate::places::Place;
use crate::scale::Scale;
use crate::words::push_text_end;
use std::alloc::AllocError;

/// Appends a line of the grid for each mark of the axis of numbers, and its label.
#[tactic(auto, unfolding(crate::specs::Scales::grid_text))]
pub(crate) fn push_grid(text: &mut String, scale: &Scale) -> Result<(), AllocError>
    ensures { OnOk result (string_bytes text.new ≡ string_bytes text.old ++ grid_text scale.now) }
{
    for k in 0..scale.count + 1 {
        push_grid_line(text, scale, k)?;
    }
    Ok(())
}

/// Appends a line of the grid and its label.
#[tactic(auto, using(crate::proofs::Appended::joins), unfolding(crate::specs::Scales::grid_line))]
fn push_grid_line(text: &mut String, scale: &Scale, k: u32) -> Result<(), AllocError>
    requires { k ≤ scale.now.count }
    ensures { OnOk result (string_bytes text.new ≡ string_bytes text.old ++ grid_line scale.now k) }
{
    let y = Place::nearest(scale.axis().place(scale.value(k)));
    push_line_head(text, y)?;
    push_label(text, scale.number(k), scale.power)?;
    push_text_end(text)?;
    Ok(())
}

/// Appends a line of the grid, and the start tag of its label.
#[tactic(auto, unfolding(crate::specs::Scales::line_head))]
fn push_line_head(text: &mut String, y: Place) -> Result<(), AllocError>
    ensures { OnOk result (string_bytes text.new ≡ string_bytes text.old ++ line_head y.tenths) }
{
    write!(
        text,
        "<path d=\"M76 {y}H924\" stroke=\"#dddddd\"/>\n\
         <text x=\"68\" y=\"{y}\" dy=\"4\" text-anchor=\"end\">"
    )
}
