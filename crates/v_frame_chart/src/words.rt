//! The texts of a chart: the head of the file, the title, the names of the axes, and the legend.
ghost use Rattle.std.specs.Prelude.{◌≡◌, ◌++◌, OnOk, flat_map, string_bytes};
ghost use Rattle.std.specs.List.{enumerate_from};
ghost use Rattle.v_frame_chart.specs.Words.{closing, color_of as the_color, entry_of, frame_word, head_text, legend_of, name_end, opening, sample_of, text_end, text_head, text_of, title_of, unit_of};

use crate::drawing::Series;
use crate::labels::push_escaped;
use std::alloc::AllocError;

/// Appends the head of the file, the title and the names of the axes.
#[tactic(auto, using(crate::proofs::Appended::joins), unfolding(crate::specs::Words::head_text))]
pub(crate) fn push_head(text: &mut String, title: &str, unit: &str) -> Result<(), AllocError>
    ensures { OnOk result (string_bytes text.new
        ≡ string_bytes text.old ++ head_text title.now unit.now) }
{
    push_opening(text)?;
    push_title(text, title)?;
    push_unit(text, unit)?;
    push_frame_word(text)?;
    Ok(())
}

/// Appends the head of the file.
#[tactic(auto, unfolding(crate::specs::Words::opening))]
fn push_opening(text: &mut String) -> Result<(), AllocError>
    ensures { OnOk result (string_bytes text.new ≡ string_bytes text.old ++ opening) }
{
    text.push_str(
        "<svg xmlns=\"http://www.w3.org/2000/svg\" width=\"960\" height=\"200\" \
         viewBox=\"0 0 960 200\" font-family=\"sans-serif\" font-size=\"12\" \
         fill=\"#333333\">\n<rect width=\"960\" height=\"200\" fill=\"#ffffff\"/>\n",
    )
}

/// Appends the end of the file.
#[tactic(auto, unfolding(crate::specs::Words::closing))]
pub(crate) fn push_closing(text: &mut String) -> Result<(), AllocError>
    ensures { OnOk result (string_bytes text.new ≡ string_bytes text.old ++ closing) }
{
    text.push_str("</svg>\n")
}

/// Appends the title.
#[tactic(auto, unfolding(crate::specs::Words::title_of))]
fn push_title(text: &mut String, title: &str) -> Result<(), AllocError>
    ensures { OnOk result (string_bytes text.new ≡ string_bytes text.old ++ title_of title.now) }
{
    push_text(
        text,
        "x=\"76\" y=\"16\" font-size=\"14\" font-weight=\"bold\"",
        title,
    )
}

/// Appends the name of the axis of numbers.
#[tactic(auto, unfolding(crate::specs::Words::unit_of))]
fn push_unit(text: &mut String, unit: &str) -> Result<(), AllocError>
    ensures { OnOk result (string_bytes text.new ≡ string_bytes text.old ++ unit_of unit.now) }
{
    push_text(text, "x=\"68\" y=\"33\" text-anchor=\"end\"", unit)
}

/// Appends the name of the axis of frames.
#[tactic(auto, unfolding(crate::specs::Words::frame_word))]
fn push_frame_word(text: &mut String) -> Result<(), AllocError>
    ensures { OnOk result (string_bytes text.new ≡ string_bytes text.old ++ frame_word) }
{
    push_text(text, "x=\"500\" y=\"194\" text-anchor=\"middle\"", "frame")
}

/// Appends an SVG text element with these attributes. The text `words` is escaped, the attributes are not.
///
/// # Errors
///
/// Returns [`AllocError`] if there is not enough memory.
#[tactic(auto, using(crate::proofs::Appended::joins), unfolding(crate::specs::Words::text_of))]
pub fn push_text(text: &mut String, attributes: &str, words: &str) -> Result<(), AllocError>
    ensures { OnOk result (string_bytes text.new
        ≡ string_bytes text.old ++ text_of attributes.now words.now) }
{
    push_text_head(text, attributes)?;
    push_escaped(text, words)?;
    push_text_end(text)?;
    Ok(())
}

/// Appends the start tag of a text.
#[tactic(auto, unfolding(crate::specs::Words::text_head))]
fn push_text_head(text: &mut String, attributes: &str) -> Result<(), AllocError>
    ensures { OnOk result (string_bytes text.new
        ≡ string_bytes text.old ++ text_head attributes.now) }
{
    write!(text, "<text {attributes}>")
}

/// Appends the end tag of a text.
#[tactic(auto, unfolding(crate::specs::Words::text_end))]
pub(crate) fn push_text_end(text: &mut String) -> Result<(), AllocError>
    ensures { OnOk result (string_bytes text.new ≡ string_bytes text.old ++ text_end) }
{
    text.push_str("</text>\n")
}

/// Appends the legend.
#[tactic(auto, using(crate::proofs::Appended::joins), unfolding(crate::specs::Words::legend_of))]
pub(crate) fn push_legend(text: &mut String, series: &[Series<'_>]) -> Result<(), AllocError>
    ensures { OnOk result (string_bytes text.new ≡ string_bytes text.old ++ legend_of series.now) }
{
    push_text_head(text, "x=\"56\" y=\"33\"")?;
    push_entries(text, series)?;
    push_text_end(text)?;
    Ok(())
}

/// Appends each entry of the legend.
fn push_entries(text: &mut String, series: &[Series<'_>]) -> Result<(), AllocError>
    ensures { OnOk result (string_bytes text.new ≡ string_bytes text.old
        ++ flat_map entry_of (enumerate_from 0 series.now)) }
{
    for (k, one) in series.iter().enumerate() {
        push_entry(text, k, *one)?;
    }
    Ok(())
}

/// Appends a sample of a color and the name of its series.
#[tactic(auto, using(crate::proofs::Appended::joins), unfolding(crate::specs::Words::entry_of))]
fn push_entry(text: &mut String, k: usize, series: Series<'_>) -> Result<(), AllocError>
    ensures { OnOk result (string_bytes text.new
        ≡ string_bytes text.old ++ entry_of (k, series.entry)) }
{
    push_sample(text, color_of(k))?;
    push_escaped(text, series.name)?;
    push_name_end(text)?;
    Ok(())
}

/// Appends a sample of a color.
#[tactic(auto, unfolding(crate::specs::Words::sample_of))]
fn push_sample(text: &mut String, color: &str) -> Result<(), AllocError>
    ensures { OnOk result (string_bytes text.new ≡ string_bytes text.old ++ sample_of color.now) }
{
    write!(
        text,
        "<tspan dx=\"20\" font-size=\"18\" font-weight=\"bold\" fill=\"{color}\">&#8212;</tspan> <tspan>"
    )
}

/// Appends the end tag of a name.
#[tactic(auto, unfolding(crate::specs::Words::name_end))]
fn push_name_end(text: &mut String) -> Result<(), AllocError>
    ensures { OnOk result (string_bytes text.new ≡ string_bytes text.old ++ name_end) }
{
    text.push_str("</tspan>")
}

/// Returns the color of series `k`.
#[tactic(auto, unfolding(crate::specs::Words::color_of))]
pub(crate) fn color_of(k: usize) -> &'static str
    ensures { result.now ≡ the_color k }
{
    match k % 7 {
        0 => "#0072b2",
        1 => "#d55e00",
        2 => "#009e73",
        3 => "#cc79a7",
        4 => "#e69f00",
        5 => "#56b4e9",
        _ => "#000000",
    }
}
