//! The color range that a header declares, and differences between two headers.
ghost use Rattle.std.specs.Prelude.{◌≡◌, not};
ghost use Rattle.std.specs.List.{list_any};
ghost use Rattle.std.specs.Str.{bytes_eq};
ghost use Rattle.yuv_system.specs.Headers.{declared_range as range_declared, matrix_of, used_range as range_used, other_ratio as ratios_apart, other_siting as sitings_apart, other_range as ranges_apart, differences_of};

use std::{fmt, io};
use v_frame::chroma::ChromaSubsampling;
use v_frame_rgb::{ColorRange, Standard};
use v_frame_streams::Problem;
use v_frame_y4m::{ChromaSiting, Ratio, StreamHeader};
use yuv_files::{shown_name, write_message};

/// The greatest height in rows at which a picture is assumed to have the colors of BT.601.
const ROWS_OF_BT601: usize = 576;

/// Returns the color range that a header declares by one of ffmpeg's extensions `XCOLORRANGE=FULL` and `XCOLORRANGE=LIMITED`, or
/// `None` if it has neither or both.
pub fn declared_range(header: &StreamHeader) -> Option<ColorRange>
    ensures { result ≡ range_declared header.now.extensions }
{
    match (
        lacks_extension(header, b"COLORRANGE=FULL"),
        lacks_extension(header, b"COLORRANGE=LIMITED"),
    ) {
        (false, true) => Some(ColorRange::Full),
        (true, false) => Some(ColorRange::Limited),
        _ => None,
    }
}

/// Returns whether no extension of a header has this text.
fn lacks_extension(header: &StreamHeader, text: &[u8]) -> bool
    ensures { result ≡ not (list_any (bytes_eq text.now) header.now.extensions) }
{
    for extension in header.extensions.as_slice() {
        if text == extension.as_slice() {
            return false;
        }
    }
    true
}

/// Returns the color range that a command uses: `asked`, the value of an option, if it is given; otherwise the range that the
/// header declares, and the limited range if it declares none.
pub fn used_range(asked: Option<ColorRange>, header: &StreamHeader) -> ColorRange
    ensures { result ≡ range_used asked header.now }
{
    match (asked, declared_range(header)) {
        (Some(range), _) => range,
        (None, Some(range)) => range,
        (None, None) => ColorRange::Limited,
    }
}

/// Returns the color standard that a command uses: `asked`, the value of an option, if it is given; otherwise BT.601 for pictures
/// of at most 576 rows, which are standard definition, and BT.709 for higher ones. Players make the same choice if nothing
/// declares a standard.
pub fn used_matrix(asked: Option<Standard>, header: &StreamHeader) -> Standard
    ensures { result ≡ matrix_of asked header.now }
{
    match asked {
        Some(standard) => standard,
        None if header.height <= ROWS_OF_BT601 => Standard::Bt601,
        None => Standard::Bt709,
    }
}

/// Returns the name of a color range, as the option `--range` takes it.
pub fn range_name(range: ColorRange) -> &'static str {
    match range {
        ColorRange::Limited => "limited",
        ColorRange::Full => "full",
    }
}

/// Returns the name of a color standard, as the option `--matrix` takes it.
pub fn matrix_name(standard: Standard) -> &'static str {
    match standard {
        Standard::Bt601 => "bt601",
        Standard::Bt709 => "bt709",
        Standard::Bt2020 => "bt2020",
    }
}

/// The properties in which two headers differ: for each one, the value of the first header and the value of the second.
#[derive(Debug, Clone, Copy, PartialEq, Eq)]
pub struct HeaderDifferences {
    /// The color ranges. A range that is not declared counts as limited.
    pub range: Option<(ColorRange, ColorRange)>,
    /// The frames per second, if both are known.
    pub rate: Option<(Ratio, Ratio)>,
    /// The pixel aspect ratios, if both are known.
    pub aspect: Option<(Ratio, Ratio)>,
    /// The positions of chroma samples, if both headers declare them.
    pub siting: Option<(ChromaSiting, ChromaSiting)>,
}

/// Returns the properties in which two headers differ, of those that a comparison of samples does not show.
pub fn header_differences(first: &StreamHeader, second: &StreamHeader) -> HeaderDifferences
    ensures { result ≡ differences_of first.now second.now }
{
    HeaderDifferences {
        range: other_range(used_range(None, first), used_range(None, second)),
        rate: other_ratio(first.frame_rate, second.frame_rate),
        aspect: other_ratio(first.pixel_aspect, second.pixel_aspect),
        siting: other_siting(first.color.siting(), second.color.siting()),
    }
}

/// Returns the two color ranges if they differ, and `None` otherwise.
fn other_range(first: ColorRange, second: ColorRange) -> Option<(ColorRange, ColorRange)>
    ensures { result ≡ ranges_apart first second }
{
    if first == second {
        return None;
    }
    Some((first, second))
}

/// Returns the two ratios if both are known and their values differ, and `None` otherwise. The ratios 25:1 and 50:2 have the same
/// value.
fn other_ratio(first: Option<Ratio>, second: Option<Ratio>) -> Option<(Ratio, Ratio)>
    ensures { result ≡ ratios_apart first second }
{
    let (Some(one), Some(other)) = (first, second) else {
        return None;
    };
    if !is_known(&one) || !is_known(&other) {
        return None;
    }
    let left = u128::from(one.numerator) * u128::from(other.denominator);
    let right = u128::from(other.numerator) * u128::from(one.denominator);
    if left == right {
        return None;
    }
    Some((one, other))
}

/// Returns whether a ratio is known. A ratio with a 0 is unknown.
fn is_known(ratio: &Ratio) -> bool
    ensures { result ≡ Rattle.yuv_system.specs.Headers.is_known ratio.now }
{
    ratio.numerator > 0 && ratio.denominator > 0
}

/// Returns the two positions of chroma samples if both are declared and they differ, and `None` otherwise.
fn other_siting(
    first: Option<ChromaSiting>,
    second: Option<ChromaSiting>,
) -> Option<(ChromaSiting, ChromaSiting)>
    ensures { result ≡ sitings_apart first second }
{
    match (first, second) {
        (Some(one), Some(other)) if one != other => Some((one, other)),
        _ => None,
    }
}

/// Writes a message for each property in which two headers differ.
pub fn write_differences<E: io::Write>(messages: &mut E, found: &HeaderDifferences) {
    if let Some((one, other)) = found.range {
        let (one, other) = (range_name(one), range_name(other));
        write_disagreement(messages, "color range", &one, &other);
    }
    if let Some((one, other)) = found.rate {
        write_ratios(messages, "frame rate", one, other);
    }
    if let Some((one, other)) = found.aspect {
        write_ratios(messages, "pixel aspect", one, other);
    }
    if let Some((one, other)) = found.siting {
        let (one, other) = (siting_name(one), siting_name(other));
        write_disagreement(messages, "chroma siting", &one, &other);
    }
}

/// Writes a message for each of these properties in which two streams differ: size, chroma format and bit depth. Streams that
/// differ in one of them are not compared.
pub fn write_formats<E: io::Write>(messages: &mut E, first: &StreamHeader, second: &StreamHeader) {
    let (one, other) = (size_of(first), size_of(second));
    if one.width != other.width || one.height != other.height {
        write_disagreement(messages, "size", &one, &other);
    }
    let (one, other) = (first.color.subsampling(), second.color.subsampling());
    if one != other {
        let (one, other) = (chroma_name(one), chroma_name(other));
        write_disagreement(messages, "chroma format", &one, &other);
    }
    let (one, other) = (first.color.bit_depth(), second.color.bit_depth());
    if one != other {
        write_disagreement(messages, "bit depth", &one, &other);
    }
}

/// Writes a message with the size of the pictures of a stream, if the error is that a crop is not inside them.
pub fn write_size_of_crop<E: io::Write>(
    messages: &mut E,
    name: &str,
    header: &StreamHeader,
    problem: &Problem,
) {
    if let Problem::CropOutside = problem {
        let size = size_of(header);
        write_message(messages, Some(shown_name(name)), &PictureSize { size });
    }
}

/// Returns the size of the pictures of a stream.
fn size_of(header: &StreamHeader) -> ShownSize {
    ShownSize {
        width: header.width,
        height: header.height,
    }
}

/// Returns the name of a chroma format.
fn chroma_name(subsampling: ChromaSubsampling) -> &'static str {
    match subsampling {
        ChromaSubsampling::Monochrome => "luma only",
        ChromaSubsampling::Yuv420 => "4:2:0",
        ChromaSubsampling::Yuv422 => "4:2:2",
        ChromaSubsampling::Yuv444 => "4:4:4",
        ChromaSubsampling::Yuv411 => "4:1:1",
    }
}

/// The width and the height of a picture.
#[derive(Clone, Copy)]
struct ShownSize {
    width: usize,
    height: usize,
}

impl fmt::Display for ShownSize {
    fn fmt<W: fmt::Write>(&self, f: &mut fmt::Formatter<W>) -> fmt::Result {
        let (width, height) = (self.width, self.height);
        write!(f, "{width}x{height}")
    }
}

/// A message with the size of the pictures of a stream.
#[derive(Clone, Copy)]
struct PictureSize {
    size: ShownSize,
}

impl fmt::Display for PictureSize {
    fn fmt<W: fmt::Write>(&self, f: &mut fmt::Formatter<W>) -> fmt::Result {
        let size = self.size;
        write!(f, "the pictures have {size} pixels")
    }
}

/// Writes a message that a ratio, for example the frame rate, differs between two streams.
fn write_ratios<E: io::Write>(messages: &mut E, property: &str, one: Ratio, other: Ratio) {
    let (one, other) = (ShownRatio { ratio: one }, ShownRatio { ratio: other });
    write_disagreement(messages, property, &one, &other);
}

/// Writes a message that two streams have different values of a property.
fn write_disagreement<E: io::Write, D: fmt::Display>(
    messages: &mut E,
    property: &str,
    one: &D,
    other: &D,
) {
    write_message(
        messages,
        None,
        &Disagreement {
            property,
            one,
            other,
        },
    );
}

/// Returns the name of a position of chroma samples.
fn siting_name(siting: ChromaSiting) -> &'static str {
    match siting {
        ChromaSiting::Center => "center",
        ChromaSiting::Left => "left",
        ChromaSiting::Alternating => "alternating",
    }
}

/// A ratio in the form of a header, as 25:1.
#[derive(Clone, Copy)]
struct ShownRatio {
    ratio: Ratio,
}

impl fmt::Display for ShownRatio {
    fn fmt<W: fmt::Write>(&self, f: &mut fmt::Formatter<W>) -> fmt::Result {
        let Ratio {
            numerator,
            denominator,
        } = self.ratio;
        write!(f, "{numerator}:{denominator}")
    }
}

/// A message that two streams have different values of a property.
#[derive(Clone, Copy)]
struct Disagreement<'a, D> {
    property: &'a str,
    one: &'a D,
    other: &'a D,
}

impl<D: fmt::Display> fmt::Display for Disagreement<'_, D> {
    fn fmt<W: fmt::Write>(&self, f: &mut fmt::Formatter<W>) -> fmt::Result {
        let Disagreement {
            property,
            one,
            other,
        } = *self;
        write!(
            f,
            "the headers disagree on the {property}: {one} and {other}"
        )
    }
}
