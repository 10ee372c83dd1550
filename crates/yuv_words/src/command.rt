//! Commands that the program can run.

use v_frame_formats::{Component, Rectangle, VideoFormat};
use v_frame_rgb::{ColorRange, Standard};
use v_frame_y4m::Ratio;
use yuv_reports::ReportForm;

/// The action that the arguments of the program request.
#[derive(Clone, Copy)]
pub enum Command<'a> {
    /// Run a command on files.
    Call(Call<'a>),
    /// Print help.
    Help(Topic),
    /// Print the version of the program.
    Version,
}

/// A topic of help.
#[derive(Debug, Clone, Copy, PartialEq, Eq)]
pub enum Topic {
    /// The program.
    Program,
    /// A command.
    Command(CommandName),
    /// The names of formats.
    Formats,
}

/// A command with the names of its files and its options. The name `-` is standard input or standard output.
#[derive(Clone, Copy)]
pub struct Call<'a> {
    /// The command.
    pub name: CommandName,
    /// The first file.
    pub first: &'a str,
    /// The second file, or an empty text if the command takes one file.
    pub second: &'a str,
    /// The third file, or an empty text if the command takes fewer files.
    pub third: &'a str,
    /// The options.
    pub options: Options,
}

/// A command that takes files and options.
#[derive(Debug, Clone, Copy, PartialEq, Eq)]
pub enum CommandName {
    /// Prints the properties of a stream and the number of its frames.
    Info,
    /// Measures how much two streams differ.
    Compare,
    /// Copies a stream, or a part of it, from the first file to the second.
    Copy,
    /// Prints a checksum of each frame.
    Sum,
    /// Prints statistics of the samples of a stream.
    Stats,
    /// Writes a frame of the first file to the second, as a picture.
    Show,
    /// Writes the difference of two frames to the third file, as a picture.
    Diff,
    /// Draws how much two streams differ, frame by frame, to the third file.
    Plot,
}

/// The options of a command. An option that is not given, or that the command does not have, is `None`, `false` or
/// [`ReportForm::Lines`].
#[derive(Clone, Copy)]
pub struct Options {
    /// `--csv` or `--json`: the form of a report.
    pub form: ReportForm,
    /// `--header`: only the header is read, and no frame is counted.
    pub header: bool,
    /// `--ssim`: structural similarity is reported too.
    pub ssim: bool,
    /// `--frames`: each frame is reported in a line.
    pub frames: bool,
    /// `--exact`: the sums of squared errors are reported too.
    pub exact: bool,
    /// `--half`: width and height are halved.
    pub half: bool,
    /// `--planes`: a checksum of each plane is reported.
    pub planes: bool,
    /// `--histogram`: the report states how often each value occurs.
    pub histogram: bool,
    /// `--raw-output`: the output is headerless video.
    pub raw_output: bool,
    /// `--progress`: a running frame count is shown.
    pub progress: bool,
    /// `--force`: a target that would be rejected is written, and a crop that swaps fields is taken.
    pub force: bool,
    /// `--salvage`: the complete frames before a frame that cannot be read are written.
    pub salvage: bool,
    /// `--skip`: the number of frames to skip: in both streams, or only in the first if `skip_second` is given.
    pub skip: Option<u64>,
    /// `--skip-second`: the number of frames of the second stream to skip.
    pub skip_second: Option<u64>,
    /// `--count`: the largest number of frames to take.
    pub count: Option<u64>,
    /// `--frame`: the number of the frame, counted from 1.
    pub frame: Option<u64>,
    /// `--matrix`: the standard by which Y'CbCr is converted to R'G'B'.
    pub matrix: Option<Standard>,
    /// `--range`: the range of the samples, limited or full.
    pub range: Option<ColorRange>,
    /// `--plane`: the plane that is shown, in gray.
    pub plane: Option<Component>,
    /// `--crop`, spelled `X,Y,WIDTH,HEIGHT`: the part of each frame to take, in luma pixels, with at least one.
    pub crop: Option<Rectangle>,
    /// `--gain`: the factor of each difference, at least 1.
    pub gain: Option<u16>,
    /// `--format`: the chroma subsampling, the bit depth and the sample order to convert to.
    pub format: Option<VideoFormat>,
    /// `--rate`: the frames per second to write into the header.
    pub rate: Option<Ratio>,
    /// `--aspect`: the ratio of a pixel's width to its height to write into the header.
    pub aspect: Option<Ratio>,
    /// `--raw`: the first stream is headerless video of this size and format.
    pub raw: Option<RawVideo>,
    /// `--raw-second`: the second stream is headerless video of this size and format.
    pub raw_second: Option<RawVideo>,
    /// `--max-pixels`: the largest number of luma pixels that a frame may have.
    pub max_pixels: Option<u64>,
}

/// The format of headerless video, spelled `WIDTHxHEIGHT:FORMAT` or `WIDTHxHEIGHT:FORMAT@RATE`, as `1920x1080:yuv420p10@25`.
#[derive(Debug, Clone, Copy, PartialEq, Eq)]
pub struct RawVideo {
    /// The width in luma pixels, at least 1.
    pub width: usize,
    /// The height in luma pixels, at least 1.
    pub height: usize,
    /// The chroma subsampling, the bit depth and the order of the samples.
    pub format: VideoFormat,
    /// Whether the name of the format states that samples have full range.
    pub full_range: bool,
    /// The frames per second, if they are given. Both numbers are above 0.
    pub rate: Option<Ratio>,
}
