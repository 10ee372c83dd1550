//! The texts that help prints.

use crate::command::{CommandName, Topic};

/// The help of the program.
const ALL: &str = "Usage: yuv COMMAND FILE... [OPTIONS]

Inspect, compare and convert raw video: YUV4MPEG2 (.y4m) or headerless YUV.

Commands:
  info FILE                 print the properties and the frame count of a video
  compare FILE1 FILE2       measure how much two videos differ (PSNR, SSIM)
  copy INPUT OUTPUT         copy a video: cut, crop, halve or convert it
  sum FILE                  print a CRC-32 checksum of each frame
  stats FILE                print minimum, maximum and mean of the samples
  show FILE PICTURE         save a frame as a PNG picture
  diff FILE1 FILE2 PICTURE  save the difference of two frames as a PNG picture
  plot FILE1 FILE2 PICTURE  draw PSNR and SSIM of each frame as an SVG chart
  help [COMMAND]            print this help, or the help of a command
  help formats              list the names of all video formats
  version                   print the version

The file name - is standard input or standard output. Options may appear
anywhere after the command, each at most once, as --skip 5 or --skip=5. All
arguments after -- are file names. --help after a command prints its help.
Frames are numbered from 1, columns and rows from 0.

Exit status:
  0  success; compare and diff: no difference
  1  compare and diff: a difference
  2  an error

Examples:
  yuv info clip.y4m
  yuv compare source.y4m encoded.y4m --ssim
  ffmpeg -i in.mp4 -f yuv4mpegpipe - | yuv show - frame.png --frame 20
";

/// The help of `info`.
const INFO: &str = "Usage: yuv info FILE [OPTIONS]

Print the properties of a video and count its frames. If the stream is damaged,
print the number of complete frames, then the error.

Example:
  yuv info clip.y4m

Options (defaults are in parentheses):
";

/// The help of `compare`.
const COMPARE: &str = "Usage: yuv compare FILE1 FILE2 [OPTIONS]

Measure how much two videos differ. Print the mean squared error (MSE) and the
peak signal-to-noise ratio (PSNR) of all planes and of each plane, the first
sample that differs, and which stream has more frames. Frames are numbered as in
FILE1. The exit status is 0 if all samples are equal, and 1 if they differ. If a
stream is damaged, report the frames before, then the error. Warn if the headers
disagree on color range, frame rate, pixel aspect or chroma siting.

Examples:
  yuv compare source.y4m encoded.y4m --ssim --frames
  yuv compare source.y4m encoded.y4m --ssim --json > report.json

Options (defaults are in parentheses):
";

/// The help of `copy`.
const COPY: &str = "Usage: yuv copy INPUT OUTPUT [OPTIONS]

Copy a video, or a part of it. The options are applied in this order: --skip and
--count, --crop, --half, --format. OUTPUT is replaced after the last frame was
written; until then the frames are in OUTPUT.partial. OUTPUT must not be INPUT,
and its extension must fit: .y4m, or .yuv or .raw with --raw-output. A crop that
swaps the fields of interlaced video is rejected. --force overrides all of this.

Examples:
  yuv copy in.y4m out.y4m --skip 10 --count 100 --crop 0,0,640,360
  yuv copy in.yuv out.y4m --raw 1920x1080:nv12@25
  yuv copy in.y4m out.yuv --raw-output --format p010

Options (defaults are in parentheses):
";

/// The help of `sum`.
const SUM: &str = "Usage: yuv sum FILE [OPTIONS]

Print the CRC-32 checksum of the samples of each frame, as zlib and ffmpeg's
framehash compute it. Samples of more than 8 bits are two bytes, little-endian.

Example:
  yuv sum clip.y4m --planes

Options (defaults are in parentheses):
";

/// The help of `stats`.
const STATS: &str = "Usage: yuv stats FILE [OPTIONS]

Print, for each plane over all frames, the minimum, the maximum and the mean of
the samples, and how many are outside the nominal range. In limited range at 8
bits that is 16 to 235 for luma and 16 to 240 for chroma; other depths scale it.
Samples above the bit depth are counted separately. If the stream is damaged,
report the frames before, then the error.

Example:
  yuv stats clip.y4m --skip 100 --count 50

Options (defaults are in parentheses):
";

/// The help of `show`.
const SHOW: &str = "Usage: yuv show FILE PICTURE [OPTIONS]

Save a frame as a PNG picture: in color with 8 bits, or one plane in gray. Print
the color matrix and the color range that were used, on standard error if
PICTURE is -. PICTURE must not be FILE or a .y4m file, unless --force is given.

Example:
  yuv show clip.y4m frame.png --frame 20

Options (defaults are in parentheses):
";

/// The help of `diff`.
const DIFF: &str = "Usage: yuv diff FILE1 FILE2 PICTURE [OPTIONS]

Save the difference of the luma of two frames as a gray PNG picture, black where
they are equal. Print where each plane differs, on standard error if PICTURE is
-. The exit status is 0 if all samples are equal, and 1 if they differ. PICTURE
must not be an input or a .y4m file, unless --force is given.

Example:
  yuv diff source.y4m encoded.y4m difference.png --frame 20

Options (defaults are in parentheses):
";

/// The help of `plot`.
const PLOT: &str = "Usage: yuv plot FILE1 FILE2 PICTURE [OPTIONS]

Draw the PSNR and the SSIM of each frame as an SVG chart, with a line for each
plane. Identical frames are marked at the top. If a stream is damaged, draw the
frames before, then report the error. PICTURE must not be an input or a .y4m
file, unless --force is given.

Example:
  yuv plot source.y4m encoded.y4m chart.svg

Options (defaults are in parentheses):
";

/// The list of formats, which `yuv help formats` prints.
const FORMATS: &str = "Formats of --raw and --format. Upper case and lower case are the same.

Planar, with 8 bits a sample:
  4:2:0        yuv420p, I420, 420jpeg; 420, 420mpeg2 and 420paldv differ from
               them in the chroma siting
  4:2:2        yuv422p, I422, 422
  4:4:4        yuv444p, I444, 444
  4:1:1        yuv411p, 411
  luma only    gray, gray8, mono

Planar, with 9, 10, 12, 14 or 16 bits a sample; for example with 10:
  4:2:0        yuv420p10, yuv420p10le, 420p10
  4:2:2        yuv422p10, yuv422p10le, 422p10
  4:4:4        yuv444p10, yuv444p10le, 444p10
  luma only    gray10, gray10le, mono10

Semi-planar: luma, then both chroma planes interleaved:
  4:2:0        nv12, nv21 (V before U)
  4:2:2        nv16
  4:4:4        nv24
  4:2:0        p010, p012, p016 or p010le, p012le, p016le: 10, 12 or 16 bits, in
               the high bits of two bytes

Full range, with 8 bits a sample, for --raw only:
  4:2:0        yuvj420p
  4:2:2        yuvj422p
  4:4:4        yuvj444p

Samples of more than 8 bits are two bytes, little-endian. YUV4MPEG2 files are
planar: to write a semi-planar format, add --raw-output.
";

/// Returns the help of a topic. For a command, this is the part before the options: [`CommandName::options`] lists the options,
/// and [`OptionName::help`](crate::OptionName::help) returns the help of each.
pub fn usage_text(topic: Topic) -> &'static str {
    match topic {
        Topic::Program => ALL,
        Topic::Formats => FORMATS,
        Topic::Command(CommandName::Info) => INFO,
        Topic::Command(CommandName::Compare) => COMPARE,
        Topic::Command(CommandName::Copy) => COPY,
        Topic::Command(CommandName::Sum) => SUM,
        Topic::Command(CommandName::Stats) => STATS,
        Topic::Command(CommandName::Show) => SHOW,
        Topic::Command(CommandName::Diff) => DIFF,
        Topic::Command(CommandName::Plot) => PLOT,
    }
}
