//! The line or lines that help prints for each option. No line is longer than 80 columns.

/// The help of `--header`.
pub(crate) const HEADER: &str = "  --header           read the header only; count no frames\n";

/// The help of `--ssim`.
pub(crate) const SSIM: &str =
    "  --ssim             print SSIM too, as ffmpeg computes it; every plane must
                     have at least 8x8 samples\n";

/// The help of `--frames`.
pub(crate) const FRAMES: &str =
    "  --frames           print a line for each frame, in the format of ffmpeg's
                     psnr filter\n";

/// The help of `--exact`.
pub(crate) const EXACT: &str = "  --exact            print the sums of squared errors too\n";

/// The help of `--csv`.
pub(crate) const CSV: &str =
    "  --csv              print a CSV table: one row for each frame, all digits\n";

/// The help of `--json`.
pub(crate) const JSON: &str =
    "  --json             print JSON: each frame with all digits, and mean, harmonic
                     mean and minimum over all frames\n";

/// The help of `--half`.
pub(crate) const HALF: &str =
    "  --half             halve width and height, rounded up, by averaging blocks of
                     2x2 samples\n";

/// The help of `--planes`.
pub(crate) const PLANES: &str =
    "  --planes           print a checksum of each plane instead of each frame\n";

/// The help of `--histogram`.
pub(crate) const HISTOGRAM: &str =
    "  --histogram        print a CSV table of how often each value occurs\n";

/// The help of `--raw-output`.
pub(crate) const RAW_OUTPUT: &str =
    "  --raw-output       write headerless video instead of YUV4MPEG2\n";

/// The help of `--progress`.
pub(crate) const PROGRESS: &str =
    "  --progress         show a running frame count if standard error is a terminal\n";

/// The help of `--force`.
pub(crate) const FORCE: &str =
    "  --force            write the target even if it is an input, a video that a
                     picture would replace, or has the extension of another
                     kind of file; crop even if that swaps interlaced fields\n";

/// The help of `--salvage`.
pub(crate) const SALVAGE: &str =
    "  --salvage          if a frame cannot be read, keep the frames before it, print
                     their number, and exit with status 2\n";

/// The help of `--raw`.
pub(crate) const RAW: &str =
    "  --raw SPEC         read the (first) file as headerless video. SPEC is
                     WIDTHxHEIGHT:FORMAT[@RATE], as 1920x1080:yuv420p10@25
                     or 640x480:nv12@30000/1001; see 'yuv help formats'\n";

/// The help of `--raw-second`.
pub(crate) const RAW_SECOND: &str = "  --raw-second SPEC  like --raw, for the second file\n";

/// The help of `--max-pixels`.
pub(crate) const MAX_PIXELS: &str =
    "  --max-pixels N     reject frames of more than N luma pixels (33177600; no
                     limit for info, or for copy if no sample changes)\n";

/// The help of `--skip`.
pub(crate) const SKIP: &str = "  --skip N           skip the first N frames of each stream (0)\n";

/// The help of `--skip-second`.
pub(crate) const SKIP_SECOND: &str =
    "  --skip-second N    skip the first N frames of the second stream; --skip then
                     applies to the first stream only\n";

/// The help of `--count`.
pub(crate) const COUNT: &str = "  --count N          take at most N frames (all)\n";

/// The help of `--crop`.
pub(crate) const CROP: &str =
    "  --crop X,Y,W,H     take a rectangle of W by H luma pixels, whose upper left
                     pixel is in column X and row Y\n";

/// The help of `--format`.
pub(crate) const FORMAT: &str =
    "  --format FORMAT    convert to this chroma format and bit depth, as yuv422p10;
                     see 'yuv help formats'\n";

/// The help of `--rate`.
pub(crate) const RATE: &str =
    "  --rate RATE        write this frame rate into the header, as 25, 30000:1001 or
                     30000/1001\n";

/// The help of `--aspect`.
pub(crate) const ASPECT: &str =
    "  --aspect N:D       write this pixel aspect ratio, width to height, into the
                     header\n";

/// The help of `--frame`.
pub(crate) const FRAME: &str = "  --frame N          take frame N, counted from 1 (1)\n";

/// The help of `--matrix`.
pub(crate) const MATRIX: &str =
    "  --matrix M         convert colors by bt601, bt709 or bt2020 (bt601 up to 576
                     rows, else bt709)\n";

/// The help of `--range`.
pub(crate) const RANGE: &str =
    "  --range R          take samples as limited or full range (the range that the
                     header states, else limited)\n";

/// The help of `--plane`.
pub(crate) const PLANE: &str = "  --plane P          show one plane in gray: y, u or v\n";

/// The help of `--gain`.
pub(crate) const GAIN: &str = "  --gain N           multiply each difference by N, from 1 (8)\n";
