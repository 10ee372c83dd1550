//! Kinds of files, and the targets that a command may write.
ghost use Rattle.std.specs.Prelude.{◌≡◌, ◌⊎◌, false, IfErr, IsTrue, OnOk};
ghost use Rattle.yuv_files.specs.Targets.{is_video as writes_video, small_letter_of, MayBeWritten, StopsWriting};

use std::alloc::{AllocError, Global};

/// A kind of file, by its contents.
#[derive(Debug, Clone, Copy, PartialEq, Eq)]
pub enum FileKind {
    /// A YUV4MPEG2 stream.
    Y4m,
    /// Headerless video.
    Raw,
    /// A PNG picture.
    Png,
    /// An SVG picture.
    Svg,
    /// A picture of another format, such as JPEG.
    OtherPicture,
    /// Video in a container, or compressed video, such as MP4.
    Container,
}

/// The properties of a target before it is written.
#[derive(Debug, Clone, Copy, PartialEq, Eq)]
pub struct TargetFacts {
    /// The kind of file that the extension of the name indicates, or `None` if the extension is missing or unknown.
    pub named: Option<FileKind>,
    /// Whether the target is a file that begins as a YUV4MPEG2 stream does.
    pub is_stream: bool,
    /// Whether the target is one of the files that the command reads.
    pub is_input: bool,
}

/// The reason why a target is rejected.
#[derive(Debug, Clone, Copy, PartialEq, Eq)]
pub enum TargetError {
    /// The command reads the target.
    Input,
    /// The target is a YUV4MPEG2 stream, and the command writes a picture.
    Stream,
    /// The extension of the target's name indicates this kind of file, and the command writes another kind.
    OtherKind(FileKind),
}

impl FileKind {
    /// Returns whether files of this kind, as `yuv` writes them, contain video frames.
    fn is_video(self) -> bool
        ensures { result ≡ writes_video self }
    {
        matches!(self, FileKind::Y4m | FileKind::Raw)
    }

    /// Returns the kind of file as a phrase with an article.
    pub fn text(self) -> &'static str {
        match self {
            FileKind::Y4m => "a YUV4MPEG2 stream",
            FileKind::Raw => "headerless raw video",
            FileKind::Png => "a PNG picture",
            FileKind::Svg => "an SVG picture",
            FileKind::OtherPicture => "a picture",
            FileKind::Container => "compressed video or a container",
        }
    }
}

/// Tests whether a command that writes a file of the kind `written` may write `target`. If `is_forced` is true, it may write any
/// target.
///
/// # Errors
///
/// [`TargetError::Input`] if the command reads the target, otherwise [`TargetError::Stream`] if the target is a stream and the
/// command writes a picture, and otherwise [`TargetError::OtherKind`] if the extension of its name indicates another kind of
/// file.
pub fn check_target(
    written: FileKind,
    target: &TargetFacts,
    is_forced: bool,
) -> Result<(), TargetError>
    ensures accepted { OnOk result (IsTrue is_forced ⊎ MayBeWritten written target.now) }
    ensures forced { IfErr result (λ _. is_forced ≡ false) }
    ensures rejected { IfErr result (StopsWriting written target.now) }
{
    if is_forced {
        return Ok(());
    }
    if target.is_input {
        return Err(TargetError::Input);
    }
    if target.is_stream && !written.is_video() {
        return Err(TargetError::Stream);
    }
    match target.named {
        Some(kind) if kind != written => Err(TargetError::OtherKind(kind)),
        _ => Ok(()),
    }
}

/// Returns the kind of file that the extension of a name indicates, or `None` if the extension is missing or unknown. Upper case
/// and lower case are the same.
///
/// # Errors
///
/// [`AllocError`] if there is not enough memory.
pub fn kind_of_name(alloc: Global, name: &str) -> Result<Option<FileKind>, AllocError> {
    match name.rsplit_once('.') {
        Some((_stem, extension)) => {
            let small = in_small_letters(alloc, extension)?;
            Ok(kind_of_extension(small.as_str()))
        }
        None => Ok(None),
    }
}

/// Returns a text with each of the letters `A` to `Z` in lower case.
fn in_small_letters(alloc: Global, text: &str) -> Result<String, AllocError> {
    let mut small = String::new(alloc);
    for letter in text.chars() {
        let mut bytes = [0; 4];
        small.push_str(small_letter(letter).encode_utf8(&mut bytes))?;
    }
    Ok(small)
}

/// Returns a letter in lower case if it is one of `A` to `Z`, and unchanged otherwise.
fn small_letter(letter: char) -> char
    ensures { result ≡ small_letter_of letter }
{
    let code = u32::from(letter);
    if code >= 65 && code <= 90 {
        let small = letter as u8 + 32;
        small as char
    } else {
        letter
    }
}

/// Returns the kind of file that an extension in lower case indicates, or `None` if it is unknown.
fn kind_of_extension(extension: &str) -> Option<FileKind> {
    match extension {
        "y4m" => Some(FileKind::Y4m),
        "yuv" | "raw" | "i420" | "yv12" | "nv12" | "nv21" | "p010" => Some(FileKind::Raw),
        "png" => Some(FileKind::Png),
        "svg" => Some(FileKind::Svg),
        "jpg"
        | "jpeg"
        | "gif"
        | "bmp"
        | "tif"
        | "tiff"
        | "webp"
        | "avif"
        | "heic"
        | "jxl"
        | "ppm"
        | "pgm"
        | "pnm"
        | "pdf" => Some(FileKind::OtherPicture),
        "mp4"
        | "m4v"
        | "mkv"
        | "webm"
        | "mov"
        | "avi"
        | "ts"
        | "m2ts"
        | "mpg"
        | "mpeg"
        | "mxf"
        | "flv"
        | "wmv"
        | "ogv"
        | "3gp"
        | "ivf"
        | "obu"
        | "264"
        | "h264"
        | "avc"
        | "265"
        | "h265"
        | "hevc"
        | "266"
        | "vvc"
        | "av1" => Some(FileKind::Container),
        _ => None,
    }
}
