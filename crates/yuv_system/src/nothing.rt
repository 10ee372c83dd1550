//! The reason why a command took no frame.
ghost use Rattle.std.specs.Prelude.{◌≡◌, ◌<◌, unwrap_or, IfErr, OnOk};
ghost use Rattle.yuv_system.specs.Nothing.{nothing_of, shorter};

use crate::fault::Fault;
use std::{fmt, io};
use v_frame_streams::{CompareOptions, Comparison, Place, Source};
use yuv_files::{shown_name, write_message};
use yuv_words::Options;

/// The number of frames of a stream, and the options that selected none of them.
#[derive(Debug, Clone, Copy, PartialEq, Eq)]
pub struct NothingTaken {
    /// The number of frames that the stream has.
    pub frames: u64,
    /// The number of frames that are skipped.
    pub skip: u64,
    /// The largest number of frames to take after them. If it is `None`, all remaining frames are taken.
    pub count: Option<u64>,
}

impl NothingTaken {
    /// Returns the reason why no frame was taken, or `None` if `taken` is above 0.
    pub fn of(taken: u64, frames: u64, skip: u64, count: Option<u64>) -> Option<Self>
        ensures { result ≡ nothing_of taken frames skip count }
    {
        if taken > 0 {
            return None;
        }
        Some(NothingTaken {
            frames,
            skip,
            count,
        })
    }
}

impl fmt::Display for NothingTaken {
    fn fmt<W: fmt::Write>(&self, f: &mut fmt::Formatter<W>) -> fmt::Result {
        let NothingTaken {
            frames,
            skip,
            count,
        } = *self;
        if count == Some(0) {
            return f.write_str("no frame is taken: --count is 0");
        }
        write!(
            f,
            "no frame is taken: the stream has {frames}, and {skip} are passed over"
        )
    }
}

/// Returns the reason why no frame was taken of a stream of `frames` frames, or `None` if `taken` is above 0.
pub fn nothing_taken(options: &Options, taken: u64, frames: u64) -> Option<NothingTaken>
    ensures { result ≡ nothing_of taken frames (unwrap_or options.now.skip 0) options.now.count }
{
    NothingTaken::of(taken, frames, options.skip.unwrap_or(0), options.count)
}

/// Writes the reason why no frame of a file was taken, or nothing if frames were taken.
pub fn write_nothing<E: io::Write>(messages: &mut E, name: &str, nothing: Option<NothingTaken>) {
    if let Some(nothing) = nothing {
        write_message(messages, Some(shown_name(name)), &nothing);
    }
}

/// Tests whether any frames were compared. If none were, the error concerns the stream that ended, or the first stream if both
/// did.
///
/// # Errors
///
/// [`Fault::Nothing`] if no frames were compared.
pub fn test_compared<R: io::Read, S: io::Read>(
    found: &Comparison,
    first: &Source<R>,
    second: &Source<S>,
    taken: &CompareOptions,
) -> Result<(), Fault>
    ensures ok { OnOk result (0 < found.now.frames) }
    ensures none { IfErr result (λ _. found.now.frames ≡ 0) }
    ensures refused { IfErr result (λ fault. fault ≡ Fault.Nothing
        (shorter found.now.longer Place.First Place.Second) (record {
          frames = shorter found.now.longer first.now.frames second.now.frames;
          skip = shorter found.now.longer taken.now.skip_first taken.now.skip_second;
          count = taken.now.count;
        })) }
{
    let (place, frames, skip) = match found.longer {
        Some(Place::First) => (Place::Second, second.frames(), taken.skip_second),
        _ => (Place::First, first.frames(), taken.skip_first),
    };
    match NothingTaken::of(found.frames, frames, skip, taken.count) {
        Some(nothing) => Err(Fault::Nothing(place, nothing)),
        None => Ok(()),
    }
}
