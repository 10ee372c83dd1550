//! Compares two streams frame by frame.
ghost use Rattle.std.specs.Prelude.{◌≡◌, ◌≢◌, ◌⊎◌, ◌*◌, ◌≤◌, ◌<◌, unwrap_or, IfErr, IfOk, None, OnOk};
ghost use Rattle.v_frame.specs.Prelude.{one_byte, tables_of, two_bytes};
ghost use Rattle.v_frame_planar.specs.Planar.{sizes_of};
ghost use Rattle.v_frame_y4m.specs.Color.{depth_of};
ghost use Rattle.v_frame_streams.specs.Comparisons.{errors_between, Adds, Compares, ComparesFrom, Watches, WatchesFrom};
ghost use Rattle.v_frame_streams.specs.Formats.{HaveOneFormat, RefusesFormats};
ghost use Rattle.v_frame_streams.specs.MadeFor.{IsMadeFor};
ghost use Rattle.v_frame_streams.specs.Pictures.{sizes_in};
ghost use Rattle.v_frame_streams.specs.Stops.{FailsAtEither, FailsToCompare, FailsToCompareAs, IsAtNextFrame, StopsComparison};
ghost use Rattle.v_frame_streams.specs.Sources.{bytes_left, stream_of};
ghost use Rattle.v_frame_streams.specs.Streams.{most_frames};
ghost use Rattle.v_frame_streams.specs.Telling.{TellsUpTo};

use crate::comparison::{CompareOptions, Comparison, longer_of};
use crate::error::StreamError;
use crate::formats::check_formats;
use crate::frames::squared_errors_of_frames;
use crate::observer::FrameObserver;
use crate::passing::skip_frames;
use crate::picture::Picture;
use crate::progress::{Progress, Silent, show_one_more};
use crate::source::Source;
use std::alloc::Global;
use std::io;
use v_frame::frame::Frame;
use v_frame::pixel::Pixel;

/// Compares two streams frame by frame, up to the end of the shorter one.
///
/// The call first skips [`skip_first`](crate::CompareOptions::skip_first) frames of `first` and
/// [`skip_second`](crate::CompareOptions::skip_second) frames of `second`. It then compares at most
/// [`count`](crate::CompareOptions::count) pairs of frames. `observer` receives each pair together with the sums of its squared
/// errors. After each pair, `progress` receives the number of pairs compared so far.
///
/// # Errors
///
/// These errors are returned before anything is read:
///
/// - [`OtherSize`](crate::Problem::OtherSize), [`OtherChroma`](crate::Problem::OtherChroma) or
///   [`OtherDepth`](crate::Problem::OtherDepth), reported for the second stream, if the formats of the streams differ.
/// - [`TooManyPixels`](crate::Problem::TooManyPixels) if a frame has more luma pixels than
///   [`max_pixels`](crate::CompareOptions::max_pixels).
/// - [`TooLarge`](crate::Problem::TooLarge) if the planes of a frame are too large for the address space.
/// - [`OutOfMemory`](crate::Problem::OutOfMemory) if a memory allocation fails.
///
/// These errors are returned while the streams are read:
///
/// - [`Stream`](crate::Problem::Stream) if a frame cannot be read whole.
/// - Any error that `observer` returns.
pub fn compare_streams<
    R: io::Read,
    S: io::Read,
    O: FrameObserver<u8> + FrameObserver<u16>,
    P: Progress,
>(
    alloc: Global,
    first: &mut Source<R>,
    second: &mut Source<S>,
    options: &CompareOptions,
    observer: &mut O,
    progress: &mut P,
) -> Result<Comparison, StreamError>
    ensures formats { OnOk result (HaveOneFormat first.old.header second.old.header) }
    ensures small { OnOk result (first.old.header.width * first.old.header.height ≤ options.now.max_pixels) }
    ensures bytes { depth_of first.old.header.color ≡ 8 → IfOk result (ComparesFrom one_byte
        (sizes_in first.old.header) (stream_of first.old) (stream_of second.old)
        (bytes_left R.remaining first.old) (bytes_left R.remaining first.new)
        (bytes_left S.remaining second.old) (bytes_left S.remaining second.new) options.now) }
    ensures words { depth_of first.old.header.color ≢ 8 → IfOk result (ComparesFrom two_bytes
        (sizes_in first.old.header) (stream_of first.old) (stream_of second.old)
        (bytes_left R.remaining first.old) (bytes_left R.remaining first.new)
        (bytes_left S.remaining second.old) (bytes_left S.remaining second.new) options.now) }
    ensures other_format { ¬ (HaveOneFormat first.old.header second.old.header)
        → IfErr result (λ error. IsAtNextFrame second.new error
        × RefusesFormats first.old.header second.old.header error.problem) }
    ensures bound { IfOk result (λ found. found.frames ≤ unwrap_or options.now.count most_frames) }
    ensures told { IfOk result (λ found. TellsUpTo P.shows found.frames
        progress.old progress.new) }
    ensures bytes_taken { depth_of first.old.header.color ≡ 8 → IfOk result (WatchesFrom one_byte
        (sizes_in first.old.header) ⟦<O as FrameObserver<u8>>⟧.takes observer.old observer.new
        (stream_of first.old) (stream_of second.old)
        (bytes_left R.remaining first.old) (bytes_left R.remaining first.new)
        (bytes_left S.remaining second.old) (bytes_left S.remaining second.new) options.now) }
    ensures words_taken { depth_of first.old.header.color ≢ 8 → IfOk result (WatchesFrom two_bytes
        (sizes_in first.old.header) ⟦<O as FrameObserver<u16>>⟧.takes observer.old observer.new
        (stream_of first.old) (stream_of second.old)
        (bytes_left R.remaining first.old) (bytes_left R.remaining first.new)
        (bytes_left S.remaining second.old) (bytes_left S.remaining second.new) options.now) }
    ensures problem { IfErr result (λ error.
        FailsToCompare R.remaining S.remaining first.new second.new options.now.max_pixels error.problem
        ⊎ (⟦<O as FrameObserver<u8>>⟧.stops observer.new error
        ⊎ ⟦<O as FrameObserver<u16>>⟧.stops observer.new error)) }
    ensures stopped { IfErr result (λ error. StopsComparison first.new second.new error
        ⊎ (⟦<O as FrameObserver<u8>>⟧.stops observer.new error
        ⊎ ⟦<O as FrameObserver<u16>>⟧.stops observer.new error)) }
    ensures same { stream_of first.new ≡ stream_of first.old }
    ensures also_same { stream_of second.new ≡ stream_of second.old }
{
    check_formats(first, second)?;
    if first.header().color.bit_depth() == 8 {
        return compare_as::<u8, _, _, _, _>(alloc, first, second, options, observer, progress);
    }
    compare_as::<u16, _, _, _, _>(alloc, first, second, options, observer, progress)
}

/// Compares two streams of one format. `T` is the pixel type of that format.
fn compare_as<T: Pixel, R: io::Read, S: io::Read, O: FrameObserver<T>, P: Progress>(
    alloc: Global,
    first: &mut Source<R>,
    second: &mut Source<S>,
    options: &CompareOptions,
    observer: &mut O,
    progress: &mut P,
) -> Result<Comparison, StreamError>
    requires { HaveOneFormat first.old.header second.old.header }
    ensures small { OnOk result (first.old.header.width * first.old.header.height ≤ options.now.max_pixels) }
    ensures compared { IfOk result (ComparesFrom T.form (sizes_in first.old.header)
        (stream_of first.old) (stream_of second.old) (bytes_left R.remaining first.old)
        (bytes_left R.remaining first.new) (bytes_left S.remaining second.old)
        (bytes_left S.remaining second.new) options.now) }
    ensures bound { IfOk result (λ found. found.frames ≤ unwrap_or options.now.count most_frames) }
    ensures told { IfOk result (λ found. TellsUpTo P.shows found.frames
        progress.old progress.new) }
    ensures taken { IfOk result (WatchesFrom T.form (sizes_in first.old.header) O.takes
        observer.old observer.new (stream_of first.old) (stream_of second.old)
        (bytes_left R.remaining first.old) (bytes_left R.remaining first.new)
        (bytes_left S.remaining second.old) (bytes_left S.remaining second.new) options.now) }
    ensures problem { IfErr result (λ error.
        FailsToCompareAs R.remaining S.remaining first.new second.new options.now.max_pixels T.BYTES error.problem
        ⊎ O.stops observer.new error) }
    ensures stopped { IfErr result (λ error. StopsComparison first.new second.new error
        ⊎ O.stops observer.new error) }
    ensures same { stream_of first.new ≡ stream_of first.old }
    ensures also_same { stream_of second.new ≡ stream_of second.old }
{
    let mut one = Picture::<T>::new(alloc, first, options.max_pixels)?;
    let mut other = Picture::<T>::new(alloc, second, options.max_pixels)?;
    skip_frames(first, options.skip_first, &mut Silent)?;
    skip_frames(second, options.skip_second, &mut Silent)?;
    let most = options.count.unwrap_or(u64::MAX);
    compare_frames(
        first, second, &mut one, &mut other, most, observer, progress,
    )
}

/// Compares at most `most` pairs of frames, up to the end of the shorter stream.
fn compare_frames<T: Pixel, R: io::Read, S: io::Read, O: FrameObserver<T>, P: Progress>(
    first: &mut Source<R>,
    second: &mut Source<S>,
    one: &mut Picture<T>,
    other: &mut Picture<T>,
    most: u64,
    observer: &mut O,
    progress: &mut P,
) -> Result<Comparison, StreamError>
    requires made { IsMadeFor T.form first.old one.old }
    requires also_made { IsMadeFor T.form second.old other.old }
    requires sizes { sizes_of (tables_of other.old.frame) ≡ sizes_of (tables_of one.old.frame) }
    ensures compared { IfOk result (Compares T.form (sizes_of (tables_of one.old.frame))
        (stream_of first.old) (stream_of second.old) (bytes_left R.remaining first.old)
        (bytes_left R.remaining first.new) (bytes_left S.remaining second.old)
        (bytes_left S.remaining second.new) most) }
    ensures bound { IfOk result (λ found. found.frames ≤ most) }
    ensures told { IfOk result (λ found. TellsUpTo P.shows found.frames
        progress.old progress.new) }
    ensures taken { IfOk result (Watches T.form (sizes_of (tables_of one.old.frame)) O.takes
        observer.old observer.new (stream_of first.old) (stream_of second.old)
        (bytes_left R.remaining first.old) (bytes_left R.remaining first.new)
        (bytes_left S.remaining second.old) (bytes_left S.remaining second.new) most) }
    ensures problem { IfErr result (λ error.
        FailsAtEither R.remaining S.remaining first.new second.new error.problem
        ⊎ O.stops observer.new error) }
    ensures stopped { IfErr result (λ error. StopsComparison first.new second.new error
        ⊎ O.stops observer.new error) }
    ensures same { stream_of first.new ≡ stream_of first.old }
    ensures also_same { stream_of second.new ≡ stream_of second.old }
{
    let mut found = Comparison::new(&one.frame);
    for count in 0..most {
        let more = one.read(first)?;
        let also = other.read(second)?;
        if !more || !also {
            let longer = longer_of(more, also);
            return Ok(Comparison { longer, ..found });
        }
        found = compare_pair(&found, &one.frame, &other.frame, observer)?;
        show_one_more(progress, count);
    }
    Ok(found)
}

/// Compares one more pair of frames and passes it to the observer.
fn compare_pair<T: Pixel, O: FrameObserver<T>>(
    found: &Comparison,
    first: &Frame<T>,
    second: &Frame<T>,
    observer: &mut O,
) -> Result<Comparison, StreamError>
    requires sizes { sizes_of (tables_of first.now) ≡ sizes_of (tables_of second.now) }
    requires fewer { found.now.frames < most_frames }
    ensures adds { IfOk result (λ now. Adds T.form found.now now
        (tables_of first.now, tables_of second.now)) }
    ensures longer { IfOk result (λ now. now.longer ≡ None) }
    ensures taken { OnOk result (O.takes observer.old observer.new (tables_of first.now)
        (tables_of second.now)
        (errors_between T.form (tables_of first.now, tables_of second.now))) }
    ensures stopped { IfErr result (O.stops observer.new) }
{
    let errors = squared_errors_of_frames(first, second);
    let now = found.with_frames(first, second, &errors);
    observer.take(first, second, &errors)?;
    Ok(now)
}
