//! Writes the report on each pair of frames while streams are compared.
ghost use Rattle.std.specs.Prelude.{◌≡◌, None, option_map, string_bytes, IfSome, IsNone, IsSome, IsTrue, OnOk, is_some};
ghost use Rattle.std.specs.Int.NonZero.{non_zero_u8_get};
ghost use Rattle.std.specs.Io.KnownBytes.{Appends};
ghost use Rattle.v_frame.specs.Prelude.{tables_of};
ghost use Rattle.v_frame_measures.specs.Prelude.{HaveOneSize, HaveWindows};
ghost use Rattle.yuv_comparisons.specs.FrameReports.{ReportsFrame, StaysAsked};
ghost use Rattle.yuv_comparisons.specs.Reports.{difference_said, frame_number, longer_said, report_end, similarities_of, sums_asked, EndsKnown};
ghost use Rattle.yuv_reports.specs.Frames.{EndsWithFrame};
ghost use Rattle.yuv_reports.specs.Texts.{EndsWith};

use crate::measures::{Means, Scale};
use crate::so_far::{Above, SoFar};
use std::alloc::{AllocError, Global};
use std::io;
use v_frame::frame::Frame;
use v_frame::pixel::Pixel;
use v_frame_measures::{FrameMeasure, frame_ssim, frames_have_one_size};
use v_frame_streams::{Comparison, FrameObserver, Place, PlaneSums, StreamError};
use yuv_reports::{FrameMeasures, Longer, Report};
use yuv_system::{ShownProblem, no_memory, write_text};

/// The report on each pair of frames that is compared, and on all pairs at the end.
#[derive(Drop)]
pub(crate) struct FrameReport<W> {
    out: W,
    report: Report,
    text: String,
    scale: Scale,
    ssim: Option<Means>,
    alloc: Global,
    /// The number of frames of the first stream that precede the first one that is compared.
    before: u64,
    /// The number of frames of the second stream that precede the first one that is compared.
    before_second: u64,
    frames: u64,
    is_begun: bool,
    so_far: SoFar,
    above: Above,
}

impl<W: io::Write> FrameReport<W> {
    /// Returns a report without frames. It includes structural similarity if `ssim` has means for it. Frames are numbered as in
    /// the first stream, of which `before` frames are skipped.
    pub(crate) fn new(
        alloc: Global,
        out: W,
        report: Report,
        scale: Scale,
        ssim: Option<Means>,
        before: u64,
        before_second: u64,
    ) -> Self
        ensures out { result.out ≡ out }
        ensures report { result.report ≡ report }
        ensures scale { result.scale ≡ scale }
        ensures ssim { result.ssim ≡ ssim }
        ensures before { result.before ≡ before }
        ensures before_second { result.before_second ≡ before_second }
        ensures frames { result.frames ≡ 0 }
    {
        FrameReport {
            out,
            report,
            text: String::new(alloc),
            scale,
            ssim,
            alloc,
            before,
            before_second,
            frames: 0,
            is_begun: false,
            so_far: SoFar::new(),
            above: Above::new(),
        }
    }

    /// Returns the first frame of each stream that has samples above the greatest value of its bit depth.
    pub(crate) fn above(&self) -> Above
        ensures { result ≡ self.now.above }
    {
        self.above
    }

    /// Returns the writer.
    pub(crate) fn into_out(self) -> W
        ensures { result ≡ self.out }
    {
        self.out
    }

    /// Appends the beginning of the report, unless it was appended before.
    fn begin(&mut self) -> Result<(), AllocError>
        ensures out { self.new.out ≡ self.old.out }
        ensures report { self.new.report ≡ self.old.report }
        ensures scale { self.new.scale ≡ self.old.scale }
        ensures ssim { self.new.ssim ≡ self.old.ssim }
        ensures before { self.new.before ≡ self.old.before }
        ensures frames { self.new.frames ≡ self.old.frames }
    {
        if self.is_begun {
            return Ok(());
        }
        self.is_begun = true;
        let pixels = self.scale.pixels;
        let ssim = self.ssim.map(|_| blank(&pixels));
        let measures = self.scale.measures(&pixels, 1, ssim);
        self.report.begin(&mut self.text, &measures)
    }

    /// Writes the report on all frames.
    ///
    /// # Errors
    ///
    /// The error of the writer, and `Problem::OutOfMemory` if there is not enough memory.
    #[tactic(auto, using(crate::proofs::Reporting::ends_known))]
    pub(crate) fn end(&mut self, found: &Comparison) -> Result<(), StreamError>
        ensures { OnOk result (EndsKnown (W.contents self.old.out)
            (W.contents self.new.out)
            (report_end self.old.report.form self.old.scale.exact self.old.before found.now)) }
    {
        match self.push_end(found) {
            Ok(()) => self.write(),
            Err(_) => Err(no_memory()),
        }
    }

    /// Appends the report on all frames.
    fn push_end(&mut self, found: &Comparison) -> Result<(), AllocError>
        ensures ended { OnOk result (EndsWith
            (report_end self.old.report.form self.old.scale.exact self.old.before found.now)
            (string_bytes self.new.text)) }
        ensures out { self.new.out ≡ self.old.out }
    {
        self.begin()?;
        let ssim = match &self.ssim {
            Some(means) => means.values(),
            None => None,
        };
        let measures = self.scale.measures(&found.errors, found.frames, ssim);
        let found = reported_comparison(found, measures, self.before);
        self.report.end(&mut self.text, &found)
    }

    /// Writes the report on the frames before the one at which a stream breaks off.
    ///
    /// # Errors
    ///
    /// The error of the writer, and `Problem::OutOfMemory` if there is not enough memory.
    pub(crate) fn end_broken(&mut self, error: &StreamError) -> Result<(), StreamError> {
        let shown = ShownProblem { error };
        let said = format!(in self.alloc; "{shown}");
        let Ok(said) = said else {
            return Err(no_memory());
        };
        let pushed = self.push_broken_end(said.as_str());
        drop(said);
        match pushed {
            Ok(()) => self.write(),
            Err(_) => Err(no_memory()),
        }
    }

    /// Appends the report on the frames before the one at which a stream breaks off.
    fn push_broken_end(&mut self, error: &str) -> Result<(), AllocError> {
        self.begin()?;
        let ssim = match &self.ssim {
            Some(means) => means.values(),
            None => None,
        };
        let found = self
            .so_far
            .comparison(self.frames, self.scale.pixels.times(0));
        let measures = self.scale.measures(&found.errors, found.frames, ssim);
        let found = reported_comparison(&found, measures, self.before);
        self.report.end_broken(&mut self.text, &found, error)
    }

    /// Appends the report on the next frame.
    fn push_frame(&mut self, measures: &FrameMeasures) -> Result<(), AllocError>
        ensures said { OnOk result (IsTrue self.old.report.lists_frames
            → EndsWithFrame self.old.report.form (frame_number self.old.before self.old.frames)
            measures.now.sums (string_bytes self.new.text)) }
        ensures out { self.new.out ≡ self.old.out }
        ensures form { self.new.report.form ≡ self.old.report.form }
        ensures lists_frames { self.new.report.lists_frames ≡ self.old.report.lists_frames }
        ensures scale { self.new.scale ≡ self.old.scale }
        ensures ssim { self.new.ssim ≡ self.old.ssim }
        ensures before { self.new.before ≡ self.old.before }
        ensures frames { self.new.frames ≡ self.old.frames }
    {
        self.begin()?;
        let number = self.before.saturating_add(self.frames);
        self.report
            .frame(self.alloc, &mut self.text, number, measures)
    }

    /// Writes the text that was appended, and clears it.
    #[tactic(auto, using(crate::proofs::Reporting::nothing_appended))]
    fn write(&mut self) -> Result<(), StreamError>
        ensures written { OnOk result (Appends (W.contents self.old.out)
            (W.contents self.new.out) (string_bytes self.old.text)) }
        ensures report { self.new.report ≡ self.old.report }
        ensures scale { self.new.scale ≡ self.old.scale }
        ensures ssim { self.new.ssim ≡ self.old.ssim }
        ensures before { self.new.before ≡ self.old.before }
        ensures frames { self.new.frames ≡ self.old.frames }
    {
        if self.text.is_empty() {
            return Ok(());
        }
        let written = write_text(&mut self.out, self.text.as_str());
        self.text.clear();
        written
    }

    /// Returns the structural similarity of two frames if the report includes it, and `None` otherwise.
    fn similarities<T: Pixel>(
        &mut self,
        first: &Frame<T>,
        second: &Frame<T>,
    ) -> Option<FrameMeasure>
        ensures unasked { IsNone self.old.ssim → result ≡ None }
        ensures measured { IfSome result (λ values. values ≡ similarities_of T.form
            (non_zero_u8_get first.now.bit_depth) (tables_of first.now) (tables_of second.now)) }
        ensures asked { IsSome self.old.ssim
            → HaveOneSize (tables_of first.now) (tables_of second.now)
            → HaveWindows (tables_of first.now) → IsSome result }
        ensures stays { is_some self.new.ssim ≡ is_some self.old.ssim }
        ensures out { self.new.out ≡ self.old.out }
        ensures report { self.new.report ≡ self.old.report }
        ensures scale { self.new.scale ≡ self.old.scale }
        ensures before { self.new.before ≡ self.old.before }
        ensures frames { self.new.frames ≡ self.old.frames }
    {
        let Some(means) = &mut self.ssim else {
            return None;
        };
        if !frames_have_one_size(first, second) {
            return None;
        }
        let measured = frame_ssim(first, second)?;
        means.add(&measured);
        Some(measured)
    }
}

impl<T: Pixel, W: io::Write> FrameObserver<T> for FrameReport<W> {
    ghost takes = { λ old new _ _ errors. ReportsFrame W.contents old new errors };

    fn take(
        &mut self,
        first: &Frame<T>,
        second: &Frame<T>,
        errors: &PlaneSums,
    ) -> Result<(), StreamError> {
        self.so_far.add(self.frames, first, second, errors);
        self.frames = self.frames.saturating_add(1);
        self.above.note(
            (self.before.saturating_add(self.frames), first),
            (self.before_second.saturating_add(self.frames), second),
        );
        let ssim = self.similarities(first, second);
        let measures: FrameMeasures = self.scale.measures(errors, 1, ssim);
        match self.push_frame(&measures) {
            Ok(()) => self.write(),
            Err(_) => Err(no_memory()),
        }
    }
}

/// Returns a measure of 0 for no frames, with a value for each plane in `planes`.
fn blank(planes: &PlaneSums) -> FrameMeasure {
    FrameMeasure {
        all: 0.0,
        y: 0.0,
        u: planes.u.map(|_| 0.0),
        v: planes.v.map(|_| 0.0),
    }
}

/// Returns the result of a comparison in the form of a report. `start` frames precede the first one that was compared.
fn reported_comparison(
    found: &Comparison,
    measures: FrameMeasures,
    start: u64,
) -> yuv_reports::Comparison
    ensures measures { result.measures ≡ measures }
    ensures difference { result.difference
        ≡ option_map (difference_said start) found.now.difference }
    ensures longer { result.longer ≡ option_map longer_said found.now.longer }
{
    yuv_reports::Comparison {
        frames: found.frames,
        measures,
        difference: match found.difference {
            Some((before, pixel)) => Some((start.saturating_add(before).saturating_add(1), pixel)),
            None => None,
        },
        longer: match found.longer {
            Some(Place::First) => Some(Longer::First),
            Some(_) => Some(Longer::Second),
            None => None,
        },
    }
}
