//! Reports on two streams that are compared.
ghost use Rattle.std.specs.Prelude.{◌≡◌, ◌≢◌, ◌==◌, ◌+◌, ◌-◌, ◌^◌, ◌++◌, is_some, min, string_bytes, MatchBool, OnOk};
ghost use Rattle.yuv_reports.specs.Frames.{end_of_report, no_frames, AppendsNext};
ghost use Rattle.yuv_reports.specs.Sums.{begin_of};
ghost use Rattle.yuv_reports.specs.Texts.{EndsWith};

use crate::pool::Pool;
use crate::{csv, json, lines};
use std::alloc::{AllocError, Global};
use v_frame_formats::{PixelDifference, PlaneSums};
use v_frame_measures::FrameMeasure;

/// The form of a report.
#[derive(Debug, Clone, Copy, PartialEq, Eq)]
pub enum ReportForm {
    /// Lines for people.
    Lines,
    /// Comma-separated values: a row for each frame.
    Csv,
    /// One JSON object.
    Json,
}

/// The measures of two frames, or of all frames of two streams.
#[derive(Clone, Copy)]
pub struct FrameMeasures {
    /// The mean squared errors.
    pub mse: FrameMeasure,
    /// The peak signal-to-noise ratios, in decibels. Infinite if no sample differs.
    pub psnr: FrameMeasure,
    /// The structural similarities, if they are measured.
    pub ssim: Option<FrameMeasure>,
    /// The sums of squared errors, if they are reported.
    pub sums: Option<PlaneSums>,
}

/// Which of two streams has more frames.
#[derive(Clone, Copy)]
pub enum Longer {
    /// The first one.
    First,
    /// The second one.
    Second,
}

/// The report on all frames.
#[derive(Clone, Copy)]
pub struct Comparison {
    /// The number of frames that were compared.
    pub frames: u64,
    /// The measures of all frames together: the mean of the errors, and the ratio of this mean.
    pub measures: FrameMeasures,
    /// The number of the first frame that differs, and the first sample in it that differs.
    pub difference: Option<(u64, PixelDifference)>,
    /// The stream that has more frames, if one has.
    pub longer: Option<Longer>,
}

/// A report that grows frame by frame.
#[derive(Drop)]
pub struct Report {
    form: ReportForm,
    lists_frames: bool,
    frames: u64,
    psnr: Pool,
    ssim: Pool,
}

impl Report {
    /// Returns a report on no frames. If `lists_frames` is true, each frame is listed.
    pub fn new(form: ReportForm, lists_frames: bool) -> Self
        ensures form { result.form ≡ form }
        ensures lists_frames { result.lists_frames ≡ lists_frames }
        ensures frames { result.frames ≡ 0 }
    {
        Report {
            form,
            lists_frames,
            frames: 0,
            psnr: Pool::new(),
            ssim: Pool::new(),
        }
    }

    /// Appends the beginning of the report. The planes and the measures in `measures` determine the columns of a table.
    ///
    /// # Errors
    ///
    /// Returns [`AllocError`] if there is not enough memory for the text.
    pub fn begin(&self, text: &mut String, measures: &FrameMeasures) -> Result<(), AllocError>
        ensures { OnOk result (string_bytes text.new ≡ string_bytes text.old
            ++ begin_of self.now.form (is_some measures.now.ssim) (is_some measures.now.sums)) }
    {
        match self.form {
            ReportForm::Lines => Ok(()),
            ReportForm::Csv => csv::push_head(text, measures),
            ReportForm::Json => text.push_str("{\n  \"frames\": ["),
        }
    }

    /// Counts a frame, and appends it with its number if frames are listed.
    ///
    /// # Errors
    ///
    /// Returns [`AllocError`] if there is not enough memory for the text.
    pub fn frame(
        &mut self,
        alloc: Global,
        text: &mut String,
        number: u64,
        measures: &FrameMeasures,
    ) -> Result<(), AllocError>
        ensures form { self.new.form ≡ self.old.form }
        ensures lists_frames { self.new.lists_frames ≡ self.old.lists_frames }
        ensures counted { OnOk result (self.new.frames ≡ min (self.old.frames + 1) (2 ^ 64 - 1)) }
        ensures said { OnOk result (MatchBool self.old.lists_frames
            (AppendsNext self.old.form (self.old.frames == 0) number measures.now.sums
            (string_bytes text.old) (string_bytes text.new))
            (string_bytes text.new ≡ string_bytes text.old)) }
    {
        self.psnr.add(number, measures.psnr.all);
        if let Some(ssim) = &measures.ssim {
            self.ssim.add(number, ssim.all);
        }
        if self.lists_frames {
            self.push_frame(alloc, text, number, measures)?;
        }
        self.frames = self.frames.saturating_add(1);
        Ok(())
    }

    /// Appends a frame.
    fn push_frame(
        &self,
        alloc: Global,
        text: &mut String,
        number: u64,
        measures: &FrameMeasures,
    ) -> Result<(), AllocError>
        ensures { OnOk result (AppendsNext self.now.form (self.now.frames == 0) number
            measures.now.sums (string_bytes text.old) (string_bytes text.new)) }
    {
        match self.form {
            ReportForm::Lines => lines::push_frame(alloc, text, number, measures),
            ReportForm::Csv => csv::push_frame(alloc, text, number, measures),
            ReportForm::Json => {
                text.push_str(if self.frames == 0 { "\n" } else { ",\n" })?;
                json::push_frame(alloc, text, number, measures)
            }
        }
    }

    /// Appends the report on all frames. In a table it appends nothing, because each row is a frame.
    ///
    /// # Errors
    ///
    /// Returns [`AllocError`] if there is not enough memory for the text.
    pub fn end(&self, text: &mut String, found: &Comparison) -> Result<(), AllocError>
        ensures ended { OnOk result (EndsWith (end_of_report self.now.form found.now)
            (string_bytes text.new)) }
        ensures csv { self.now.form ≡ ReportForm.Csv
            → string_bytes text.new ≡ string_bytes text.old }
    {
        match self.form {
            ReportForm::Lines => lines::push_comparison(text, found),
            ReportForm::Csv => Ok(()),
            ReportForm::Json => {
                let lists = self.lists_frames && self.frames > 0;
                text.push_str(if lists { "\n  ],\n" } else { "],\n" })?;
                json::push_summary(text, found, &self.psnr, &self.ssim)
            }
        }
    }

    /// Appends the report on the frames before the one that cannot be read. In an object the member `error` states the reason. If there
    /// is no frame, no line is appended, and the list of an object is empty.
    ///
    /// # Errors
    ///
    /// Returns [`AllocError`] if there is not enough memory for the text.
    pub fn end_broken(
        &self,
        text: &mut String,
        found: &Comparison,
        error: &str,
    ) -> Result<(), AllocError>
        ensures csv { self.now.form ≡ ReportForm.Csv
            → string_bytes text.new ≡ string_bytes text.old }
        ensures nothing { self.now.form ≡ ReportForm.Lines → found.now.frames ≡ 0
            → string_bytes text.new ≡ string_bytes text.old }
        ensures ended { self.now.form ≡ ReportForm.Lines → found.now.frames ≢ 0
            → OnOk result (EndsWith (end_of_report self.now.form found.now) (string_bytes text.new)) }
        ensures closed { self.now.form ≡ ReportForm.Json → found.now.frames ≢ 0
            → OnOk result (EndsWith (end_of_report self.now.form found.now) (string_bytes text.new)) }
        ensures empty { self.now.form ≡ ReportForm.Json → found.now.frames ≡ 0
            → OnOk result (EndsWith no_frames (string_bytes text.new)) }
    {
        if self.form == ReportForm::Lines && found.frames == 0 {
            return Ok(());
        }
        if self.form != ReportForm::Json {
            return self.end(text, found);
        }
        let lists = self.lists_frames && self.frames > 0;
        text.push_str(if lists { "\n  ],\n" } else { "],\n" })?;
        json::push_error(text, error)?;
        if found.frames == 0 {
            return json::push_no_frames(text);
        }
        json::push_summary(text, found, &self.psnr, &self.ssim)
    }
}
