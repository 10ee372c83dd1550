//! The command `plot`: draws a chart of the differences of two streams, frame by frame.
ghost use Rattle.std.specs.Prelude.{◌≡◌, ◌+◌, ◌-◌, ◌^◌, min, unwrap_or};
ghost use Rattle.yuv_system.specs.Options.{plot_of};
ghost use Rattle.yuv_words.specs.declared.command.CommandName.TheVariants.{Plot};

use crate::compare::{samples_of, warn_of_headers};
use crate::measures::Scale;
use std::alloc::{AllocError, Global};
use std::io::{self, Write};
use std::rt::Files;
use std::time::Clock;
use v_frame::frame::Frame;
use v_frame::pixel::Pixel;
use v_frame_chart::{Chart, Series, push_text, svg};
use v_frame_measures::{FrameMeasure, frame_ssim, frames_have_one_size};
use v_frame_streams::{
    CompareOptions, FrameObserver, Place, PlaneSums, Progress, Source, StreamError, check_formats,
    compare_streams,
};
use yuv_files::{FileKind, SystemFile};
use yuv_system::{
    Fault, Output, Status, System, Target, begin, expected_frames, is_broken, no_memory, open_file,
    taken_of_both, test_compared, test_target, write_formats, write_text,
};
use yuv_words::{Call, Options};

/// Draws a chart of the differences of two streams, frame by frame.
///
/// # Errors
///
/// A [`Fault`] if a stream can't be read, if the streams can't be compared, if no frames were compared, or if the chart can't be
/// written.
pub fn do_plot<H, I, O, E>(
    system: &mut System<'_, H, I, O, E>,
    call: &Call<'_>,
) -> Result<Status, Fault>
where
    H: Files + AllocGlobal + Clock,
    H::File: SystemFile,
    I: io::Read + Drop,
    O: io::Write,
    E: io::Write,
    requires { call.now.name ≡ Plot }
{
    let (first, second, to) = (call.first, call.second, call.third);
    let options = &call.options;
    let rt = system.rt;
    let target = Target {
        name: to,
        written: FileKind::Svg,
        inputs: &[first, second],
        is_forced: options.force,
    };
    test_target(rt, &target)?;
    let mut file = open_file(rt, first, Place::First, &mut system.input)?;
    let len = file.len();
    let mut one = begin(system, first, &mut file, options.raw)?;
    let mut other_file = open_file(rt, second, Place::Second, &mut system.input)?;
    let mut other = begin(system, second, &mut other_file, options.raw_second)?;
    write_formats(system.progress.out(), one.header(), other.header());
    check_formats(&one, &other)?;
    warn_of_headers(system.progress.out(), options, one.header(), other.header());
    system.progress.expect(expected_frames(&one, len));
    let progress = &mut system.progress;
    let names = (first, second);
    let (text, broken) = drawn(rt.alloc(), &mut one, &mut other, options, names, progress)?;
    system.progress.end();
    let mut output = Output::open(rt, &target, &mut system.output, system.progress.out())?;
    let done = write_drawn(&mut output, text.as_str());
    drop(text);
    let status = output.settle(rt, done)?;
    match broken {
        Some(error) => Err(Fault::Stream(error)),
        None => Ok(status),
    }
}

/// Writes the chart.
fn write_drawn<W: Write + Drop>(mut out: W, text: &str) -> Result<Status, Fault> {
    match write_text(&mut out, text) {
        Ok(()) => Ok(Status::Same),
        Err(error) => Err(Fault::Stream(error)),
    }
}

/// Returns the chart of the frames that the options select. If a stream breaks off, the chart has the frames before, and the
/// error is returned with it.
fn drawn<R: io::Read, S: io::Read, P: Progress>(
    alloc: Global,
    first: &mut Source<R>,
    second: &mut Source<S>,
    options: &Options,
    names: (&str, &str),
    progress: &mut P,
) -> Result<(String, Option<StreamError>), Fault> {
    let mut curves = Curves::new(
        alloc,
        first_frame(options),
        Scale {
            pixels: samples_of(first.header()),
            bit_depth: first.header().color.bit_depth(),
            exact: false,
        },
    );
    let taken = frames_taken(options);
    let mut are_same = false;
    let broken = match compare_streams(alloc, first, second, &taken, &mut curves, progress) {
        Ok(found) => {
            test_compared(&found, first, second, &taken)?;
            are_same = found.shows_the_same();
            None
        }
        Err(error) => {
            if !is_broken(&error) || curves.psnr.y.is_empty() {
                return Err(Fault::Stream(error));
            }
            Some(error)
        }
    };
    match curves.chart(alloc, names, are_same) {
        Ok(text) => Ok((text, broken)),
        Err(_) => Err(Fault::Stream(no_memory())),
    }
}

/// Returns the options for reading both streams.
fn frames_taken(options: &Options) -> CompareOptions
    ensures { result ≡ plot_of options.now }
{
    taken_of_both(
        options.skip,
        options.skip_second,
        options.count,
        options.max_pixels,
    )
}

/// Returns the number of the first frame that is compared, counted from 1 in the first stream.
fn first_frame(options: &Options) -> u64
    ensures { result ≡ min (unwrap_or options.now.skip 0 + 1) (2 ^ 64 - 1) }
{
    options.skip.unwrap_or(0).saturating_add(1)
}

/// The values of each frame, plane by plane.
#[derive(Drop)]
struct PlaneCurves {
    y: Vec<f64>,
    u: Vec<f64>,
    v: Vec<f64>,
}

impl PlaneCurves {
    /// Returns an empty list of values for each plane.
    fn new(alloc: Global) -> Self {
        PlaneCurves {
            y: Vec::new(alloc),
            u: Vec::new(alloc),
            v: Vec::new(alloc),
        }
    }

    /// Adds the values of a frame.
    fn add(&mut self, values: &FrameMeasure) -> Result<(), AllocError> {
        self.y.push(values.y)?;
        if let Some(u) = values.u {
            self.u.push(u)?;
        }
        if let Some(v) = values.v {
            self.v.push(v)?;
        }
        Ok(())
    }

    /// Returns the chart of the planes that have values.
    fn chart<'a>(
        &'a self,
        alloc: Global,
        title: &'a str,
        unit: &'a str,
        first: u64,
    ) -> Result<String, AllocError> {
        let (y, u, v) = (self.y.as_slice(), self.u.as_slice(), self.v.as_slice());
        let luma = Series {
            name: "Y",
            values: y,
        };
        let series = [
            luma,
            Series {
                name: "U",
                values: u,
            },
            Series {
                name: "V",
                values: v,
            },
        ];
        let planes = if u.is_empty() { 1 } else { 3 };
        let chart = Chart {
            title,
            unit,
            first,
            series: &series[..planes],
        };
        svg(alloc, &chart)
    }
}

/// The curves of the chart: ratios, and structural similarities if the frames are large enough.
#[derive(Drop)]
struct Curves {
    first: u64,
    scale: Scale,
    psnr: PlaneCurves,
    ssim: PlaneCurves,
}

impl Curves {
    /// Returns curves without frames.
    fn new(alloc: Global, first: u64, scale: Scale) -> Self {
        Curves {
            first,
            scale,
            psnr: PlaneCurves::new(alloc),
            ssim: PlaneCurves::new(alloc),
        }
    }

    /// Adds the values of two frames.
    fn add<T: Pixel>(
        &mut self,
        first: &Frame<T>,
        second: &Frame<T>,
        errors: &PlaneSums,
    ) -> Result<(), AllocError> {
        let measures = self.scale.measures(errors, 1, None);
        self.psnr.add(&measures.psnr)?;
        if !frames_have_one_size(first, second) {
            return Ok(());
        }
        match frame_ssim(first, second) {
            Some(ssim) => self.ssim.add(&ssim),
            None => Ok(()),
        }
    }

    /// Returns a picture with the charts one below the other, and the names of both files above them.
    fn chart(
        &self,
        alloc: Global,
        (first, second): (&str, &str),
        are_same: bool,
    ) -> Result<String, AllocError> {
        let psnr = self.psnr.chart(alloc, "PSNR", "dB", self.first)?;
        let mut text = String::new(alloc);
        if self.ssim.y.is_empty() {
            push_head(&mut text, 220)?;
        } else {
            push_head(&mut text, 420)?;
        }
        push_names(alloc, &mut text, first, second, are_same)?;
        text.push_str("<g transform=\"translate(0 20)\">\n")?;
        text.push_str(psnr.as_str())?;
        text.push_str("</g>\n")?;
        if !self.ssim.y.is_empty() {
            let ssim = self.ssim.chart(alloc, "SSIM", "", self.first)?;
            text.push_str("<g transform=\"translate(0 220)\">\n")?;
            text.push_str(ssim.as_str())?;
            text.push_str("</g>\n")?;
        }
        text.push_str("</svg>\n")?;
        Ok(text)
    }
}

/// Appends the beginning of a white picture that is `height` pixels high.
fn push_head(text: &mut String, height: usize) -> Result<(), AllocError> {
    write!(
        text,
        "<svg xmlns=\"http://www.w3.org/2000/svg\" width=\"960\" height=\"{height}\" viewBox=\"0 0 960 {height}\">\n\
         <rect width=\"960\" height=\"{height}\" fill=\"#ffffff\"/>\n"
    )
}

/// Appends the names of two files, and whether their frames are equal.
fn push_names(
    alloc: Global,
    text: &mut String,
    first: &str,
    second: &str,
    are_same: bool,
) -> Result<(), AllocError> {
    let one = shortened(alloc, first)?;
    let other = shortened(alloc, second)?;
    let (one, other) = (one.as_str(), other.as_str());
    let names = if are_same {
        format!(in alloc; "{one} and {other}: all frames are identical")?
    } else {
        format!(in alloc; "{one} and {other}")?
    };
    push_text(
        text,
        "x=\"76\" y=\"15\" font-family=\"sans-serif\" font-size=\"13\" fill=\"#333333\"",
        names.as_str(),
    )
}

/// Returns a name with at most 48 characters. A longer name is replaced by its first and last characters with three dots between
/// them.
fn shortened(alloc: Global, name: &str) -> Result<String, AllocError> {
    let count = name.chars().count();
    let mut text = String::new(alloc);
    for (k, letter) in name.chars().enumerate() {
        if count <= 48 || k < 22 || k >= count - 23 {
            text.push(letter)?;
        } else if k == 22 {
            text.push_str("...")?;
        }
    }
    Ok(text)
}

impl<T: Pixel> FrameObserver<T> for Curves {
    fn take(
        &mut self,
        first: &Frame<T>,
        second: &Frame<T>,
        errors: &PlaneSums,
    ) -> Result<(), StreamError> {
        match self.add(first, second, errors) {
            Ok(()) => Ok(()),
            Err(_) => Err(no_memory()),
        }
    }
}
