//! The frame count that is shown while a stream is read.
ghost use Rattle.std.specs.Prelude.{◌≡◌};
ghost use Rattle.yuv_system.specs.ProgressLines.{TakesCount};

use crate::shown::Shown;
use std::time::{Clock, Instant};
use std::{fmt, io};
use v_frame_streams::Progress;

/// The shortest time between two counts that are shown, in milliseconds.
const PAUSE: u128 = 100;

/// A line on standard error with the number of frames that are done.
#[derive(Drop)]
pub struct ProgressLine<'a, H, E> {
    clock: &'a H,
    out: E,
    shown: Shown,
    expected: Option<u64>,
    begin: Option<Instant>,
    frames: u64,
    last_shown: u128,
    /// The number of characters of the line that is shown.
    length: usize,
}

impl<'a, H: Clock, E: io::Write> ProgressLine<'a, H, E> {
    /// Returns a line that shows the counts that `shown` selects.
    pub fn new(clock: &'a H, out: E, shown: Shown) -> Self
        ensures shown { result.shown ≡ shown }
        ensures out { result.out ≡ out }
    {
        ProgressLine {
            clock,
            out,
            shown,
            expected: None,
            begin: Instant::now(clock).ok(),
            frames: 0,
            last_shown: 0,
            length: 0,
        }
    }

    /// Sets the number of frames that are expected, or `None` if it is unknown.
    pub fn expect(&mut self, frames: Option<u64>)
        ensures { self.new ≡ record self.old { expected = frames } }
    {
        self.expected = frames;
    }

    /// Returns the writer to which the line is written.
    pub fn out(&mut self) -> &mut E {
        &mut self.out
    }

    /// Shows the last count, and ends the line. No counts are shown afterward. If no counts are shown, this has no effect.
    pub fn end(&mut self)
        ensures hidden { self.new.shown ≡ Shown.NoCount }
        ensures same { self.old.shown ≡ Shown.NoCount → self.new ≡ self.old }
    {
        if matches!(self.shown, Shown::NoCount) {
            return;
        }
        let passed = self.passed();
        self.write_line(passed);
        let _ = self.out.write_all(b"\n");
        self.shown = Shown::NoCount;
    }

    /// Returns the milliseconds since the line was created, or 0 if the clock can't be read.
    fn passed(&self) -> u128 {
        match self.begin {
            Some(begin) => match begin.elapsed(self.clock) {
                Ok(passed) => passed.as_millis(),
                Err(_) => 0,
            },
            None => 0,
        }
    }

    /// Records a count. Shows it if enough time has passed since the last count that was shown.
    fn show_each(&mut self, frames: u64)
        ensures shown { self.new.shown ≡ self.old.shown }
        ensures frames { self.new.frames ≡ frames }
    {
        self.frames = frames;
        let passed = self.passed();
        if passed.saturating_sub(self.last_shown) < PAUSE {
            return;
        }
        self.last_shown = passed;
        self.write_line(passed);
    }

    /// Shows the count in place of the last one, which is overwritten completely. If writing fails, the error is ignored.
    fn write_line(&mut self, passed: u128)
        ensures shown { self.new.shown ≡ self.old.shown }
        ensures frames { self.new.frames ≡ self.old.frames }
    {
        let (frames, percent, before) = (self.frames, self.percent(), self.length);
        let mut line = ShownText {
            out: &mut self.out,
            length: 0,
        };
        let _ = write_count(&mut line, frames, percent, passed);
        let length = line.length;
        write_blanks(&mut self.out, before.saturating_sub(length));
        self.length = length;
    }

    /// Returns the percentage of frames that are done, or `None` if the number of expected frames is unknown or 0.
    fn percent(&self) -> Option<u128> {
        match self.expected {
            Some(expected) if expected > 0 => {
                Some((u128::from(self.frames) * 100 / u128::from(expected)).min(100))
            }
            _ => None,
        }
    }
}

impl<H: Clock, E: io::Write> Progress for ProgressLine<'_, H, E> {
    ghost shows = { λ old new frames. TakesCount old.shown old new frames };

    fn show(&mut self, frames: u64) {
        match self.shown {
            Shown::NoCount => {}
            Shown::LastCount => self.frames = frames,
            Shown::EachCount => self.show_each(frames),
        }
    }
}

/// Writes `count` spaces. If writing fails, the error is ignored.
fn write_blanks<E: io::Write>(out: &mut E, count: usize) {
    for _ in 0..count {
        let _ = out.write_all(b" ");
    }
}

/// A line on a terminal that counts its characters. All of them are ASCII.
#[derive(Drop)]
struct ShownText<'a, E> {
    out: &'a mut E,
    length: usize,
}

impl<E: io::Write> fmt::Write for ShownText<'_, E> {
    fn write_str(&mut self, text: &str) -> fmt::Result {
        self.length = self.length.saturating_add(text.len());
        match self.out.write_all(text.as_bytes()) {
            Ok(()) => Ok(()),
            Err(_) => Err(fmt::Error),
        }
    }
}

/// Writes a count over the current contents of the line.
fn write_count<W: fmt::Write>(
    line: &mut W,
    frames: u64,
    percent: Option<u128>,
    passed: u128,
) -> fmt::Result {
    write!(line, "\r{frames} frames")?;
    if let Some(percent) = percent {
        write!(line, ", {percent} %")?;
    }
    if passed > 0 {
        let rate = u128::from(frames) * 1000 / passed;
        write!(line, ", {rate} frames/s")?;
    }
    Ok(())
}
