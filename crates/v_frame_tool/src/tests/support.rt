//! Code that tests in more than one file use: fixtures, calls and results as values, comparisons, readers and writers.

pub mod buffers;
pub mod bytes;
pub mod checks;
pub mod frames;
pub mod options;
pub mod planar;
pub mod readers;
pub mod reads;
pub mod replays;
pub mod texts;
pub mod watched;
