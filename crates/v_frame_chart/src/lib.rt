//! Charts of numbers over the frames of a stream, as SVG pictures.
//!
//! [`write_svg`] draws one or several [`Series`], with axes, a light grid and a legend. If there are more values than columns of
//! pixels, each column shows a band from the least to the greatest value and the mean as a line, so that 30, 3,000 and 100,000
//! frames are readable. A value that is infinite or not a number leaves a gap in the line. A value of plus infinity, as the PSNR
//! of identical pictures is, has a mark at the top.
#![tactic(auto)]

mod axes;
mod columns;
mod decimals;
mod drawing;
mod endless;
mod fitting;
mod frames;
mod grid;
mod labels;
mod lines;
mod marks;
mod places;
mod room;
mod scale;
mod ticks;
mod words;

pub use columns::{Summary, summaries};
pub use drawing::{Chart, Series, svg, write_svg};
pub use words::push_text;
