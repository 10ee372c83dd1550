//! Tests of the program: its output, and its errors.

mod lengths;
mod runs;
mod texts;
