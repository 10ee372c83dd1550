//! Tests of planes: geometries, visible pixels, and writes.

mod byte_copies;
mod clones;
mod copies;
mod debugs;
mod drops;
mod geometry;
mod held_items;
mod iterators;
mod pixels;
mod rows_of_bytes;
mod subsampling;
mod writes;
mod writing_iterators;
