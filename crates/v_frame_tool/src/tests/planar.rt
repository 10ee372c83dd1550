//! Tests of planar bytes: frames that are read from and written to streams with different habits.

mod calls;
mod reads;
mod writes;
