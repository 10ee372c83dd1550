//! Histograms of 16-bit values.

use crate::replays;
use crate::show::show;
use std::alloc::AllocError;
use v_frame::plane::{PlaneGeometry, PlaneRef};
use v_frame_statistics::{histogram_of_depth, rows};

/// A plane of three by two pixels, with one value twice, and border entries of 9.
static ENTRIES: [u16; 8] = [9, 0, 65535, 7, 9, 258, 7, 1];

/// Runs the case with this name, in this module or a later one. Returns `None` if an allocation of its preparation fails.
pub fn seen(rt: &HostRuntime, name: &str) -> Option<()> {
    let geometry = PlaneGeometry::new(3, 2, 1, 0, 0, 0, 1, 1)?;
    let plane = PlaneRef::new(geometry, &ENTRIES)?;
    match name {
        "histogram_of_a_plane" => show_counts(rt, histogram_of_depth(rt.alloc(), &plane, 16)),
        "histogram_of_rows" => {
            let rows = plane.as_rows_ref();
            show_counts(rt, rows::histogram_of_depth(rt.alloc(), &rows, 16));
        }
        _ => replays::seen(rt, name)?,
    }
    Some(())
}

/// Prints the length of a histogram, and the counts of the values that occur.
fn show_counts(rt: &HostRuntime, counts: Result<Vec<u64>, AllocError>) {
    match counts {
        Ok(counts) => {
            show(rt, &counts.len());
            for (value, count) in counts.iter().enumerate() {
                if *count > 0 {
                    show(rt, &(value, *count));
                }
            }
        }
        Err(error) => show(rt, &error),
    }
}
