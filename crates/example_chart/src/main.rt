//! Writes a chart of two encodes to standard output: the PSNR of each of twelve frames. One frame was encoded without
//! error, and one was not compared.
#![tactic(auto)]

use std::io;
use v_frame_chart::{Chart, Series, write_svg};

fn main(rt: HostRuntime) -> io::Result<()> {
    let slow = [
        41.25,
        40.75,
        41.5,
        f64::INFINITY,
        43.0,
        42.5,
        42.25,
        41.75,
        41.0,
        41.25,
        40.5,
        40.75,
    ];
    let fast = [
        38.5,
        38.0,
        38.25,
        39.0,
        39.75,
        f64::NAN,
        38.75,
        f64::NAN,
        37.5,
        37.25,
        37.0,
        36.5,
    ];
    let series = [
        Series {
            name: "slow",
            values: &slow,
        },
        Series {
            name: "fast & <small>",
            values: &fast,
        },
    ];
    let chart = Chart {
        title: "Two encodes of one clip",
        unit: "PSNR (dB)",
        first: 1,
        series: &series,
    };
    write_svg(rt.alloc(), &mut io::writer(&rt), &chart)
}
