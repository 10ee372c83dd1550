//! Pictures, a chart and the text of a frame, written to a buffer of fixed length. If an allocation fails, nothing is written.

use crate::counts;
use crate::show::show;
use v_frame::plane::{PlaneGeometry, PlaneRef, RowsRef};
use v_frame_chart::{Chart, Series, summaries, svg, write_svg};
use v_frame_planar::Counted;
use v_frame_png::{ColorSpace, Compression, Header, PngWriter, Samples, write_png, write_png_with};
use v_frame_tool_run::run::run;

/// Runs the case with this name, in this module or a later one. Returns `None` if an allocation of its preparation fails.
pub fn seen(rt: &HostRuntime, name: &str) -> Option<()> {
    match name {
        "png_of_rows" => png_of_rows(rt, Compression::Stored)?,
        "png_of_compressed_rows" => png_of_rows(rt, Compression::Fixed)?,
        "png_writer" => png_writer(rt, Compression::Stored),
        "png_writer_that_compresses" => png_writer(rt, Compression::Fixed),
        "png_of_words" => png_of_words(rt, false)?,
        "png_of_a_plane_of_words" => png_of_words(rt, true)?,
        "columns_of_a_chart" => columns_of_a_chart(rt),
        "text_of_a_chart" => chart_into(rt, false),
        "write_chart" => chart_into(rt, true),
        "run_into_a_fixed_slice" => run_into_a_fixed_slice(rt),
        _ => counts::seen(rt, name)?,
    }
    Some(())
}

/// Returns the header of a picture of two by two pixels.
fn header(samples: Samples) -> Header {
    Header {
        width: 2,
        height: 2,
        samples,
        color_space: ColorSpace::Unnamed,
    }
}

/// Returns whether nothing was written.
fn is_blank(room: &[u8]) -> bool {
    room.iter().all(|byte| *byte == 0)
}

/// Writes a file of two rows of bytes.
fn png_of_rows(rt: &HostRuntime, compression: Compression) -> Option<()> {
    let rows = RowsRef::new(&[1, 2, 3, 4], 2, 2, 2)?;
    let mut room = [0; 120];
    let (alloc, out, gray) = (rt.alloc(), room.as_mut_slice(), header(Samples::Gray8));
    let written = match compression {
        Compression::Stored => write_png(alloc, out, gray, &rows),
        Compression::Fixed => write_png_with(alloc, out, gray, compression, &rows),
    };
    let left = match written {
        Ok(rest) => rest.len(),
        Err(error) => {
            show(rt, &error);
            120
        }
    };
    let (file, rest) = room.split_at(120_usize.saturating_sub(left));
    show(rt, &(file, is_blank(rest)));
    Some(())
}

/// Begins a picture.
fn png_writer(rt: &HostRuntime, compression: Compression) {
    let mut room = [0; 120];
    let (alloc, out, gray) = (rt.alloc(), room.as_mut_slice(), header(Samples::Gray8));
    let made = match compression {
        Compression::Stored => PngWriter::new(alloc, out, gray),
        Compression::Fixed => PngWriter::with_compression(alloc, out, gray, compression),
    };
    match made {
        Ok(png) => show(
            rt,
            &(png.compression(), png.rows_left(), is_blank(png.get_ref())),
        ),
        Err(error) => show(rt, &error),
    }
}

/// Writes two rows of 16-bit samples, or a plane of them. If an allocation fails, both rows are still to be written.
fn png_of_words(rt: &HostRuntime, is_plane: bool) -> Option<()> {
    let plane = PlaneRef::new(
        PlaneGeometry::unpadded(2, 2, 1, 1)?,
        &[258, 772, 1286, 1800],
    )?;
    let mut room = [0; 120];
    let gray = header(Samples::Gray16);
    let mut png = PngWriter::new(rt.alloc(), room.as_mut_slice(), gray).ok()?;
    let written = if is_plane {
        png.write_plane_u16(rt.alloc(), &plane)
    } else {
        png.write_rows_u16(rt.alloc(), &plane.as_rows_ref())
    };
    show(rt, &(written, png.rows_left(), png.get_ref().len()));
    Some(())
}

/// The values of a chart.
static VALUES: [f64; 3] = [30.0, 29.0, 32.0];

/// Prints two columns of a chart. The second one has two of the values.
fn columns_of_a_chart(rt: &HostRuntime) {
    match summaries(rt.alloc(), &VALUES, 2) {
        Ok(columns) => {
            for column in columns.iter() {
                if let Some(it) = column {
                    show(rt, &(it.least, it.mean, it.most));
                }
            }
        }
        Err(error) => show(rt, &error),
    }
}

/// Prints a chart, made as a text or in a buffer: its beginning, its end and its length. A contract states all its bytes.
fn chart_into(rt: &HostRuntime, is_written: bool) {
    let series = [Series {
        name: "Y",
        values: &VALUES,
    }];
    let chart = Chart {
        title: "a chart",
        unit: "dB",
        first: 1,
        series: &series,
    };
    if is_written {
        write_chart(rt, &chart);
    } else {
        match svg(rt.alloc(), &chart) {
            Ok(text) => show_chart(rt, text.as_bytes()),
            Err(error) => show(rt, &error),
        }
    }
}

/// Writes a chart.
fn write_chart(rt: &HostRuntime, chart: &Chart<'_>) {
    let mut room = [0; 9000];
    let mut out = room.as_mut_slice();
    let written = write_svg(rt.alloc(), &mut out, chart);
    let left = out.len();
    if let Err(error) = written {
        show(rt, &error.kind());
    }
    let (file, rest) = room.split_at(9000_usize.saturating_sub(left));
    show_chart(rt, file);
    show(rt, &is_blank(rest));
}

/// Prints the beginning and the end of a chart, and its length.
fn show_chart(rt: &HostRuntime, chart: &[u8]) {
    let ends = (chart.starts_with(b"<svg "), chart.ends_with(b"</svg>\n"));
    show(rt, &(ends, chart.len()));
}

/// Runs the program `v_frame_tool` on eight pixels, with its output in a buffer of fixed length. No write fails.
fn run_into_a_fixed_slice(rt: &HostRuntime) {
    let mut room = [0; 40];
    let mut out = Counted::new(room.as_mut_slice());
    let answer = run(rt.alloc(), &mut out, &[1, 2, 3, 4, 5, 6, 7, 8]);
    show(rt, &(answer, out.failures(), out.get_ref().len()));
    drop(out);
    show(rt, &str::from_utf8(&room));
}
