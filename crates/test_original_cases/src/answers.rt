//! The text of results.

use crate::printer::Printer;
use std::fmt::Display;
use v_frame::plane::CopyError;
use v_frame::replay::{Answer, Drawn};
use v_frame::sequence::Sequence;

/// Prints one line for each result.
pub fn print_answers<T: Display>(out: &mut Printer, answers: &[Answer<T>]) {
    for answer in answers {
        match answer {
            Answer::NoPlane => out.text("NoPlane"),
            Answer::OutsideRectangle => out.text("OutsideRectangle"),
            Answer::Number(number) => out.named("Number", number),
            Answer::RowShown(row) => {
                out.text("RowShown");
                print_row(out, row);
            }
            Answer::PixelShown(pixel) => out.named("PixelShown", pixel),
            Answer::Copied(Ok(())) => out.text("Copied Ok"),
            Answer::Copied(Err(CopyError::DataLength { expected, found })) => {
                out.named("Copied DataLength", expected);
                out.item(found);
            }
            Answer::Copied(Err(CopyError::InvalidStride { stride, width })) => {
                out.named("Copied InvalidStride", stride);
                out.item(width);
            }
            Answer::RowsWalked { total, drawn } => print_rows(out, *total, drawn.as_slice()),
            Answer::PixelsWalked { total, drawn } => {
                print_items(out, "PixelsWalked", *total, drawn.as_slice());
            }
            Answer::BytesWalked { total, drawn } => {
                print_items(out, "BytesWalked", *total, drawn.as_slice());
            }
        }
        out.end_line();
    }
}

/// Prints a row, or a dash if there is none.
fn print_row<T: Display>(out: &mut Printer, row: &Option<Sequence<T>>) {
    match row {
        Some(row) => out.list(row.as_slice()),
        None => out.text(" -"),
    }
}

/// Prints the result of an iteration over rows: the rows that it yielded, and the number of remaining rows after each.
fn print_rows<T: Display>(out: &mut Printer, total: usize, drawn: &[Drawn<Sequence<T>>]) {
    out.named("RowsWalked", &total);
    out.item(&drawn.len());
    for Drawn { item, left } in drawn {
        print_row(out, item);
        out.item(left);
    }
}

/// Prints the result of an iteration over pixels or bytes: the items that it yielded, and the number of remaining items after
/// each.
fn print_items<T: Display>(out: &mut Printer, name: &str, total: usize, drawn: &[Drawn<T>]) {
    out.named(name, &total);
    out.item(&drawn.len());
    for Drawn { item, left } in drawn {
        match item {
            Some(item) => out.item(item),
            None => out.text(" -"),
        }
        out.item(left);
    }
}
