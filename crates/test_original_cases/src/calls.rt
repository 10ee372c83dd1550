//! The calls of a case.

use crate::fault::LineFault;
use crate::input::Input;
use crate::lists::Entry;
use crate::value::Value;
use v_frame::replay::VisibleCall;

/// The names of the calls.
#[derive(Clone, Copy)]
enum Name {
    Read(ReadName),
    Write(WriteName),
}

/// The names of the calls that read.
#[derive(Clone, Copy)]
enum ReadName {
    Width,
    Height,
    Row,
    Pixel,
    Rows,
    Pixels,
    ByteData,
}

/// The names of the calls that write.
#[derive(Clone, Copy)]
enum WriteName {
    RowMut,
    PixelMut,
    RowsMut,
    PixelsMut,
    CopyFromSlice,
    CopyFromU8Slice,
    CopyFromU8SliceWithStride,
}

/// The spellings of the names.
const NAMES: [(&str, Name); 14] = [
    ("Width", Name::Read(ReadName::Width)),
    ("Height", Name::Read(ReadName::Height)),
    ("Row", Name::Read(ReadName::Row)),
    ("Pixel", Name::Read(ReadName::Pixel)),
    ("Rows", Name::Read(ReadName::Rows)),
    ("Pixels", Name::Read(ReadName::Pixels)),
    ("ByteData", Name::Read(ReadName::ByteData)),
    ("RowMut", Name::Write(WriteName::RowMut)),
    ("PixelMut", Name::Write(WriteName::PixelMut)),
    ("RowsMut", Name::Write(WriteName::RowsMut)),
    ("PixelsMut", Name::Write(WriteName::PixelsMut)),
    ("CopyFromSlice", Name::Write(WriteName::CopyFromSlice)),
    ("CopyFromU8Slice", Name::Write(WriteName::CopyFromU8Slice)),
    (
        "CopyFromU8SliceWithStride",
        Name::Write(WriteName::CopyFromU8SliceWithStride),
    ),
];

/// A call is a line by itself. An unknown call is a fault, and is read as an arbitrary call.
impl<T: Value> Entry for VisibleCall<T> {
    fn read(input: &mut Input<'_>) -> Self {
        input.next_line();
        let name = input.choice(&NAMES);
        let plane = input.size();
        match name {
            Some(Name::Read(name)) => read_reading(input, name, plane),
            Some(Name::Write(name)) => read_writing(input, name, plane),
            None => {
                input.keep(LineFault::UnknownCall);
                VisibleCall::Width { plane }
            }
        }
    }
}

/// Reads the arguments of a call that reads.
fn read_reading<T: Value>(input: &mut Input<'_>, name: ReadName, plane: usize) -> VisibleCall<T> {
    match name {
        ReadName::Width => VisibleCall::Width { plane },
        ReadName::Height => VisibleCall::Height { plane },
        ReadName::Row => VisibleCall::Row {
            plane,
            y: input.size(),
        },
        ReadName::Pixel => VisibleCall::Pixel {
            plane,
            x: input.size(),
            y: input.size(),
        },
        ReadName::Rows => VisibleCall::Rows {
            plane,
            draws: input.list(),
        },
        ReadName::Pixels => VisibleCall::Pixels {
            plane,
            draws: input.list(),
        },
        ReadName::ByteData => VisibleCall::ByteData {
            plane,
            draws: input.list(),
        },
    }
}

/// Reads the arguments of a call that writes.
fn read_writing<T: Value>(input: &mut Input<'_>, name: WriteName, plane: usize) -> VisibleCall<T> {
    match name {
        WriteName::RowMut => VisibleCall::RowMut {
            plane,
            y: input.size(),
            writes: input.list(),
        },
        WriteName::PixelMut => VisibleCall::PixelMut {
            plane,
            x: input.size(),
            y: input.size(),
            value: input.pixel(),
        },
        WriteName::RowsMut => VisibleCall::RowsMut {
            plane,
            draws: input.list(),
        },
        WriteName::PixelsMut => VisibleCall::PixelsMut {
            plane,
            draws: input.list(),
        },
        WriteName::CopyFromSlice => VisibleCall::CopyFromSlice {
            plane,
            source: input.source(),
        },
        WriteName::CopyFromU8Slice => VisibleCall::CopyFromU8Slice {
            plane,
            source: input.source(),
        },
        WriteName::CopyFromU8SliceWithStride => VisibleCall::CopyFromU8SliceWithStride {
            plane,
            stride: input.size(),
            source: input.source(),
        },
    }
}
