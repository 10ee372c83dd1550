//! Tests of lists of calls that are replayed on a frame: the result of each call, and the planes afterwards.

use crate::tests::support::buffers::IN_200;
use crate::tests::support::checks::{Test, must, same};
use crate::tests::support::frames::{
    BARE, BORDERED, Layout, blank_plane, built, padded, with_buffer,
};
use crate::tests::support::replays::Call::{
    Bytes, Copy, CopyStrided, Height, Pixel, PixelMut, Pixels, PixelsMut, Row, RowMut, Rows,
    RowsMut, Width,
};
use crate::tests::support::replays::{check_calls, check_replay};
use v_frame::chroma::ChromaSubsampling::{Yuv420, Yuv422, Yuv444};
use v_frame::frame::Frame;
use v_frame::replay::Side::{Back, Front};

/// The pixels 1 to 6.
const SIX: [u8; 6] = [1, 2, 3, 4, 5, 6];

/// Two by two pixels with a border column to the right.
const COLUMN: Layout = (2, 2, [0, 1, 0, 0]);

#[test]
fn pixels_are_written_where_they_are_drawn_and_the_border_stays(rt: HostRuntime) {
    let calls = [PixelsMut(0, &[(Back, Some(9)), (Front, None), (Front, Some(7))])];
    let answers = "[PixelsWalked { total: 6, drawn: [Drawn { item: Some(6), left: 5 }, \
        Drawn { item: Some(1), left: 4 }, Drawn { item: Some(2), left: 3 }] }]";
    check_replay(&rt, BARE, &SIX, &calls, answers, &[1, 7, 3, 4, 5, 9]);
    let after = [
        200, 200, 200, 200, 200, 200, 200, 1, 7, 3, 200, 200, 200, 4, 5, 9, 200, 200,
    ];
    check_replay(&rt, BORDERED, &IN_200, &calls, answers, &after);
}

#[test]
fn reads_outside_are_answered_so(rt: HostRuntime) {
    let calls = [Width(0), Pixel(0, 3, 0), Row(0, 2), Width(1), Rows(0, &[])];
    let answers = "[Number(3), OutsideRectangle, RowShown(None), NoPlane, \
        RowsWalked { total: 2, drawn: [] }]";
    check_replay(&rt, BARE, &SIX, &calls, answers, &SIX);
}

#[test]
fn frames_that_differ_in_a_border_entry_are_unequal_and_give_the_same_pixels(rt: HostRuntime) {
    let rt = &rt;
    let mut first = with_buffer::<u8>(rt, COLUMN, &[1, 2, 0, 3, 4, 0]);
    let mut second = with_buffer::<u8>(rt, COLUMN, &[1, 2, 9, 3, 4, 0]);
    let are_equal = [first.y_plane == second.y_plane, first == second];
    same(rt, are_equal, [false; 2]);
    let calls = [Pixels(0, &[Back, Front])];
    let answers = "[PixelsWalked { total: 4, drawn: [Drawn { item: Some(4), left: 3 }, \
        Drawn { item: Some(1), left: 2 }] }]";
    check_calls(rt, &mut first, &calls, answers);
    check_calls(rt, &mut second, &calls, answers);
    drop(first);
    drop(second);
}

#[test]
fn calls_name_each_of_three_planes(rt: HostRuntime) {
    let rt = &rt;
    let mut frame = built::<u8>(rt, padded((4, 2), Yuv420, 8, [2, 2, 2, 0]));
    let calls = [Width(1), Height(2), Width(3)];
    check_calls(rt, &mut frame, &calls, "[Number(2), Number(1), NoPlane]");
    drop(frame);
}

#[test]
fn a_copy_into_one_plane_shows_in_no_other(rt: HostRuntime) {
    let rt = &rt;
    let mut frame = built::<u16>(rt, padded((2, 2), Yuv422, 16, [0; 4]));
    let calls = [Copy(2, &[65535, 1]), Row(1, 0), Row(2, 0)];
    let answers = "[Copied(Ok(())), RowShown(Some([0])), RowShown(Some([65535]))]";
    check_calls(rt, &mut frame, &calls, answers);
    drop(frame);
}

#[test]
fn a_row_is_written_where_there_is_a_value_and_up_to_its_width(rt: HostRuntime) {
    let calls = [RowMut(0, 0, &[None, Some(8), None, Some(5)])];
    let answers = "[RowShown(Some([1, 2, 3]))]";
    check_replay(&rt, BARE, &SIX, &calls, answers, &[1, 8, 3, 4, 5, 6]);
}

#[test]
fn a_row_where_both_ends_meet_is_given_and_written_once(rt: HostRuntime) {
    let calls = [RowsMut(0, &[(Front, &[Some(9)]), (Back, &[Some(7)])])];
    let answers = "[RowsWalked { total: 1, drawn: [Drawn { item: Some([3, 4]), left: 0 }, \
        Drawn { item: None, left: 0 }] }]";
    check_replay::<u8>(&rt, (2, 1, [0; 4]), &[3, 4], &calls, answers, &[9, 4]);
}

#[test]
fn copies_are_refused_or_read_back(rt: HostRuntime) {
    let calls = [
        Copy(0, &[1, 2, 3, 4, 5]),
        Copy(0, &SIX),
        Pixel(0, 2, 1),
        Pixel(0, 3, 0),
        Row(0, 2),
        Width(1),
    ];
    let answers = "[Copied(Err(DataLength { expected: 6, found: 5 })), Copied(Ok(())), \
        PixelShown(6), OutsideRectangle, RowShown(None), NoPlane]";
    check_replay(&rt, BARE, &[0; 6], &calls, answers, &SIX);
}

#[test]
fn a_pixel_is_written_beside_any_border(rt: HostRuntime) {
    let calls = [Row(0, 0), PixelMut(0, 1, 1, 8), Row(0, 1)];
    let answers = "[RowShown(Some([1, 2])), PixelShown(4), RowShown(Some([3, 8]))]";
    let [zero, nine] = [[1, 2, 0, 3, 4, 0], [1, 2, 9, 3, 4, 0]];
    check_replay::<u8>(&rt, COLUMN, &zero, &calls, answers, &[1, 2, 0, 3, 8, 0]);
    check_replay::<u8>(&rt, COLUMN, &nine, &calls, answers, &[1, 2, 9, 3, 8, 0]);
}

#[test]
fn pixels_and_rows_are_drawn_from_both_ends_and_past_the_last(rt: HostRuntime) {
    let calls = [
        Pixels(0, &[Front, Back, Back, Back, Front, Front, Back]),
        Rows(0, &[Back, Front, Back]),
    ];
    let answers = "[PixelsWalked { total: 6, drawn: [Drawn { item: Some(1), left: 5 }, \
        Drawn { item: Some(6), left: 4 }, Drawn { item: Some(5), left: 3 }, \
        Drawn { item: Some(4), left: 2 }, Drawn { item: Some(2), left: 1 }, \
        Drawn { item: Some(3), left: 0 }, Drawn { item: None, left: 0 }] }, \
        RowsWalked { total: 2, drawn: [Drawn { item: Some([4, 5, 6]), left: 1 }, \
        Drawn { item: Some([1, 2, 3]), left: 0 }, Drawn { item: None, left: 0 }] }]";
    check_replay(&rt, BARE, &SIX, &calls, answers, &SIX);
}

#[test]
fn bytes_of_words_are_drawn_low_first_from_the_front_and_high_first_from_the_back(rt: HostRuntime) {
    let rt = &rt;
    let calls = [Bytes(0, &[Front, Back, Front])];
    let answers = "[BytesWalked { total: 2, drawn: [Drawn { item: Some(2), left: 1 }, \
        Drawn { item: Some(1), left: 0 }, Drawn { item: None, left: 0 }] }]";
    check_replay::<u16>(rt, (1, 1, [0; 4]), &[0x0102], &calls, answers, &[0x0102]);
    let calls = [Bytes(0, &[Front, Back, Front, Back, Back])];
    let answers = "[BytesWalked { total: 4, drawn: [Drawn { item: Some(2), left: 3 }, \
        Drawn { item: Some(3), left: 2 }, Drawn { item: Some(1), left: 1 }, \
        Drawn { item: Some(4), left: 0 }, Drawn { item: None, left: 0 }] }]";
    let words = [0x0102, 0x0304];
    check_replay::<u16>(rt, (2, 1, [0; 4]), &words, &calls, answers, &words);
}

#[test]
fn nothing_is_written_past_the_last_pixel(rt: HostRuntime) {
    let calls = [PixelsMut(
        0,
        &[
            (Front, Some(1)),
            (Back, Some(2)),
            (Back, Some(3)),
            (Back, Some(4)),
            (Front, Some(5)),
        ],
    )];
    let answers = "[PixelsWalked { total: 3, drawn: [Drawn { item: Some(5), left: 2 }, \
        Drawn { item: Some(7), left: 1 }, Drawn { item: Some(6), left: 0 }, \
        Drawn { item: None, left: 0 }, Drawn { item: None, left: 0 }] }]";
    check_replay::<u8>(&rt, (3, 1, [0; 4]), &[5, 6, 7], &calls, answers, &[1, 3, 2]);
}

#[test]
fn the_largest_numbers_are_outside(rt: HostRuntime) {
    let calls = [
        Pixel(0, usize::MAX, usize::MAX),
        Row(0, usize::MAX),
        Height(usize::MAX),
    ];
    let answers = "[OutsideRectangle, RowShown(None), NoPlane]";
    check_replay(&rt, BARE, &SIX, &calls, answers, &SIX);
}

#[test]
fn planes_that_a_user_replaced_answer_by_their_own_size(rt: HostRuntime) {
    let rt = &rt;
    let mut frame = built::<u8>(rt, padded((2, 2), Yuv420, 8, [0; 4]));
    frame.u_plane = Some(blank_plane(rt, (3, 1, [0; 4])));
    frame.v_plane = None;
    let calls = [Width(1), Height(1), Copy(1, &[7]), Width(2)];
    let answers =
        "[Number(3), Number(1), Copied(Err(DataLength { expected: 3, found: 1 })), NoPlane]";
    check_calls(rt, &mut frame, &calls, answers);
    drop(frame);
}

/// Returns a frame of three planes of two-byte pixels that show these values, in borders of 43981.
fn framed(rt: &impl Test, (width, height, padding): Layout, shown: &[[u16; 6]; 3]) -> Frame<u16> {
    let mut frame = built(rt, padded((width, height), Yuv444, 16, padding));
    for (index, pixels) in shown.iter().enumerate() {
        let plane = frame.plane_mut(index).expect(rt, "a plane");
        plane.data_mut().fill(43981);
        let copied = plane.copy_from_slice(pixels);
        must(rt, copied.is_ok());
    }
    frame
}

#[test]
fn mixed_calls_are_answered_in_each_border_and_keep_it(rt: HostRuntime) {
    let rt = &rt;
    let calls = [
        RowsMut(
            0,
            &[(Back, &[None, Some(50)]), (Front, &[]), (Front, &[Some(9)])],
        ),
        PixelsMut(2, &[(Front, Some(7)), (Back, Some(8)), (Front, None)]),
        Bytes(0, &[Back, Back, Front]),
        PixelMut(0, 3, 0, 99),
        CopyStrided(2, &[1; 10], 5),
        Pixels(2, &[Back]),
    ];
    let answers = "[RowsWalked { total: 2, drawn: [Drawn { item: Some([4, 5, 6]), left: 1 }, \
        Drawn { item: Some([1, 2, 3]), left: 0 }, Drawn { item: None, left: 0 }] }, \
        PixelsWalked { total: 6, drawn: [Drawn { item: Some(0), left: 5 }, \
        Drawn { item: Some(0), left: 4 }, Drawn { item: Some(0), left: 3 }] }, \
        BytesWalked { total: 12, drawn: [Drawn { item: Some(0), left: 11 }, \
        Drawn { item: Some(6), left: 10 }, Drawn { item: Some(1), left: 9 }] }, \
        OutsideRectangle, Copied(Err(InvalidStride { stride: 5, width: 3 })), \
        PixelsWalked { total: 6, drawn: [Drawn { item: Some(8), left: 5 }] }]";
    let before = [[1, 2, 3, 4, 5, 6], [0; 6], [0; 6]];
    let after = [[1, 2, 3, 4, 50, 6], [0; 6], [7, 0, 0, 0, 0, 8]];
    for layout in [BARE, BORDERED] {
        let mut frame = framed(rt, layout, &before);
        check_calls(rt, &mut frame, &calls, answers);
        same(rt, frame, framed(rt, layout, &after));
    }
}
