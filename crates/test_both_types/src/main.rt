//! Calls on pixels of both types that no other program of CI makes. The program prints the result of each call.
#![tactic(auto)]

mod frames;
mod numbers;
mod planes;
mod text;
mod writes;

use numbers::{push_numbers, push_samples};
use std::alloc::Global;
use std::io;
use v_frame::pixel::Pixel;

fn main(rt: HostRuntime) -> io::Result<()> {
    let mut text = String::new(rt.alloc());
    if push_all(rt.alloc(), &mut text).is_none() {
        return println!(rt; "there is no memory");
    }
    let text = text.as_str();
    print!(rt; "{text}")
}

/// Appends the results of all calls. Returns `None` if a memory allocation fails.
fn push_all(alloc: Global, text: &mut String) -> Option<()> {
    text.push_str("u8\n").ok()?;
    push_calls::<u8>(
        alloc,
        text,
        [&[10, 20, 30, 40, 50, 60, 70, 80], &[100, 200], &[1, 2]],
    )?;
    text.push_str("u16\n").ok()?;
    push_calls::<u16>(
        alloc,
        text,
        [
            &[10, 0, 20, 1, 30, 2, 40, 3, 50, 0, 60, 1, 70, 2, 80, 3],
            &[100, 0, 200, 3],
            &[1, 0, 2, 2],
        ],
    )?;
    push_samples(text, &mut frames::mask(alloc)?.y_plane)?;
    push_numbers(text)
}

/// Appends the results of the calls on pixels of a type. `planes` are the bytes of the planes.
fn push_calls<T: Pixel>(alloc: Global, text: &mut String, planes: [&[u8]; 3]) -> Option<()> {
    let bit_depth = if T::BYTES == 1 { 8 } else { 10 };
    let mut first = frames::frame::<T>(alloc, bit_depth, planes)?;
    let mut second = first.clone(alloc).ok()?;
    let mask = frames::mask(alloc)?;
    frames::push_length(text, &first)?;
    frames::push_turns(text, &mut first)?;
    planes::push_sums(text, &first.y_plane.as_plane_ref())?;
    planes::push_pixels(alloc, text, &first.y_plane.as_plane_ref().duplicate())?;
    planes::push_blends(text, &first.y_plane, &mask.y_plane, &mut second.y_plane)?;
    frames::push_errors(text, &first, &second)?;
    frames::push_flips(text, &first, &mut second)?;
    frames::push_mirrored(text, &first, &mut second)?;
    frames::push_quarter_turns(alloc, text, &first)?;
    writes::push_writes(text, &mut second.y_plane)?;
    writes::push_pairs(alloc, text, &first.y_plane.as_plane_ref())
}
