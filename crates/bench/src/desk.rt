//! The data that the cases of a type of pixels work on.

use crate::cases::Case;
use crate::error::BenchError;
use crate::pictures::{PLACES, bytes, pixel_of, pixels, places};
use crate::plan::Plan;
use crate::whole::build;
use std::alloc::{AllocError, Global};
use v_frame::chroma::ChromaSubsampling;
use v_frame::frame::Frame;
use v_frame::pixel::Pixel;
use v_frame::plane::Plane;

/// The number of bytes after each row of the source with a stride.
const TAIL: usize = 64;

/// The frames, sources and targets of the cases.
#[derive(Drop)]
pub struct Desk<T: Pixel> {
    pub alloc: Global,
    pub plan: Plan,
    pub depth: u8,
    /// The 4:2:0 frame that is read and written.
    pub frame: Frame<T>,
    /// A frame with the same luma.
    pub twin: Frame<T>,
    /// A frame in whose luma every sixteenth pixel differs.
    pub other: Frame<T>,
    /// The initial pixels of the luma plane.
    pub source: Vec<T>,
    /// The initial pixels of the luma plane of the other frame.
    pub other_source: Vec<T>,
    pub bytes: Bytes,
    pub places: Vec<(usize, usize)>,
    /// The pixel that this run writes.
    pub value: T,
}

/// The sources and a target of bytes.
#[derive(Drop)]
pub struct Bytes {
    /// The source without bytes between its rows.
    pub packed: Vec<u8>,
    /// The source with a stride.
    pub strided: Vec<u8>,
    pub stride: usize,
    pub target: Vec<u8>,
}

impl Bytes {
    /// Returns the sources and the target for rows of `row` bytes.
    fn new(alloc: Global, row: usize, height: usize, seed: usize) -> Result<Self, AllocError> {
        let stride = row.wrapping_add(TAIL);
        Ok(Bytes {
            packed: bytes(alloc, row.wrapping_mul(height), seed)?,
            strided: bytes(alloc, stride.wrapping_mul(height), seed)?,
            stride,
            target: bytes(alloc, row.wrapping_mul(height), 0)?,
        })
    }
}

impl<T: Pixel> Desk<T> {
    /// Returns all data for a plan.
    pub fn new(alloc: Global, plan: Plan, depth: u8) -> Result<Self, BenchError> {
        let (width, height) = (usize::from(plan.width), usize::from(plan.height));
        let (count, seed) = (width.wrapping_mul(height), usize::from(plan.seed));
        Ok(Desk {
            alloc,
            plan,
            depth,
            frame: build(alloc, plan, ChromaSubsampling::Yuv420, depth)?,
            twin: build(alloc, plan, ChromaSubsampling::Yuv420, depth)?,
            other: build(alloc, plan, ChromaSubsampling::Yuv420, depth)?,
            source: pixels(alloc, count, seed, 0)?,
            other_source: pixels(alloc, count, seed, 16)?,
            bytes: Bytes::new(alloc, width.wrapping_mul(T::BYTES), height, seed)?,
            places: places(alloc, plan)?,
            value: T::ZERO,
        })
    }

    /// Returns the number of pixels that a case processes.
    pub fn pixels_of(&self, case: Case) -> usize {
        match case {
            Case::PixelScattered | Case::PixelMutScattered => PLACES,
            _ => self.source.len(),
        }
    }

    /// Resets the frames to the luma with which each case begins.
    pub fn reset(&mut self) -> Result<(), BenchError> {
        self.frame.y_plane.copy_from_slice(self.source.as_slice())?;
        self.twin.y_plane.copy_from_slice(self.source.as_slice())?;
        self.other
            .y_plane
            .copy_from_slice(self.other_source.as_slice())?;
        Ok(())
    }

    /// Changes a pixel in each frame and each source, and the pixel that is written, so that no two runs do the same work.
    pub fn change(&mut self, run: usize) {
        let value = pixel_of::<T>(run.wrapping_add(usize::from(self.plan.seed)));
        self.value = value;
        let Some(&(x, y)) = self.places.get(run) else {
            return;
        };
        let place = usize::from(self.plan.width).wrapping_mul(y).wrapping_add(x);
        set_pixel(&mut self.frame.y_plane, x, y, value);
        set_pixel(&mut self.twin.y_plane, x, y, value);
        set_entry(self.source.as_mut_slice(), place, value);
        set_entry(self.bytes.packed.as_mut_slice(), place, value.le_byte(0));
        set_entry(self.bytes.strided.as_mut_slice(), place, value.le_byte(0));
    }

    /// Returns a number that depends on the data at a few places after a run.
    pub fn sample(&self, run: usize) -> u64 {
        let Some(&(x, y)) = self.places.get(PLACES.wrapping_sub(run)) else {
            return 0;
        };
        let luma = self.frame.y_plane.pixel(x, y).map_or(0, T::into_u16);
        let chroma = match self.frame.plane(1) {
            Some(plane) => plane.pixel(x / 2, y / 2).map_or(0, T::into_u16),
            None => 0,
        };
        let byte = self.bytes.target.get(x).copied().unwrap_or(0);
        u64::from(luma) + u64::from(chroma) + u64::from(byte)
    }

    /// Returns a checksum of all data that the cases write, padding included. Each place has its own weight.
    pub fn checksum(&self) -> u64 {
        let mut sum = 0u64;
        for index in 0..3 {
            if let Some(plane) = self.frame.plane(index) {
                for pixel in plane.data() {
                    sum = sum
                        .wrapping_mul(31)
                        .wrapping_add(u64::from(pixel.into_u16()));
                }
            }
        }
        for byte in self.bytes.target.iter() {
            sum = sum.wrapping_mul(31).wrapping_add(u64::from(*byte));
        }
        sum
    }
}

/// Writes a pixel if its place exists.
fn set_pixel<T: Pixel>(plane: &mut Plane<T>, x: usize, y: usize, value: T) {
    if let Some(pixel) = plane.pixel_mut(x, y) {
        *pixel = value;
    }
}

/// Writes an entry if its place exists.
fn set_entry<E: Copy>(entries: &mut [E], place: usize, value: E) {
    if let Some(entry) = entries.get_mut(place) {
        *entry = value;
    }
}
