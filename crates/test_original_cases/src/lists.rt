//! Lists in a line. Each begins with its length. Memory is allocated only for the entries that are present, whatever the length
//! is.

use crate::fault::{CaseFault, LineFault};
use crate::input::Input;
use crate::lcg::Lcg;
use crate::value::Value;
use v_frame::replay::{PixelDraw, RowDraw, Side};
use v_frame::sequence::Sequence;

/// The ways to specify the source of a copy.
#[derive(Clone, Copy)]
enum Source {
    /// By its pixels.
    List,
    /// By the seed of a pseudorandom sequence.
    Congruence,
}

/// The names of the ways to specify a source.
const SOURCES: [(&str, Source); 2] = [("list", Source::List), ("lcg", Source::Congruence)];

/// The names of the sides of an iterator.
const SIDES: [(&str, Side); 2] = [("F", Side::Front), ("B", Side::Back)];

impl<'a> Input<'a> {
    /// Reads a list of entries of this type.
    pub fn list<E: Entry + Drop>(&mut self) -> Sequence<E> {
        let mut entries = Vec::new(self.alloc);
        for _ in 0..self.number() {
            let entry = E::read(self);
            if self.is_faulty() {
                break;
            }
            self.push(&mut entries, entry);
        }
        entries.into()
    }

    /// Reads a list of pixels, or the number of pixels to take from `lcg` if it is given. Bytes are read as pixels of one byte.
    pub fn pixels<T: Value>(&mut self, mut lcg: Option<Lcg>) -> Vec<T> {
        let mut pixels = Vec::new(self.alloc);
        for _ in 0..self.number() {
            let pixel = match &mut lcg {
                Some(lcg) => lcg.pixel(),
                None => self.pixel(),
            };
            if self.is_faulty() {
                break;
            }
            self.push(&mut pixels, pixel);
        }
        pixels
    }

    /// Reads the source of a copy.
    pub fn source<T: Value>(&mut self) -> Sequence<T> {
        let lcg = match self.choice(&SOURCES) {
            Some(Source::List) => None,
            Some(Source::Congruence) => Some(Lcg::new(self.number())),
            None => {
                self.keep(LineFault::UnknownSource);
                None
            }
        };
        self.pixels(lcg).into()
    }

    /// Appends an entry to a list.
    fn push<E: Drop>(&mut self, entries: &mut Vec<E>, entry: E) {
        if entries.push(entry).is_err() {
            self.give_up(CaseFault::OutOfMemory);
        }
    }
}

/// An entry of a list.
pub trait Entry {
    /// Reads an entry.
    fn read(input: &mut Input<'_>) -> Self;
}

/// The side of an iterator from which a call takes an item.
impl Entry for Side {
    fn read(input: &mut Input<'_>) -> Self {
        match input.choice(&SIDES) {
            Some(side) => side,
            None => {
                input.keep(LineFault::UnknownSide);
                Side::Front
            }
        }
    }
}

/// A pixel or nothing.
impl<T: Value> Entry for Option<T> {
    fn read(input: &mut Input<'_>) -> Self {
        match input.word() {
            "-" => None,
            word => Some(input.pixel_of(word)),
        }
    }
}

/// A call on an iterator that lends rows.
impl<T: Value> Entry for RowDraw<T> {
    fn read(input: &mut Input<'_>) -> Self {
        let side = Side::read(input);
        let writes = input.list();
        RowDraw { side, writes }
    }
}

/// A call on an iterator that lends pixels.
impl<T: Value> Entry for PixelDraw<T> {
    fn read(input: &mut Input<'_>) -> Self {
        let side = Side::read(input);
        let value = Option::read(input);
        PixelDraw { side, value }
    }
}
