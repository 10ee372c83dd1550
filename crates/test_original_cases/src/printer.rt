//! Text that is produced piece by piece.

use std::alloc::Global;
use std::fmt::Display;

/// The text of the results. If memory cannot be allocated, the text is cut off there.
#[derive(Drop)]
pub struct Printer {
    text: String,
    is_cut_off: bool,
}

impl Printer {
    /// Returns an empty text.
    pub fn new(alloc: Global) -> Self {
        Printer {
            text: String::new(alloc),
            is_cut_off: false,
        }
    }

    /// Returns the printed text.
    pub fn as_bytes(&self) -> &[u8] {
        self.text.as_bytes()
    }

    /// Returns whether the text was cut off.
    pub fn is_cut_off(&self) -> bool {
        self.is_cut_off
    }

    /// Cuts the text off here.
    pub fn cut_off(&mut self) {
        self.is_cut_off = true;
    }

    /// Prints a text unchanged.
    pub fn text(&mut self, text: &str) {
        self.is_cut_off = self.is_cut_off || self.text.push_str(text).is_err();
    }

    /// Ends a line.
    pub fn end_line(&mut self) {
        self.text("\n");
    }

    /// Prints an item after a space.
    pub fn item<I: Display>(&mut self, item: &I) {
        self.is_cut_off = self.is_cut_off || write!(self.text, " {item}").is_err();
    }

    /// Prints a name, a space and an item.
    pub fn named<I: Display>(&mut self, name: &str, item: &I) {
        self.text(name);
        self.item(item);
    }

    /// Prints the length of a list and its items, each after a space.
    pub fn list<I: Display>(&mut self, items: &[I]) {
        self.item(&items.len());
        for item in items {
            self.item(item);
        }
    }
}
