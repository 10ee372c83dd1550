//! The input: its lines, the tokens of a line, and the values of tokens.

use crate::fault::{CaseFault, LineFault};
use crate::value::Value;
use std::alloc::Global;
use std::str;

/// The rest of the input. It stores the first fault, and values that are read after a fault have no meaning.
#[derive(Drop)]
pub struct Input<'a> {
    /// The allocator.
    pub alloc: Global,
    /// The lines after the current line.
    rest: &'a [u8],
    /// The number of the current line, counted from 1.
    line: u64,
    /// The tokens of the current line that are not yet read.
    tokens: Option<&'a str>,
    fault: Option<CaseFault>,
}

impl<'a> Input<'a> {
    /// Returns the input with this text. No line is read yet.
    pub fn new(alloc: Global, text: &'a [u8]) -> Self {
        Input {
            alloc,
            rest: text,
            line: 0,
            tokens: None,
            fault: None,
        }
    }

    /// Returns whether there was a fault.
    pub fn is_faulty(&self) -> bool {
        self.fault.is_some()
    }

    /// Returns the stored fault.
    pub fn into_fault(self) -> Option<CaseFault> {
        self.fault
    }

    /// Stores a fault, unless one is already stored. The rest of the input is then empty.
    pub fn give_up(&mut self, fault: CaseFault) {
        if self.fault.is_none() {
            self.fault = Some(fault);
            self.rest = &[];
        }
    }

    /// Stores a fault of the current line.
    pub fn keep(&mut self, fault: LineFault) {
        let line = self.line;
        self.give_up(CaseFault::Malformed { line, fault });
    }

    /// Returns whether no line remains.
    pub fn is_at_end(&self) -> bool {
        self.rest.is_empty()
    }

    /// Checks that the current line is at its end, and goes to the next line. Stores [`LineFault::EndOfInput`] if no line
    /// remains, and [`LineFault::LineNotEnded`], [`LineFault::NotText`] or [`LineFault::EmptyLine`] if the next line is
    /// malformed.
    pub fn next_line(&mut self) {
        self.end();
        self.line = self.line.saturating_add(1);
        self.tokens = None;
        let rest = self.rest;
        if rest.is_empty() {
            return self.keep(LineFault::EndOfInput);
        }
        let Some(end) = rest.iter().position(|byte| *byte == b'\n') else {
            return self.keep(LineFault::LineNotEnded);
        };
        let Ok(line) = str::from_utf8(&rest[..end]) else {
            return self.keep(LineFault::NotText);
        };
        if line.is_empty() {
            return self.keep(LineFault::EmptyLine);
        }
        self.rest = &rest[end + 1..];
        self.tokens = Some(line);
    }

    /// Checks that no token remains.
    pub fn end(&mut self) {
        if let Some(rest) = self.tokens {
            self.keep(if rest.is_empty() {
                LineFault::EmptyToken
            } else {
                LineFault::ExtraToken
            });
        }
    }

    /// Returns the next token.
    pub fn word(&mut self) -> &'a str {
        let Some(rest) = self.tokens else {
            self.keep(LineFault::MissingToken);
            return "";
        };
        let (word, rest) = match rest.split_once(' ') {
            Some((word, rest)) => (word, Some(rest)),
            None => (rest, None),
        };
        if word.is_empty() {
            self.keep(LineFault::EmptyToken);
        }
        self.tokens = rest;
        word
    }

    /// Reads a token that must be `wanted`, and stores `fault` otherwise.
    pub fn keyword(&mut self, wanted: &str, fault: LineFault) {
        if self.word() != wanted {
            self.keep(fault);
        }
    }

    /// Returns the value of the next token in a table, or `None` if the table does not have it.
    pub fn choice<C: Copy>(&mut self, table: &[(&str, C)]) -> Option<C> {
        let word = self.word();
        for &(name, choice) in table {
            if name == word {
                return Some(choice);
            }
        }
        None
    }

    /// Reads a number.
    pub fn number(&mut self) -> u64 {
        let word = self.word();
        self.number_of(word)
    }

    /// Reads a number of pixels or of bytes, or an index.
    pub fn size(&mut self) -> usize {
        self.number() as usize
    }

    /// Reads `N` numbers of pixels or of bytes, or indices.
    pub fn sizes<const N: usize>(&mut self) -> [usize; N] {
        let mut sizes = [0; N];
        for size in &mut sizes {
            *size = self.size();
        }
        sizes
    }

    /// Reads a pixel by its value. Any other number of its type is read in the same way.
    pub fn pixel<T: Value>(&mut self) -> T {
        let word = self.word();
        self.pixel_of(word)
    }

    /// Returns the pixel whose value is in a token.
    pub fn pixel_of<T: Value>(&mut self, word: &str) -> T {
        match T::of_number(self.number_of(word)) {
            Some(pixel) => pixel,
            None => {
                self.keep(LineFault::NumberTooLarge);
                T::zero()
            }
        }
    }

    /// Returns the number in a token.
    fn number_of(&mut self, word: &str) -> u64 {
        // `parse` accepts a sign as well.
        match word.parse::<u64>() {
            Ok(number) if !word.starts_with('+') => number,
            _ => {
                self.keep(LineFault::NotANumber);
                0
            }
        }
    }
}
