//! Messages on standard error, in which control characters of file names are escaped.
ghost use Rattle.std.specs.Prelude.{◌↔◌, IsTrue};
ghost use Rattle.yuv_files.specs.Messages.{IsControl};

use std::fmt::{self, Write};
use std::io;

/// Writes a line that begins with the name of the program, followed by the name of a file if there is one, and by `what`.
/// Allocates no memory. If writing fails, the error is ignored.
pub fn write_message<E: io::Write, D: fmt::Display>(out: &mut E, name: Option<&str>, what: &D) {
    let mut escaping = Escaping { out };
    let _ = match name {
        Some(name) => write!(escaping, "yuv: {name}: {what}"),
        None => write!(escaping, "yuv: {what}"),
    };
    let _ = escaping.out.write_all(b"\n");
}

/// Returns the name of an input file as messages show it.
pub fn shown_name(name: &str) -> &str {
    match name {
        "-" => "standard input",
        _ => name,
    }
}

/// A warning that a header line is not strictly valid, and the valid line as which it is read.
#[derive(Drop)]
pub struct LaxHeader<'a> {
    /// The valid line.
    pub line: &'a [u8],
}

impl fmt::Display for LaxHeader<'_> {
    fn fmt<W: fmt::Write>(&self, f: &mut fmt::Formatter<W>) -> fmt::Result {
        f.write_str("the header line is not strict YUV4MPEG2; it is read as '")?;
        for &byte in self.line {
            f.write_char(if byte.is_ascii() { byte as char } else { '?' })?;
        }
        f.write_str("'")
    }
}

/// A writer that replaces each control character with its number.
#[derive(Drop)]
struct Escaping<'a, E> {
    out: &'a mut E,
}

impl<E: io::Write> Write for Escaping<'_, E> {
    fn write_str(&mut self, text: &str) -> fmt::Result {
        if !text.chars().any(is_control) {
            return done(self.out.write_all(text.as_bytes()));
        }
        for letter in text.chars() {
            self.write_letter(letter)?;
        }
        Ok(())
    }
}

impl<E: io::Write> Escaping<'_, E> {
    /// Writes a character, or the number of a control character.
    fn write_letter(&mut self, letter: char) -> fmt::Result {
        let code = u32::from(letter);
        if is_control(letter) {
            return done(write!(self.out, "\\x{code:02x}"));
        }
        let mut bytes = [0; 4];
        let text = letter.encode_utf8(&mut bytes);
        done(self.out.write_all(text.as_bytes()))
    }
}

/// Returns the result of a write without the cause of an error.
fn done(written: io::Result<()>) -> fmt::Result {
    match written {
        Ok(()) => Ok(()),
        Err(_) => Err(fmt::Error),
    }
}

/// Returns whether a character is a control character of ISO/IEC 6429: one of C0, DEL or C1.
fn is_control(letter: char) -> bool
    ensures { IsTrue result ↔ IsControl letter }
{
    let code = u32::from(letter);
    code < 32 || code >= 127 && code < 160
}
