//! Where the first line of bytes ends.
ghost use Rattle.std.specs.Prelude.{◌<◌, length, IfErr, IfOk};
ghost use Rattle.v_frame_y4m_c.specs.Lines.{HasNoLine, IsFirstLine};

use v_frame_y4m::MAX_LINE_BYTES;

/// Why bytes do not begin with a line.
#[derive(Drop)]
pub enum LineFault {
    /// There is no line feed among the bytes, of which there are at most as many as a line may have.
    Unfinished,
    /// The line is longer than a line may be.
    TooLong,
}

/// Returns the number of bytes of the first line, without its line feed.
///
/// # Errors
///
/// [`LineFault::TooLong`] if there is no line feed among the first 1025 bytes, and [`LineFault::Unfinished`] if there are fewer
/// bytes and no line feed.
pub fn line_length(bytes: &[u8]) -> Result<usize, LineFault>
    ensures found { IfOk result (IsFirstLine bytes.now) }
    ensures bound { IfOk result (λ n. n < length bytes.now) }
    ensures error { IfErr result (HasNoLine bytes.now) }
{
    let mut at = 0;
    while at < bytes.len() {
        if bytes[at] == b'\n' {
            return Ok(at);
        }
        if at == MAX_LINE_BYTES {
            return Err(LineFault::TooLong);
        }
        at += 1;
    }
    Err(LineFault::Unfinished)
}
