//! The planes of a frame: luma and chroma.
ghost use Rattle.std.specs.Prelude.{◌≡◌};
ghost use Rattle.v_frame_formats.specs.Components.{index_of, letter_of};

use std::fmt;

/// A plane of a frame.
#[derive(Debug, Clone, Copy, PartialEq, Eq)]
pub enum Component {
    /// Luma.
    Y,
    /// Blue-difference chroma, Cb.
    U,
    /// Red-difference chroma, Cr.
    V,
}

impl Component {
    /// Returns the index of the plane in a frame: 0 for Y, 1 for U and 2 for V.
    pub fn index(self) -> usize
        ensures { result ≡ index_of self }
    {
        match self {
            Component::Y => 0,
            Component::U => 1,
            Component::V => 2,
        }
    }

    /// Returns the letter of the plane: `Y`, `U` or `V`.
    pub fn letter(self) -> &'static str
        ensures { result.now ≡ letter_of self }
    {
        match self {
            Component::Y => "Y",
            Component::U => "U",
            Component::V => "V",
        }
    }
}

impl fmt::Display for Component {
    fn fmt<W: fmt::Write>(&self, f: &mut fmt::Formatter<W>) -> fmt::Result {
        f.write_str(self.letter())
    }
}
