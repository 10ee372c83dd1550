//! Planes as values: cloning, equality and debug output.
ghost use Rattle.std.specs.Prelude.{◌≡◌, IfOk};

use super::Plane;
use std::alloc::{AllocError, Global};
use std::fmt;
use v_frame_raster::geometry::PlaneGeometry;

impl<T: Copy> Plane<T> {
    /// Returns a copy of the plane in a newly allocated buffer, including the border.
    ///
    /// Ports `Plane::clone` of `v_frame` 0.7.0.
    ///
    /// # Errors
    ///
    /// [`AllocError`] if the memory for the buffer cannot be allocated.
    pub fn clone(&self, alloc: Global) -> Result<Self, AllocError>
        ensures { IfOk result (λ copy. copy ≡ self.now) }
    {
        let buffer = self.buffer.clone(alloc)?;
        Ok(Plane {
            geometry: self.geometry,
            buffer,
        })
    }
}

impl<T: PartialEq> PartialEq for Plane<T> {
    ghost use Rattle.std.specs.Ordering.{on, eq_of_both};
    ghost use Rattle.std.specs.Cmp.{and_per, on_per};
    ghost use Rattle.v_frame_raster.specs.contracts.geometry.PlaneGeometryPartialEq.TheImpl.Laws as geometries;
    ghost use Rattle.std.specs.Cmp.Lexicographic.{pointwise, lists_per};

    ghost eq = { eq_of_both (on (λ p. p.geometry) ⟦<PlaneGeometry as PartialEq>⟧.eq)
        (on (λ p. p.buffer) (pointwise T.eq)) };

    ghost laws = { and_per (on_per (λ p. p.geometry) geometries.laws-law)
        (on_per (λ p. p.buffer) (lists_per T.PartialEq.laws)) };

    fn eq(&self, other: &Self) -> bool {
        self.geometry == other.geometry && self.buffer == other.buffer
    }
}

impl<T: Eq> Eq for Plane<T> {
    ghost use Rattle.std.specs.Cmp.{and_equiv, on_equiv};
    ghost use Rattle.v_frame_raster.specs.contracts.geometry.PlaneGeometryEq.TheImpl.Laws as geometries;
    ghost use Rattle.std.specs.Cmp.Lexicographic.{lists_equiv};

    ghost laws = { and_equiv (on_equiv (λ p. p.geometry) geometries.laws-law)
        (on_equiv (λ p. p.buffer) (lists_equiv T.Eq.laws)) };
}

impl<T: fmt::Debug> fmt::Debug for Plane<T> {
    fn fmt<W: fmt::Write>(&self, f: &mut fmt::Formatter<W>) -> fmt::Result {
        f.debug_struct("Plane")
            .field("data", &self.buffer)
            .field("geometry", &self.geometry)
            .finish()
    }
}
