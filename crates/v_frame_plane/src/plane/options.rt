//! Planes that are filled one entry at a time: each entry is either a value or `None`.
ghost use Rattle.std.specs.Prelude.{◌≡◌, ◌↔◌, None, IsTrue, IfOk, IfErr};
ghost use Rattle.v_frame_raster.specs.Geometry.{Fits};
ghost use Rattle.v_frame_raster.specs.Raster.{IsFull, options_of, filled};

use super::{Plane, PlaneGeometry};
use std::alloc::{AllocError, Global};
use v_frame_buffer::AlignedData;

impl<T> Plane<T> {
    /// Allocates a plane with layout `geometry` whose entries are all `None`. Fill it through [`data_mut`](Self::data_mut).
    ///
    /// The [`checked_alloc_size`](PlaneGeometry::checked_alloc_size) of `geometry` must be `Some`.
    ///
    /// Ports `Plane::new_uninit` of `v_frame` 0.7.0, where it requires the feature `padding_api`. The entries are options
    /// instead of uninitialized memory.
    ///
    /// # Errors
    ///
    /// [`AllocError`] if the memory for the buffer cannot be allocated.
    pub fn new_uninit(
        alloc: Global,
        geometry: PlaneGeometry,
    ) -> Result<Plane<Option<T>>, AllocError>
        requires { Fits geometry }
        ensures { IfOk result (λ plane. plane ≡ filled None geometry) }
    {
        let buffer = AlignedData::without_values(alloc, geometry.alloc_size())?;
        Ok(Plane { geometry, buffer })
    }
}

impl<T> Plane<Option<T>> {
    /// Returns whether every entry is `Some`, including the entries of the border. Reads the whole buffer. Not part of
    /// `v_frame` 0.7.0.
    pub fn is_init(&self) -> bool
        ensures { IsTrue result ↔ IsFull self.now }
    {
        self.data().iter().all(Option::is_some)
    }
}

impl<T: Drop> Plane<Option<T>> {
    /// Converts the plane into a plane of its values. Every entry must be `Some`, that is, [`is_init`](Self::is_init) must
    /// return `true`.
    ///
    /// The values are moved into a newly allocated buffer. Ports `Plane::assume_init` of `v_frame` 0.7.0, where it requires the
    /// feature `padding_api`. The original has the same precondition, but allocates no second buffer.
    ///
    /// # Errors
    ///
    /// Returns the unchanged plane of options if the memory for the second buffer cannot be allocated.
    pub fn assume_init(self, alloc: Global) -> Result<Plane<T>, Self>
        requires { IsFull self }
        ensures values { IfOk result (λ plane. options_of plane ≡ self) }
        ensures kept { IfErr result (λ plane. plane ≡ self) }
    {
        let geometry = self.geometry;
        match self.buffer.into_values(alloc) {
            Ok(buffer) => Ok(Plane { geometry, buffer }),
            Err(buffer) => Err(Plane { geometry, buffer }),
        }
    }
}
