//! The number of times that each value of 16 bits occurs.
ghost use Rattle.std.specs.Prelude.{◌≡◌, ◌^◌, vec_len};

use crate::values::add_counts;
use std::alloc::{AllocError, Global};

/// The number of times that each value of 16 bits occurs, up to `u64::MAX`.
#[derive(Drop)]
pub(crate) struct ValueCounts {
    counts: Vec<u64>,
    ghost size: { vec_len counts ≡ 2 ^ 16 },
}

impl ValueCounts {
    ghost use Rattle.std.specs.Prelude.{◌≡◌, ◌^◌, length, IfOk};
    ghost use Rattle.yuv_facts.specs.Values.{AddsTable, AreZero};

    /// Returns counts of 0.
    ///
    /// # Errors
    ///
    /// [`AllocError`] if there is not enough memory.
    pub(crate) fn new(alloc: Global) -> Result<Self, AllocError>
        ensures { IfOk result (λ found. AreZero found.counts.items) }
    {
        let mut counts = Vec::new(alloc);
        counts.resize(1 << 16, 0)?;
        Ok(ValueCounts { counts })
    }

    /// Adds the counts in `table`, which has those of the values from 0 on.
    pub(crate) fn add(&mut self, table: &[u64])
        ensures { AddsTable table.now self.old.counts.items self.new.counts.items }
    {
        add_counts(self.counts.as_mut_slice(), table);
    }

    /// Returns the counts of all values, beginning with 0.
    pub(crate) fn counts(&self) -> &[u64]
        ensures value { result.now ≡ self.now.counts.items }
        ensures size { length result.now ≡ 2 ^ 16 }
    {
        self.counts.as_slice()
    }
}
