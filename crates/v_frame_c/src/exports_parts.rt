//! The export that lays out frames.
ghost use Rattle.std.specs.Prelude.{◌≡◌, ◌≢◌, ◌+◌, ◌≤◌, ◌<◌, IsTrue};
ghost use Rattle.v_frame_slices.specs.FrameParts.{frame_parts, frame_status};
ghost use Rattle.v_frame_slices.specs.Layout.{is_bordered};

use v_frame_slices::frame_parts::{self, FrameParts, FrameRequest};

/// Lays out the planes of a frame of this size and format one after the other, without gaps.
#[unsafe(no_mangle)]
pub extern "C" fn v_frame_lay_out(request: &FrameRequest, parts: &mut FrameParts) -> u32
    ensures status { result ≡ frame_status request.now }
    ensures parts { result ≡ 0 → parts.new ≡ frame_parts request.now }
    ensures luma { result ≡ 0 → IsTrue (is_bordered parts.new.y.layout parts.new.y.count) }
    ensures chroma { result ≡ 0 → 0 < parts.new.u.count
        → IsTrue (is_bordered parts.new.u.layout parts.new.u.count) }
    ensures apart { result ≡ 0 → (parts.new.y.offset + parts.new.y.count ≤ parts.new.count)
        × (0 < parts.new.u.count → (parts.new.y.offset + parts.new.y.count ≤ parts.new.u.offset)
        × (parts.new.u.offset + parts.new.u.count ≤ parts.new.v.offset)
        × (parts.new.v.offset + parts.new.v.count ≤ parts.new.count)) }
    ensures refused { result ≢ 0 → parts.new ≡ parts.old }
{
    frame_parts::lay_out(request, parts)
}
