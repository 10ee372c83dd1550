//! The version of the library.
ghost use Rattle.std.specs.Prelude.{◌≡◌, ◌+◌, ◌*◌};

const MAJOR: u32 = 0;

const MINOR: u32 = 4;

const PATCH: u32 = 0;

/// Returns the version of the library, 0.4.0, as one number.
#[unsafe(no_mangle)]
pub extern "C" fn v_frame_y4m_version() -> u32
    ensures { result ≡ 65536 * 0 + 256 * 4 + 0 }
{
    65536 * MAJOR + 256 * MINOR + PATCH
}
