//! The version of the library.
ghost use Rattle.std.specs.Prelude.{◌≡◌};

/// The version of these declarations: ten thousand times the first number, plus a hundred times the
/// second, plus the third.
pub const MUXANDU_VERSION: u32 = 100;

/// The version of the library, a number like MUXANDU_VERSION. A library with a lower number lacks
/// some of these declarations.
#[unsafe(no_mangle)]
pub extern "C" fn muxandu_version() -> u32
    ensures { result ≡ 100 }
{
    MUXANDU_VERSION
}
