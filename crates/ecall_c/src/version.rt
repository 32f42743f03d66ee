//! The version of the library.
ghost use Rattle.std.specs.Prelude.{◌≡◌};

/// The version of `ecall.h` that the library goes with.
#[unsafe(no_mangle)]
pub extern "C" fn ecall_version() -> u32
    ensures { result ≡ 1 }
{
    1
}
