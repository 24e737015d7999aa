// The version of the library.
ghost use Rattle.std.specs.Prelude.{◌≡◌};

/// The version of the library: 10000 times its major number, 100 times its minor one, and its patch.
#[unsafe(no_mangle)]
pub extern "C" fn jsstr_version() -> u32
    ensures { result ≡ 10000 }
{
    10000
}
