//! Which version of the library this is.
ghost use Rattle.std.specs.Prelude.{◌≡◌};

/// The version as a number: 10,000 for each major one, 100 for each minor one, 1 for each patch. So
/// 1.0.0 is 10,000. Own rule.
#[unsafe(no_mangle)]
pub extern "C" fn csq_version() -> u32
    ensures { result ≡ 10100 }
{
    10_100
}
