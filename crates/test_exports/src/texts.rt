// Strings, by their bytes.
ghost use Rattle.std.specs.Prelude.{◌≡◌};
ghost use Rattle.express.specs.Semantics.Strings.{compare_bytes};
ghost use Rattle.test_exports.specs.Places.{order_place};

use crate::logicals;

#[unsafe(no_mangle)]
pub extern "C" fn woffulent_compare_strings(a: &[u8], b: &[u8]) -> u8
    ensures { result ≡ order_place (compare_bytes a.now b.now) }
{
    logicals::order_place(strings::compare(a, b))
}
