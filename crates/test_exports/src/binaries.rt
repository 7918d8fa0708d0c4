// Binaries: the last m bits of a, and the last n of b.
ghost use Rattle.std.specs.Prelude.{◌≡◌};
ghost use Rattle.express.specs.Semantics.AnswerRow.{row, row_of};
ghost use Rattle.express.specs.Semantics.Bits.{bits, join, compare_bits};
ghost use Rattle.test_exports.specs.Places.{order_place};

use crate::logicals;
use bits::Binary;

#[unsafe(no_mangle)]
pub extern "C" fn woffulent_join(
    a: u64,
    m: u8,
    b: u64,
    n: u8,
    number: &mut i64,
    length: &mut u8,
) -> u8
    ensures { row result number.new length.new ≡ row_of (join (bits m a) (bits n b)) }
{
    bits::join_row(
        Binary {
            number: a,
            length: m,
        },
        Binary {
            number: b,
            length: n,
        },
        number,
        length,
    )
}

#[unsafe(no_mangle)]
pub extern "C" fn woffulent_compare_binaries(a: u64, m: u8, b: u64, n: u8) -> u8
    ensures { result ≡ order_place (compare_bits (bits m a) (bits n b)) }
{
    let order = bits::compare(
        Binary {
            number: a,
            length: m,
        },
        Binary {
            number: b,
            length: n,
        },
    );
    logicals::order_place(order)
}
