// The arithmetic on integers. An answer passes as its row: the kind is returned, number and length are written.
ghost use Rattle.std.specs.Prelude.{◌≡◌};
ghost use Rattle.express.specs.Semantics.AnswerRow.{row, row_of};
ghost use Rattle.express.specs.Semantics.Integer.{sum, difference, product, DIV, MOD, power, negation, compareℤ};
ghost use Rattle.test_exports.specs.Places.{order_place};

use crate::logicals;
use integers::answer_row;

#[unsafe(no_mangle)]
pub extern "C" fn woffulent_add(a: i64, b: i64, number: &mut i64, length: &mut u8) -> u8
    ensures { row result number.new length.new ≡ row_of (sum a b) }
{
    answer_row(integers::add(a, b), number, length)
}

#[unsafe(no_mangle)]
pub extern "C" fn woffulent_subtract(a: i64, b: i64, number: &mut i64, length: &mut u8) -> u8
    ensures { row result number.new length.new ≡ row_of (difference a b) }
{
    answer_row(integers::subtract(a, b), number, length)
}

#[unsafe(no_mangle)]
pub extern "C" fn woffulent_multiply(a: i64, b: i64, number: &mut i64, length: &mut u8) -> u8
    ensures { row result number.new length.new ≡ row_of (product a b) }
{
    answer_row(products::multiply(a, b), number, length)
}

#[unsafe(no_mangle)]
pub extern "C" fn woffulent_div(a: i64, b: i64, number: &mut i64, length: &mut u8) -> u8
    ensures { row result number.new length.new ≡ row_of (DIV a b) }
{
    answer_row(products::div(a, b), number, length)
}

#[unsafe(no_mangle)]
pub extern "C" fn woffulent_modulo(a: i64, b: i64, number: &mut i64, length: &mut u8) -> u8
    ensures { row result number.new length.new ≡ row_of (MOD a b) }
{
    answer_row(products::modulo(a, b), number, length)
}

#[unsafe(no_mangle)]
pub extern "C" fn woffulent_power(a: i64, b: i64, number: &mut i64, length: &mut u8) -> u8
    ensures { row result number.new length.new ≡ row_of (power a b) }
{
    answer_row(products::power(a, b), number, length)
}

#[unsafe(no_mangle)]
pub extern "C" fn woffulent_negate(a: i64, number: &mut i64, length: &mut u8) -> u8
    ensures { row result number.new length.new ≡ row_of (negation a) }
{
    answer_row(integers::negate(a), number, length)
}

#[unsafe(no_mangle)]
pub extern "C" fn woffulent_compare(a: i64, b: i64) -> u8
    ensures { result ≡ order_place (compareℤ a b) }
{
    logicals::order_place(integers::compare(a, b))
}
