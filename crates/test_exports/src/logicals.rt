// The three logicals and the relations, each by its place among its kind, counted from 0: FALSE, UNKNOWN, TRUE; less, same,
// more; the relations as they are declared. A number past the last is the last.
ghost use Rattle.std.specs.Prelude.{◌≡◌};
ghost use Rattle.express.specs.Semantics.Logic.{rank, compare_logical, AND, OR, NOT, XOR};
ghost use Rattle.express.specs.Semantics.Relation.{related};
ghost use Rattle.values.specs.Meaning.{logical_of, ordering_of, relation_of};
ghost use Rattle.test_exports.specs.Places.{logical_at, relation_at, order_place};

use std::cmp::Ordering;
use values::logical::Logical;
use values::order::Relation;

fn logical(n: u8) -> Logical
    ensures { logical_of result ≡ logical_at n }
{
    match n {
        codes::answers::FALSE => Logical::False,
        codes::answers::UNKNOWN => Logical::Unknown,
        _ => Logical::True,
    }
}

pub fn order_place(order: Ordering) -> u8
    ensures { result ≡ order_place (ordering_of order) }
{
    match order {
        Ordering::Less => 0,
        Ordering::Equal => 1,
        Ordering::Greater => 2,
    }
}

pub fn relation(n: u8) -> Relation
    ensures { relation_of result ≡ relation_at n }
{
    match n {
        0 => Relation::LessThan,
        1 => Relation::GreaterThan,
        2 => Relation::AtMost,
        3 => Relation::AtLeast,
        4 => Relation::Unequal,
        5 => Relation::Equal,
        6 => Relation::InstanceUnequal,
        _ => Relation::InstanceEqual,
    }
}

#[unsafe(no_mangle)]
pub extern "C" fn woffulent_and(a: u8, b: u8) -> u8
    ensures { result ≡ rank (AND (logical_at a) (logical_at b)) }
{
    u8::from(logical(a).and(logical(b)))
}

#[unsafe(no_mangle)]
pub extern "C" fn woffulent_or(a: u8, b: u8) -> u8
    ensures { result ≡ rank (OR (logical_at a) (logical_at b)) }
{
    u8::from(logical(a).or(logical(b)))
}

#[unsafe(no_mangle)]
pub extern "C" fn woffulent_xor(a: u8, b: u8) -> u8
    ensures { result ≡ rank (XOR (logical_at a) (logical_at b)) }
{
    u8::from(logical(a).xor(logical(b)))
}

#[unsafe(no_mangle)]
pub extern "C" fn woffulent_not(a: u8) -> u8
    ensures { result ≡ rank (NOT (logical_at a)) }
{
    u8::from(logical(a).not())
}

#[unsafe(no_mangle)]
pub extern "C" fn woffulent_relate(a: u8, by: u8, b: u8) -> u8
    ensures { result ≡ rank (related (relation_at by) (compare_logical (logical_at a) (logical_at b))) }
{
    u8::from(relation(by).holds(logical(a).compare(logical(b))))
}
