// The operators of nodes, by the terminals of their naming tokens.
ghost use Rattle.std.specs.Prelude.{◌≡◌};
ghost use Rattle.express.specs.Semantics.Shape.{sign_of, bound_of, logical_of, operator_of};
ghost use Rattle.values.specs.Meaning as values;
ghost use Rattle.operations.specs.Meaning as operations;
ghost use Rattle.node_answers.specs.Operators.{reading_of};

use operations::{Arithmetic, Connective, Operator, Sign};
use values::logical::Logical;
use values::order::Relation;

pub fn sign(terminal: u8) -> Sign
    ensures { operations.sign_of result ≡ sign_of terminal }
{
    match terminal {
        codes::NOT => Sign::Not,
        codes::MINUS => Sign::Negative,
        _ => Sign::Positive,
    }
}

// An operator of an interval: `<` or `<=`.
pub fn bound(terminal: u8) -> Relation
    ensures { values.relation_of result ≡ bound_of terminal }
{
    if terminal == codes::LESS {
        Relation::LessThan
    } else {
        Relation::AtMost
    }
}

pub fn logical(terminal: u8) -> Logical
    ensures { values.logical_of result ≡ logical_of terminal }
{
    match terminal {
        codes::TRUE => Logical::True,
        codes::FALSE => Logical::False,
        _ => Logical::Unknown,
    }
}

// A two-operand operator; `/` is not evaluated.
#[tactic(auto, unfolding(express::specs::Semantics::Shape::operator_of))]
pub fn operator(terminal: u8) -> Option<Operator>
    ensures { reading_of result ≡ operator_of terminal }
{
    Some(match terminal {
        codes::PLUS => Operator::Plus,
        codes::MINUS => Operator::Arithmetic(Arithmetic::Minus),
        codes::TIMES => Operator::Arithmetic(Arithmetic::Times),
        codes::DIV => Operator::Arithmetic(Arithmetic::Divide),
        codes::MOD => Operator::Arithmetic(Arithmetic::Modulo),
        codes::POWER => Operator::Arithmetic(Arithmetic::Power),
        codes::LESS => Operator::Relation(Relation::LessThan),
        codes::GREATER => Operator::Relation(Relation::GreaterThan),
        codes::LESS_EQUAL => Operator::Relation(Relation::AtMost),
        codes::GREATER_EQUAL => Operator::Relation(Relation::AtLeast),
        codes::UNEQUAL => Operator::Relation(Relation::Unequal),
        codes::EQUAL => Operator::Relation(Relation::Equal),
        codes::INSTANCE_UNEQUAL => Operator::Relation(Relation::InstanceUnequal),
        codes::INSTANCE_EQUAL => Operator::Relation(Relation::InstanceEqual),
        codes::AND => Operator::Connective(Connective::And),
        codes::OR => Operator::Connective(Connective::Or),
        codes::XOR => Operator::Connective(Connective::Xor),
        _ => return None,
    })
}
