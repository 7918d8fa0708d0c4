// Kinds and declared types by their numbers: what is found at a node, from the kinds of its operands.
#![tactic(auto)]

ghost use Rattle.std.specs.Prelude.{◌≡◌, ◌&&◌};
ghost use Rattle.express.specs.Semantics.DeclaredColumn.{declared_number};
ghost use Rattle.express.specs.Semantics.Declared as Declared;
ghost use Rattle.express.specs.Semantics.Shape.{operator_of, sign_of};
ghost use Rattle.express.specs.Semantics.Operate.{logicals, integral, truthful, summable, comparable};
ghost use Rattle.express.specs.Semantics.Kind.{kind_number, of_number, if_fits};
ghost use Rattle.express.specs.Semantics.Kind as Kind;
ghost use Rattle.kind_rules.specs.Findings.{reply_of, finding_of, class_of, class_of_sign, applied, leaf_found, KindOfType, Evaluated, Held};

use codes::types;

// The kinds; that of the items of an enumeration is 6 more than the node of its type.
pub const UNTYPED: u32 = 0;

pub const UNDETERMINED: u32 = 1;

pub const INTEGERS: u32 = 2;

pub const LOGICALS: u32 = 3;

pub const BINARIES: u32 = 4;

pub const STRINGS: u32 = 5;

// Operators by what they take and give; `/` is not evaluated.
#[derive(Clone, Copy, Debug, PartialEq, Eq)]
pub enum Class {
    Plus,
    Arithmetic,
    Relation,
    Connective,
    Unevaluated,
}

// Why a node has no kind.
#[derive(Clone, Copy, Debug, PartialEq, Eq)]
pub enum Fault {
    NotEvaluated,
    Misfit,
}

// Its reply.
impl From<Fault> for u8 {
    ghost from_gives = { λ f n. n ≡ reply_of f };

    fn from(f: Fault) -> u8 {
        match f {
            Fault::NotEvaluated => codes::replies::NOT_EVALUATED,
            Fault::Misfit => codes::replies::MISFIT,
        }
    }
}

// The kind of two operands together.
pub fn common(j: u32, k: u32) -> u32
    ensures { result ≡ kind_number (Kind.common (of_number j) (of_number k)) }
{
    if j == UNDETERMINED {
        k
    } else if k == UNDETERMINED || j == k {
        j
    } else {
        UNTYPED
    }
}

// A kind where a test passes, else the reply.
pub fn fits(test: bool, k: u32) -> Result<u32, Fault>
    ensures { finding_of result ≡ if_fits test (of_number k) }
{
    if test { Ok(k) } else { Err(Fault::Misfit) }
}

// What arithmetic takes, what connectives do, what `+` does and what relations do.
fn is_integral(k: u32) -> bool
    ensures { result ≡ integral (of_number k) }
{
    matches!(k, INTEGERS | UNDETERMINED)
}

fn is_truthful(k: u32) -> bool
    ensures { result ≡ truthful (of_number k) }
{
    matches!(k, LOGICALS | UNDETERMINED)
}

fn is_summable(k: u32) -> bool
    ensures { result ≡ summable (of_number k) }
{
    matches!(k, INTEGERS | BINARIES | STRINGS | UNDETERMINED)
}

fn is_comparable(k: u32) -> bool
    ensures { result ≡ comparable (of_number k) }
{
    k != UNTYPED
}

// What an operator of a class makes of operands of a kind.
pub fn apply(class: Class, k: u32) -> Result<u32, Fault>
    ensures { finding_of result ≡ applied class (of_number k) }
{
    match class {
        Class::Plus => fits(is_summable(k), k),
        Class::Arithmetic => fits(is_integral(k), INTEGERS),
        Class::Relation => fits(is_comparable(k), LOGICALS),
        Class::Connective => fits(is_truthful(k), LOGICALS),
        Class::Unevaluated => Err(Fault::NotEvaluated),
    }
}

// The class of a two-operand operator.
#[tactic(auto, unfolding(express::specs::Semantics::Shape::operator_of))]
pub fn operator_class(terminal: u8) -> Class
    ensures { result ≡ class_of (operator_of terminal) }
{
    match terminal {
        codes::PLUS => Class::Plus,
        codes::MINUS | codes::TIMES | codes::DIV | codes::MOD | codes::POWER => Class::Arithmetic,
        codes::EQUAL | codes::UNEQUAL | codes::INSTANCE_EQUAL | codes::INSTANCE_UNEQUAL =>
            Class::Relation,
        codes::LESS | codes::GREATER | codes::LESS_EQUAL | codes::GREATER_EQUAL => Class::Relation,
        codes::AND | codes::OR | codes::XOR => Class::Connective,
        _ => Class::Unevaluated,
    }
}

// A sign takes and gives what arithmetic does, NOT what connectives do.
pub fn sign_class(terminal: u8) -> Class
    ensures { result ≡ class_of_sign (sign_of terminal) }
{
    if terminal == codes::NOT {
        Class::Connective
    } else {
        Class::Arithmetic
    }
}

// Do two kinds agree?
fn agree(j: u32, k: u32) -> bool
    ensures { result ≡ comparable (Kind.common (of_number j) (of_number k)) }
{
    is_comparable(common(j, k))
}

// An interval: each pair of neighbours by itself.
pub fn interval(low: u32, item: u32, high: u32) -> Result<u32, Fault>
    ensures { finding_of result ≡ if_fits (comparable (Kind.common (of_number low) (of_number item)) && comparable (Kind.common (of_number item) (of_number high))) logicals }
{
    fits(agree(low, item) && agree(item, high), LOGICALS)
}

// The kind of a declared type.
pub fn kind_of_type(declared: u32) -> u32
    ensures { KindOfType declared result }
{
    if declared == types::BOOLEAN {
        LOGICALS
    } else {
        declared
    }
}

// A kind where the declared type is evaluated.
pub fn evaluated(declared: u32, k: u32) -> Result<u32, Fault>
    ensures { Evaluated declared k result }
{
    if declared == types::OTHER {
        Err(Fault::NotEvaluated)
    } else {
        Ok(k)
    }
}

// A constant: its declared type, and the kind of its expression.
pub fn constant(declared: u32, value: u32) -> Result<u32, Fault>
    ensures { Held declared value result }
{
    let k = kind_of_type(declared);
    fits(agree(k, value), k)
}

// The number of a simple type.
#[tactic(auto, unfolding(express::specs::Semantics::Declared::simple))]
pub fn simple(terminal: u8) -> u32
    ensures { result ≡ declared_number (Declared.simple terminal) }
{
    match terminal {
        codes::INTEGER => types::INTEGER,
        codes::BOOLEAN => types::BOOLEAN,
        codes::LOGICAL => types::LOGICAL,
        codes::BINARY => types::BINARY,
        codes::STRING => types::STRING,
        _ => types::OTHER,
    }
}

// A node that has neither operands nor a name, and is no type. Of a real, a string, PI and CONST_E the string alone is evaluated.
pub fn leaf(kind: u8, terminal: u8) -> Result<u32, Fault>
    ensures { finding_of result ≡ leaf_found kind terminal }
{
    match kind {
        codes::nodes::INTEGER => Ok(INTEGERS),
        codes::nodes::BINARY => Ok(BINARIES),
        codes::nodes::LOGICAL => Ok(LOGICALS),
        codes::nodes::INDETERMINATE => Ok(UNDETERMINED),
        codes::nodes::OTHER if terminal == codes::STRING_LITERAL => Ok(STRINGS),
        codes::nodes::INTERVAL_OPERATOR => Ok(UNTYPED),
        _ => Err(Fault::NotEvaluated),
    }
}
