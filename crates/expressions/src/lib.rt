// Expressions by recursive descent: terminals to rows of nodes.
#![tactic(auto)]

ghost use Rattle.std.specs.Prelude.{true, ◌&&◌, ◌≡◌, ◌+◌, ◌≤◌, ◌<◌, get_or, MatchOption};
ghost use Rattle.ebnf.specs.Set.{mem};
ghost use Rattle.express.specs.Tokens.Terminal.{identifier, dot, lbrace};
ghost use Rattle.express.specs.Syntax.Grammar.{expression, sum, term, factor, operand, atom, interval, relations, additions, multiplications, signs, comparisons};
ghost use Rattle.parsing.specs.Reading.{atom_label, Ready, Reads, ReadsAnywhere, Compares, Combines};

use codes::labels;
use columns::get_or;
use parsing::{Position, Read, Unexpected, expect, is_place, put_row};

#[tactic(auto, unfolding(ebnf::specs::Set::mem))]
fn is_relation(c: u8) -> bool
    ensures { result ≡ mem c relations }
{
    matches!(
        c,
        codes::EQUAL
            | codes::LESS
            | codes::LESS_EQUAL
            | codes::GREATER
            | codes::GREATER_EQUAL
            | codes::UNEQUAL
            | codes::INSTANCE_EQUAL
            | codes::INSTANCE_UNEQUAL
    )
}

#[tactic(auto, unfolding(ebnf::specs::Set::mem))]
fn is_addition(c: u8) -> bool
    ensures { result ≡ mem c additions }
{
    matches!(c, codes::PLUS | codes::MINUS | codes::OR | codes::XOR)
}

#[tactic(auto, unfolding(ebnf::specs::Set::mem))]
fn is_multiplication(c: u8) -> bool
    ensures { result ≡ mem c multiplications }
{
    matches!(
        c,
        codes::TIMES | codes::SLASH | codes::AND | codes::DIV | codes::MOD
    )
}

#[tactic(auto, unfolding(ebnf::specs::Set::mem))]
fn is_sign(c: u8) -> bool
    ensures { result ≡ mem c signs }
{
    matches!(c, codes::PLUS | codes::MINUS | codes::NOT)
}

#[tactic(auto, unfolding(ebnf::specs::Set::mem))]
fn is_comparison(c: u8) -> bool
    ensures { result ≡ mem c comparisons }
{
    matches!(c, codes::LESS | codes::LESS_EQUAL)
}

// Kind and role of the row of an atom; none where none begins.
#[tactic(auto, unfolding(ebnf::specs::Set::mem))]
fn atom_label(c: u8) -> Option<u64>
    ensures { MatchOption result (atom_label c ≡ 0) (λ label. (label ≡ atom_label c) × (0 < label)) }
{
    match c {
        codes::INTEGER_LITERAL => Some(labels::INTEGER),
        codes::BINARY_LITERAL => Some(labels::BINARY),
        codes::FALSE | codes::TRUE | codes::UNKNOWN => Some(labels::LOGICAL),
        codes::QUESTION => Some(labels::INDETERMINATE),
        codes::REAL_LITERAL | codes::STRING_LITERAL | codes::CONST_E | codes::PI => Some(
            labels::OTHER,
        ),
        codes::IDENTIFIER => Some(labels::NAME_IN_EXPRESSION),
        codes::SELF => Some(labels::SELF_REFERENCE),
        _ => None,
    }
}

// expression = sum [ relation sum ]
#[cycle(atom_compared_expression_factor_interval_operand_signed_sum_term)]
fn expression(terminals: &[u8], rows: &mut [u64], from: Position) -> Read
    requires { Ready terminals.now from.token from.row }
    ensures { Reads expression terminals.now from.token from.row result rows.old rows.new }
{
    let left = sum(terminals, rows, from)?;
    if !is_relation(get_or(terminals, left.token, codes::NONE)) {
        return Ok(left);
    }
    let operand = Position {
        token: left.token + 1,
        ..left
    };
    let right = sum(terminals, rows, operand)?;
    put_row(rows, right.row, from.row, labels::TWO_OPERAND, left.token);
    Ok(Position {
        row: right.row + 1,
        ..right
    })
}

// The row over two operands and the operator between them, which stands before the second, at q; a first operand, where all begins, has none. The
// number of rows then.
fn combined(rows: &mut [u64], from: Position, q: usize, m: usize) -> usize
    requires { (from.token ≤ q) × (m ≤ 65536) }
    ensures { Combines from.token q from.row m result rows.old rows.new }
{
    if q == from.token {
        return m;
    }
    put_row(rows, m, from.row, labels::TWO_OPERAND, q - 1);
    m + 1
}

// sum = term { ( '+' | '-' | OR | XOR ) term }
#[cycle(atom_compared_expression_factor_interval_operand_signed_sum_term)]
fn sum(terminals: &[u8], rows: &mut [u64], from: Position) -> Read
    requires { Ready terminals.now from.token from.row }
    ensures { Reads sum terminals.now from.token from.row result rows.old rows.new }
{
    let mut at = from;
    loop {
        let right = term(terminals, rows, at)?;
        let row = combined(rows, from, at.token, right.row);
        if !is_addition(get_or(terminals, right.token, codes::NONE)) {
            return Ok(Position { row, ..right });
        }
        at = Position {
            token: right.token + 1,
            row,
        };
    }
}

// term = factor { ( '*' | '/' | DIV | MOD | AND ) factor }
#[cycle(atom_compared_expression_factor_interval_operand_signed_sum_term)]
fn term(terminals: &[u8], rows: &mut [u64], from: Position) -> Read
    requires { Ready terminals.now from.token from.row }
    ensures { Reads term terminals.now from.token from.row result rows.old rows.new }
{
    let mut at = from;
    loop {
        let right = factor(terminals, rows, at)?;
        let row = combined(rows, from, at.token, right.row);
        if !is_multiplication(get_or(terminals, right.token, codes::NONE)) {
            return Ok(Position { row, ..right });
        }
        at = Position {
            token: right.token + 1,
            row,
        };
    }
}

// factor = operand [ '**' operand ], in a loop of at most two turns: with one call of `operand` the compiler takes all below `sum` as one function.
#[cycle(atom_compared_expression_factor_interval_operand_signed_sum_term)]
fn factor(terminals: &[u8], rows: &mut [u64], from: Position) -> Read
    requires { Ready terminals.now from.token from.row }
    ensures { Reads factor terminals.now from.token from.row result rows.old rows.new }
{
    let mut at = from;
    loop {
        let right = operand(terminals, rows, at)?;
        let row = combined(rows, from, at.token, right.row);
        if at.token > from.token || get_or(terminals, right.token, codes::NONE) != codes::POWER {
            return Ok(Position { row, ..right });
        }
        at = Position {
            token: right.token + 1,
            row,
        };
    }
}

// operand = id '.' id | interval | [ '+' | '-' | NOT ] atom
#[cycle(atom_compared_expression_factor_interval_operand_signed_sum_term)]
fn operand(terminals: &[u8], rows: &mut [u64], from: Position) -> Read
    requires { Ready terminals.now from.token from.row }
    ensures { Reads operand terminals.now from.token from.row result rows.old rows.new }
{
    let c = get_or(terminals, from.token, codes::NONE);
    if is_qualified(terminals, from.token) {
        qualified(terminals, rows, from)
    } else if c == codes::LBRACE {
        interval(terminals, rows, from)
    } else if is_sign(c) {
        signed(terminals, rows, from)
    } else {
        atom(terminals, rows, from)
    }
}

// id '.' stands here.
fn is_qualified(terminals: &[u8], p: usize) -> bool
    requires { p ≤ 65536 }
    ensures { result ≡ (mem (get_or terminals.now p 0) identifier && mem (get_or terminals.now (p + 1) 0) dot) }
{
    get_or(terminals, p, codes::NONE) == codes::IDENTIFIER
        && get_or(terminals, p + 1, codes::NONE) == codes::DOT
}

// id '.' id, of which the id and the dot are there
fn qualified(terminals: &[u8], rows: &mut [u64], from: Position) -> Read
    requires { (Ready terminals.now from.token from.row) × ((mem (get_or terminals.now from.token 0) identifier && mem (get_or terminals.now (from.token + 1) 0) dot) ≡ true) }
    ensures { Reads operand terminals.now from.token from.row result rows.old rows.new }
{
    let item = from.token + 2;
    if get_or(terminals, item, codes::NONE) != codes::IDENTIFIER {
        return Err(Unexpected { token: item });
    }
    put_row(rows, from.row, from.row, labels::QUALIFIED_ITEM, item);
    Ok(Position {
        token: item + 1,
        row: from.row + 1,
    })
}

// a sign, which is there, and an atom: no power and no type.item
#[cycle(atom_compared_expression_factor_interval_operand_signed_sum_term)]
fn signed(terminals: &[u8], rows: &mut [u64], from: Position) -> Read
    requires { (Ready terminals.now from.token from.row) × (mem (get_or terminals.now from.token 0) signs ≡ true) }
    ensures { Reads operand terminals.now from.token from.row result rows.old rows.new }
{
    let operand = Position {
        token: from.token + 1,
        ..from
    };
    let inner = atom(terminals, rows, operand)?;
    put_row(rows, inner.row, from.row, labels::UNARY, from.token);
    Ok(Position {
        row: inner.row + 1,
        ..inner
    })
}

// atom = '(' expression ')' | a literal, a name or SELF
#[cycle(atom_compared_expression_factor_interval_operand_signed_sum_term)]
fn atom(terminals: &[u8], rows: &mut [u64], from: Position) -> Read
    requires { Ready terminals.now from.token from.row }
    ensures { Reads atom terminals.now from.token from.row result rows.old rows.new }
{
    let c = get_or(terminals, from.token, codes::NONE);
    if c == codes::LPAREN {
        let opened = Position {
            token: from.token + 1,
            ..from
        };
        let inner = expression(terminals, rows, opened)?;
        return expect(terminals, inner, codes::RPAREN);
    }
    let Some(label) = atom_label(c) else {
        return Err(Unexpected { token: from.token });
    };
    put_row(rows, from.row, from.row, label, from.token);
    Ok(Position {
        token: from.token + 1,
        row: from.row + 1,
    })
}

// interval = '{' sum cmp sum cmp sum '}', of which the brace is there
#[cycle(atom_compared_expression_factor_interval_operand_signed_sum_term)]
fn interval(terminals: &[u8], rows: &mut [u64], from: Position) -> Read
    requires { (Ready terminals.now from.token from.row) × (mem (get_or terminals.now from.token 0) lbrace ≡ true) }
    ensures { Reads interval terminals.now from.token from.row result rows.old rows.new }
{
    let opened = Position {
        token: from.token + 1,
        ..from
    };
    let low = sum(terminals, rows, opened)?;
    let item = compared(terminals, rows, low)?;
    let high = compared(terminals, rows, item)?;
    let end = expect(terminals, high, codes::RBRACE)?;
    put_row(rows, end.row, from.row, labels::INTERVAL, from.token);
    Ok(Position {
        row: end.row + 1,
        ..end
    })
}

// cmp sum
#[cycle(atom_compared_expression_factor_interval_operand_signed_sum_term)]
fn compared(terminals: &[u8], rows: &mut [u64], from: Position) -> Read
    requires { Ready terminals.now from.token from.row }
    ensures { Compares terminals.now from.token from.row result rows.old rows.new }
{
    if !is_comparison(get_or(terminals, from.token, codes::NONE)) {
        return Err(Unexpected { token: from.token });
    }
    put_row(
        rows,
        from.row,
        from.row,
        labels::INTERVAL_OPERATOR,
        from.token,
    );
    let operand = Position {
        token: from.token + 1,
        row: from.row + 1,
    };
    sum(terminals, rows, operand)
}

// An expression from a place on; where that is no place, nothing is read.
pub fn expression_at(terminals: &[u8], rows: &mut [u64], from: Position) -> Read
    ensures { ReadsAnywhere expression terminals.now from.token from.row result rows.old rows.new }
{
    if is_place(terminals, from) {
        expression(terminals, rows, from)
    } else {
        Err(Unexpected { token: from.token })
    }
}
