// The readers of what stands in a schema, by recursive descent: terminals to rows.
#![tactic(auto)]

ghost use Rattle.std.specs.Prelude.{true, ◌&&◌, ◌⊎◌, ◌++◌, ◌≡◌, ◌+◌, ◌≤◌, ◌<◌, get_or};
ghost use Rattle.ebnf.specs.Set.{mem};
ghost use Rattle.ebnf.specs.Grammar.{star, nt};
ghost use Rattle.express.specs.Tokens.Terminal.{identifier, colon, DERIVE, ENTITY, ENUMERATION, OF, SELECT, SUBTYPE, TYPE};
ghost use Rattle.express.specs.Syntax.Grammar.{schema, constants, type_declaration, underlying, where_clause, domain_rule, entity, attributes, derived, ◌·◌, ◌∣◌, tok, opt, ids, simple_types};
ghost use Rattle.express.specs.Syntax.Lookahead.{tables};
ghost use Rattle.express.specs.Syntax.NodeKind as kind;
ghost use Rattle.parsing.specs.Reading.{Ready, Reads, ReadsAnywhere, Steps};
ghost use Rattle.clauses.specs.Declares.{Closes, Leaves, label_of, id_of, names_of, type_label, Types, Groups, members_of, assigned_by, declared_by, Heads};

use codes::labels;
use columns::get_or;
use expressions::expression_at;
use parsing::{Position, Read, Unexpected, expect, is_place, put_row};

// ';', and a row over all rows from `first` on
fn closed(
    terminals: &[u8],
    rows: &mut [u64],
    from: Position,
    first: usize,
    label: u64,
    name: usize,
) -> Read
    requires { (Ready terminals.now from.token from.row) × (label < 65536) × (name < 1048576) }
    ensures { Closes first label name terminals.now from.token from.row result rows.old rows.new }
{
    let end = expect(terminals, from, codes::SEMICOLON)?;
    put_row(rows, end.row, first, label, name);
    Ok(Position {
        row: end.row + 1,
        ..end
    })
}

#[tactic(auto, unfolding(ebnf::specs::Set::mem))]
fn is_simple(c: u8) -> bool
    ensures { result ≡ mem c simple_types }
{
    matches!(
        c,
        codes::BINARY
            | codes::BOOLEAN
            | codes::INTEGER
            | codes::LOGICAL
            | codes::NUMBER
            | codes::REAL
            | codes::STRING
    )
}

// Kind and role of a type's row; 0 where none begins.
// Form kept: `Types` (specs/Declares) refuses a name whose label is 0, so 0 says none, and `Some` of it would ask for a test more (d).
fn type_label(c: u8, label: u64) -> u64
    ensures { result ≡ type_label c label }
{
    if is_simple(c) {
        labels::SIMPLE_TYPE
    } else if c == codes::IDENTIFIER {
        label
    } else {
        parsing::NO_LABEL
    }
}

// A simple type, or a name.
fn base(terminals: &[u8], rows: &mut [u64], from: Position, label: u64) -> Read
    requires { (Ready terminals.now from.token from.row) × (label < 65536) }
    ensures { Types label terminals.now from.token from.row result rows.old rows.new }
{
    let kind = type_label(get_or(terminals, from.token, codes::NONE), label);
    if kind == parsing::NO_LABEL {
        return Err(Unexpected { token: from.token });
    }
    put_row(rows, from.row, from.row, kind, from.token);
    Ok(Position {
        token: from.token + 1,
        row: from.row + 1,
    })
}

// An identifier that leaves a row with nothing below it.
fn id(terminals: &[u8], rows: &mut [u64], from: Position, label: u64) -> Read
    requires { (Ready terminals.now from.token from.row) × (label < 65536) }
    ensures { Leaves label terminals.now from.token from.row result rows.old rows.new }
{
    if get_or(terminals, from.token, codes::NONE) != codes::IDENTIFIER {
        return Err(Unexpected { token: from.token });
    }
    put_row(rows, from.row, from.row, label, from.token);
    Ok(Position {
        token: from.token + 1,
        row: from.row + 1,
    })
}

// id { ',' id }
fn names(terminals: &[u8], rows: &mut [u64], from: Position, label: u64) -> Read
    requires { (Ready terminals.now from.token from.row) × (label < 65536) }
    ensures { Steps (names_of label) terminals.now from.token from.row result rows.old rows.new }
{
    let mut at = id(terminals, rows, from, label)?;
    while get_or(terminals, at.token, codes::NONE) == codes::COMMA {
        let next = Position {
            token: at.token + 1,
            ..at
        };
        at = id(terminals, rows, next, label)?;
    }
    Ok(at)
}

// '(' id { ',' id } ')'
fn ids(terminals: &[u8], rows: &mut [u64], from: Position, label: u64) -> Read
    requires { (Ready terminals.now from.token from.row) × (label < 65536) }
    ensures { Steps (ids (id_of label)) terminals.now from.token from.row result rows.old rows.new }
{
    let opened = expect(terminals, from, codes::LPAREN)?;
    let listed = names(terminals, rows, opened, label)?;
    expect(terminals, listed, codes::RPAREN)
}

// id ':' base ':=' expression ';'
fn assigned(terminals: &[u8], rows: &mut [u64], from: Position, label: u64) -> Read
    requires { (Ready terminals.now from.token from.row) × ((label ≡ kind.constant) ⊎ (label ≡ kind.derived_attribute)) }
    ensures { Reads (assigned_by label) terminals.now from.token from.row result rows.old rows.new }
{
    let name = expect(terminals, from, codes::IDENTIFIER)?;
    let colon = expect(terminals, name, codes::COLON)?;
    let kind = base(terminals, rows, colon, labels::TYPE_NAME)?;
    let becomes = expect(terminals, kind, codes::BECOMES)?;
    let given = expression_at(terminals, rows, becomes)?;
    closed(terminals, rows, given, from.row, label, from.token)
}

// One or more assignments.
fn assignments(terminals: &[u8], rows: &mut [u64], from: Position, label: u64) -> Read
    requires { (Ready terminals.now from.token from.row) × ((label ≡ kind.constant) ⊎ (label ≡ kind.derived_attribute)) }
    ensures { Steps (nt (assigned_by label) · star (nt (assigned_by label))) terminals.now from.token from.row result rows.old rows.new }
{
    let mut at = assigned(terminals, rows, from, label)?;
    while get_or(terminals, at.token, codes::NONE) == codes::IDENTIFIER {
        at = assigned(terminals, rows, at, label)?;
    }
    Ok(at)
}

// [ CONSTANT constant { constant } END_CONSTANT ';' ]
fn constants(terminals: &[u8], rows: &mut [u64], from: Position) -> Read
    requires { Ready terminals.now from.token from.row }
    ensures { Steps (opt (nt constants)) terminals.now from.token from.row result rows.old rows.new }
{
    if get_or(terminals, from.token, codes::NONE) != codes::CONSTANT {
        return Ok(from);
    }
    let next = Position {
        token: from.token + 1,
        ..from
    };
    let list = assignments(terminals, rows, next, labels::CONSTANT)?;
    let end = expect(terminals, list, codes::END_CONSTANT)?;
    expect(terminals, end, codes::SEMICOLON)
}

// [ DERIVE derived { derived } ]
fn derivations(terminals: &[u8], rows: &mut [u64], from: Position) -> Read
    requires { Ready terminals.now from.token from.row }
    ensures { Steps (opt (tok DERIVE · nt derived · star (nt derived))) terminals.now from.token from.row result rows.old rows.new }
{
    if get_or(terminals, from.token, codes::NONE) != codes::DERIVE {
        return Ok(from);
    }
    let next = Position {
        token: from.token + 1,
        ..from
    };
    assignments(terminals, rows, next, labels::DERIVED_ATTRIBUTE)
}

// id ':' stands here.
fn is_labelled(terminals: &[u8], p: usize) -> bool
    requires { p ≤ 65536 }
    ensures { result ≡ (mem (get_or terminals.now p 0) identifier && mem (get_or terminals.now (p + 1) 0) colon) }
{
    get_or(terminals, p, codes::NONE) == codes::IDENTIFIER
        && get_or(terminals, p + 1, codes::NONE) == codes::COLON
}

// [ id ':' ] expression ';'
fn rule(terminals: &[u8], rows: &mut [u64], from: Position) -> Read
    requires { Ready terminals.now from.token from.row }
    ensures { Reads domain_rule terminals.now from.token from.row result rows.old rows.new }
{
    if is_labelled(terminals, from.token) {
        let unnamed = Position {
            token: from.token + 2,
            ..from
        };
        let named = expression_at(terminals, rows, unnamed)?;
        return closed(
            terminals,
            rows,
            named,
            from.row,
            labels::LABELLED_RULE,
            from.token,
        );
    }
    let plain = expression_at(terminals, rows, from)?;
    closed(
        terminals,
        rows,
        plain,
        from.row,
        labels::UNLABELLED_RULE,
        from.token,
    )
}

// A rule begins with this terminal.
#[tactic(auto, unfolding(ebnf::specs::Set::mem))]
fn begins_rule(c: u8) -> bool
    ensures { result ≡ mem c (tables.begins domain_rule) }
{
    matches!(
        c,
        codes::IDENTIFIER
            | codes::INTEGER_LITERAL
            | codes::REAL_LITERAL
            | codes::STRING_LITERAL
            | codes::BINARY_LITERAL
            | codes::QUESTION
            | codes::PLUS
            | codes::MINUS
            | codes::LBRACE
            | codes::LPAREN
            | codes::CONST_E
            | codes::FALSE
            | codes::NOT
            | codes::PI
            | codes::SELF
            | codes::TRUE
            | codes::UNKNOWN
    )
}

// One or more rules.
fn rule_list(terminals: &[u8], rows: &mut [u64], from: Position) -> Read
    requires { Ready terminals.now from.token from.row }
    ensures { Steps (nt domain_rule · star (nt domain_rule)) terminals.now from.token from.row result rows.old rows.new }
{
    let mut at = rule(terminals, rows, from)?;
    while begins_rule(get_or(terminals, at.token, codes::NONE)) {
        at = rule(terminals, rows, at)?;
    }
    Ok(at)
}

// [ WHERE rule { rule } ]
fn rules(terminals: &[u8], rows: &mut [u64], from: Position) -> Read
    requires { Ready terminals.now from.token from.row }
    ensures { Steps (opt (nt where_clause)) terminals.now from.token from.row result rows.old rows.new }
{
    if get_or(terminals, from.token, codes::NONE) != codes::WHERE {
        return Ok(from);
    }
    let next = Position {
        token: from.token + 1,
        ..from
    };
    rule_list(terminals, rows, next)
}

// A word, and an identifier behind it.
fn head(terminals: &[u8], from: Position, word: u8) -> Read
    requires { (Ready terminals.now from.token from.row) × (0 < word) }
    ensures { Heads word terminals.now from.token from.row result }
{
    let first = expect(terminals, from, word)?;
    expect(terminals, first, codes::IDENTIFIER)
}

// ENUMERATION OF ids, of which the first word is there
fn enumeration(terminals: &[u8], rows: &mut [u64], from: Position) -> Read
    requires { (Ready terminals.now from.token from.row) × (mem (get_or terminals.now from.token 0) ENUMERATION ≡ true) }
    ensures { Reads underlying terminals.now from.token from.row result rows.old rows.new }
{
    let next = Position {
        token: from.token + 1,
        ..from
    };
    let of = expect(terminals, next, codes::OF)?;
    let items = ids(terminals, rows, of, labels::ITEM)?;
    put_row(rows, items.row, from.row, labels::ENUMERATION, from.token);
    Ok(Position {
        row: items.row + 1,
        ..items
    })
}

// SELECT ids, of which the word is there
fn selection(terminals: &[u8], rows: &mut [u64], from: Position) -> Read
    requires { (Ready terminals.now from.token from.row) × (mem (get_or terminals.now from.token 0) SELECT ≡ true) }
    ensures { Reads underlying terminals.now from.token from.row result rows.old rows.new }
{
    let next = Position {
        token: from.token + 1,
        ..from
    };
    let selected = ids(terminals, rows, next, labels::SELECT_NAME)?;
    put_row(rows, selected.row, from.row, labels::SELECT, from.token);
    Ok(Position {
        row: selected.row + 1,
        ..selected
    })
}

// base | ENUMERATION OF ids | SELECT ids
fn underlying(terminals: &[u8], rows: &mut [u64], from: Position) -> Read
    requires { Ready terminals.now from.token from.row }
    ensures { Reads underlying terminals.now from.token from.row result rows.old rows.new }
{
    let c = get_or(terminals, from.token, codes::NONE);
    if c == codes::ENUMERATION {
        enumeration(terminals, rows, from)
    } else if c == codes::SELECT {
        selection(terminals, rows, from)
    } else {
        base(terminals, rows, from, labels::RENAMED_TYPE)
    }
}

// TYPE id '=' underlying ';' [ where ] END_TYPE ';'
fn type_declaration(terminals: &[u8], rows: &mut [u64], from: Position) -> Read
    requires { Ready terminals.now from.token from.row }
    ensures { Reads type_declaration terminals.now from.token from.row result rows.old rows.new }
{
    let name = head(terminals, from, codes::TYPE)?;
    let equal = expect(terminals, name, codes::EQUAL)?;
    let under = underlying(terminals, rows, equal)?;
    let semicolon = expect(terminals, under, codes::SEMICOLON)?;
    let ruled = rules(terminals, rows, semicolon)?;
    let end = expect(terminals, ruled, codes::END_TYPE)?;
    let type_name = from.token + 1;
    closed(terminals, rows, end, from.row, labels::TYPE, type_name)
}

// base ';', and a row over all rows from `first` on
fn group(
    terminals: &[u8],
    rows: &mut [u64],
    from: Position,
    first: usize,
    label: u64,
    name: usize,
) -> Read
    requires { (Ready terminals.now from.token from.row) × (label < 65536) × (name < 1048576) }
    ensures { Groups first label name terminals.now from.token from.row result rows.old rows.new }
{
    let kind = base(terminals, rows, from, labels::TYPE_NAME)?;
    closed(terminals, rows, kind, first, label, name)
}

// id { ',' id } ':' [ OPTIONAL ] base ';'
fn attributes(terminals: &[u8], rows: &mut [u64], from: Position) -> Read
    requires { Ready terminals.now from.token from.row }
    ensures { Reads attributes terminals.now from.token from.row result rows.old rows.new }
{
    let listed = names(terminals, rows, from, labels::ATTRIBUTE_NAME)?;
    let colon = expect(terminals, listed, codes::COLON)?;
    if get_or(terminals, colon.token, codes::NONE) == codes::OPTIONAL {
        let next = Position {
            token: colon.token + 1,
            ..colon
        };
        return group(
            terminals,
            rows,
            next,
            from.row,
            labels::OPTIONAL_GROUP,
            from.token,
        );
    }
    group(
        terminals,
        rows,
        colon,
        from.row,
        labels::ATTRIBUTE_GROUP,
        from.token,
    )
}

// { attributes }
fn groups(terminals: &[u8], rows: &mut [u64], from: Position) -> Read
    requires { Ready terminals.now from.token from.row }
    ensures { Steps (star (nt attributes)) terminals.now from.token from.row result rows.old rows.new }
{
    let mut at = from;
    while get_or(terminals, at.token, codes::NONE) == codes::IDENTIFIER {
        at = attributes(terminals, rows, at)?;
    }
    Ok(at)
}

// [ SUBTYPE OF ids ]
fn supertypes(terminals: &[u8], rows: &mut [u64], from: Position) -> Read
    requires { Ready terminals.now from.token from.row }
    ensures { Steps (opt (tok SUBTYPE · tok OF · ids (id_of (label_of kind.name kind.supertype_name)))) terminals.now from.token from.row result rows.old rows.new }
{
    if get_or(terminals, from.token, codes::NONE) != codes::SUBTYPE {
        return Ok(from);
    }
    let next = Position {
        token: from.token + 1,
        ..from
    };
    let of = expect(terminals, next, codes::OF)?;
    ids(terminals, rows, of, labels::SUPERTYPE_NAME)
}

// { attributes } [ DERIVE .. ] [ where ]
fn members(terminals: &[u8], rows: &mut [u64], from: Position) -> Read
    requires { Ready terminals.now from.token from.row }
    ensures { Steps members_of terminals.now from.token from.row result rows.old rows.new }
{
    let grouped = groups(terminals, rows, from)?;
    let values = derivations(terminals, rows, grouped)?;
    rules(terminals, rows, values)
}

// ENTITY id [ SUBTYPE OF ids ] ';' members END_ENTITY ';'
fn entity(terminals: &[u8], rows: &mut [u64], from: Position) -> Read
    requires { Ready terminals.now from.token from.row }
    ensures { Reads entity terminals.now from.token from.row result rows.old rows.new }
{
    let name = head(terminals, from, codes::ENTITY)?;
    let supers = supertypes(terminals, rows, name)?;
    let semicolon = expect(terminals, supers, codes::SEMICOLON)?;
    let body = members(terminals, rows, semicolon)?;
    let end = expect(terminals, body, codes::END_ENTITY)?;
    let entity_name = from.token + 1;
    closed(terminals, rows, end, from.row, labels::ENTITY, entity_name)
}

#[tactic(auto, unfolding(ebnf::specs::Set::mem))]
fn begins_declaration(c: u8) -> bool
    ensures { result ≡ mem c (TYPE ++ ENTITY) }
{
    matches!(c, codes::ENTITY | codes::TYPE)
}

// type | entity
fn declaration(terminals: &[u8], rows: &mut [u64], from: Position) -> Read
    requires { Ready terminals.now from.token from.row }
    ensures { Reads (declared_by (get_or terminals.now from.token 0)) terminals.now from.token from.row result rows.old rows.new }
{
    if get_or(terminals, from.token, codes::NONE) == codes::TYPE {
        type_declaration(terminals, rows, from)
    } else {
        entity(terminals, rows, from)
    }
}

// { type | entity }
fn declarations(terminals: &[u8], rows: &mut [u64], from: Position) -> Read
    requires { Ready terminals.now from.token from.row }
    ensures { Steps (star (nt type_declaration ∣ nt entity)) terminals.now from.token from.row result rows.old rows.new }
{
    let mut at = from;
    while begins_declaration(get_or(terminals, at.token, codes::NONE)) {
        at = declaration(terminals, rows, at)?;
    }
    Ok(at)
}

// SCHEMA id ';' [ constants ] { type | entity } END_SCHEMA ';'
fn schema(terminals: &[u8], rows: &mut [u64], from: Position) -> Read
    requires { Ready terminals.now from.token from.row }
    ensures { Reads schema terminals.now from.token from.row result rows.old rows.new }
{
    let name = head(terminals, from, codes::SCHEMA)?;
    let semicolon = expect(terminals, name, codes::SEMICOLON)?;
    let values = constants(terminals, rows, semicolon)?;
    let declared = declarations(terminals, rows, values)?;
    let end = expect(terminals, declared, codes::END_SCHEMA)?;
    let schema_name = from.token + 1;
    closed(terminals, rows, end, from.row, labels::SCHEMA, schema_name)
}

// A schema from a place on; where that is no place, nothing is read.
pub fn schema_at(terminals: &[u8], rows: &mut [u64], from: Position) -> Read
    ensures { ReadsAnywhere schema terminals.now from.token from.row result rows.old rows.new }
{
    if is_place(terminals, from) {
        schema(terminals, rows, from)
    } else {
        Err(Unexpected { token: from.token })
    }
}
