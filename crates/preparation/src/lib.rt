// The dictionary of what a file declares is made: its nodes are classed and counted, and their entries stored.
#![tactic(auto)]

ghost use Rattle.std.specs.Prelude.{◌≡◌, true, cond, ◌&&◌, ◌+◌, ◌/◌, ◌%◌, ◌≤◌, ◌<◌, length, get_or, set};
ghost use Rattle.scopes.specs.Entries.{sorts, Entry, radix};
ghost use Rattle.scopes.specs.Standing.{table_of, declares, sort_by, entry_count, class_of, class_table, PassedBy, Ended, MoreBy, Counted, Counting};
ghost use Rattle.preparation.specs.Counting.{CountedTo};
ghost use Rattle.preparation.specs.Declaring.{may_declare};
ghost use Rattle.preparation.specs.Fitting.{AtMost, Fitting};
ghost use Rattle.scopes.specs.NoneFrom.{NoneFrom};
ghost use Rattle.scopes.specs.Preparation.{Consistent, Room, Answers, Decides, Enterable, Entered, Filled};

use columns::{get_or, index, put};
use scopes::dictionary::{Unfit, key, scope};
use scopes::{Counts, DECLARATIONS, Here, NO_SORT, RADIX, SCHEMAS};

// What a node declares: a row for each kind of node, a column for each role, the last one for all roles from 7 on. A class is a sort,
// and 8 where its entry stands behind the declarations; it stands here as a letter, that of class 0 being @. So @ is nothing, B a constant,
// type or entity, I a schema, K an item, L an attribute or a rule with a label, and M a supertype in a list.
const CLASSES: [u8; 256] = *b"\
    @@@@@@@@\
    @@@@@@@@\
    @@@@@@@@\
    @@@@@@@@\
    @@@@@@@@\
    @@@@@@@@\
    @@@@@M@@\
    @@@@@@@@\
    @@@@@@@@\
    @@@@@@@@\
    @@@@@@@@\
    @@@@@@@@\
    @@@@@@@@\
    @@@@@@@@\
    KKKKKKKK\
    @@@@@@@@\
    @@@@@@@@\
    BBBBBBBB\
    BBBBBBBB\
    LLLLLLLL\
    @@@@@@@@\
    @@@@@@@@\
    LLLLLLLL\
    @L@@@@@@\
    BBBBBBBB\
    IIIIIIII\
    @@@@@@@@\
    @@@@@@@@\
    @@@@@@@@\
    @@@@@@@@\
    @@@@@@@@\
    @@@@@@@@";

// The kinds that have a row, and the columns of a row.
const ROWS: u8 = 32;

const COLUMNS: usize = 8;

// The class of what declares nothing.
const NOTHING: u8 = 0;

// In a class, the sort is what is below this number.
const SORTS: u8 = 8;

// So many nodes are counted at a time: a byte holds the number of their entries.
const BLOCK: usize = 128;

// The sort of a node and how many entries it has behind the declarations, as one number.
fn class(classes: &[u8; 256], kind: u8, role: u32) -> u8
    requires { classes.now ≡ class_table }
    ensures { result ≡ class_of (sort_by kind role) }
{
    if ROWS <= kind {
        return NOTHING;
    }
    let column = columns::index(role).min(COLUMNS - 1);
    classes[columns::byte_index(kind) * COLUMNS + column] - b'@'
}

// The sort in a class.
fn sort_in(class: u8) -> u64
    ensures { result ≡ class % sorts }
{
    (class % SORTS) as u64
}

fn entries_in(class: u8) -> usize
    ensures { result ≡ class / sorts }
{
    (class / SORTS) as usize
}

fn choose(test: bool, yes: usize, no: usize) -> usize
    ensures { result ≡ cond test yes no }
{
    if test { yes } else { no }
}

// What is known past the last node.
fn ended(nodes: usize, counts: Counts) -> Here
    ensures { Ended nodes counts result }
{
    Here {
        owner: nodes,
        schema: nodes,
        vertex: counts.declarations,
        other: counts.others,
    }
}

// What is known at node i, from its class and from what is known at the next node.
fn passed(class: u8, i: usize, after: Here) -> Here
    ensures { PassedBy class i after result }
{
    let sort = sort_in(class);
    let owner = choose(sort == DECLARATIONS, i, after.owner);
    let schema = choose(sort == SCHEMAS, i, after.schema);
    let vertex = after
        .vertex
        .saturating_sub(choose(sort == DECLARATIONS, 1, 0));
    let other = after.other.saturating_sub(entries_in(class));
    Here {
        owner,
        schema,
        vertex,
        other,
    }
}

// One more node, before which there are so many entries.
fn more(class: u8, before: Counts) -> Counts
    requires { (before.declarations < radix) × (before.others < radix) }
    ensures { MoreBy class before result }
{
    let declarations = before.declarations + choose(sort_in(class) == DECLARATIONS, 1, 0);
    let others = before.others + entries_in(class);
    Counts {
        declarations,
        others,
    }
}

fn one(test: bool) -> u8
    ensures { (result ≡ cond test 1 0) × (result ≤ 1) }
{
    u8::from(test)
}

// How many declarations a node is, and how many entries it has behind these: sums of tests, so that the compiler counts many nodes at once.
fn declarations_of(kind: u8) -> u8
    ensures { result ≡ cond (declares kind) 1 0 }
{
    one(kind == codes::nodes::CONSTANT)
        + one(kind == codes::nodes::TYPE)
        + one(kind == codes::nodes::ENTITY)
}

fn others_of(kind: u8, role: u8) -> u8
    ensures { result ≡ entry_count (sort_by kind role) }
{
    let named = one(kind == codes::nodes::SCHEMA) + one(kind == codes::nodes::ITEM);
    let attributes = one(kind == codes::nodes::ATTRIBUTE_NAME)
        + one(kind == codes::nodes::DERIVED_ATTRIBUTE);
    let rules = one((kind == codes::nodes::RULE) & (role as u32 == codes::roles::LABELLED));
    let supertypes = one(
        (kind == codes::nodes::NAME) & (role as u32 == codes::roles::SUPERTYPE_NAME),
    );
    named + attributes + rules + supertypes
}

// May a node of this kind and role declare something? Most nodes are those of expressions.
fn may_declare(kind: u8, role: u8) -> bool
    ensures { result ≡ may_declare kind role }
{
    (kind == codes::nodes::NAME) & (role as u32 == codes::roles::SUPERTYPE_NAME)
        | (codes::nodes::ITEM <= kind)
}

// The nodes before an end, without the last ones, of which none may declare something.
fn declaring_before(kinds: &[u8], roles: &[u8], end: usize) -> usize
    requires { (end ≤ length kinds.now) × (end ≤ length roles.now) }
    ensures { NoneFrom (λ n. may_declare (get_or kinds.now n 0) (get_or roles.now n 0)) 0 end result }
{
    for i in (0..end).rev() {
        if may_declare(kinds[i], roles[i]) {
            return i + 1;
        }
    }
    0
}

// The nodes of a block, counted in bytes.
fn count_block(kinds: &[u8], roles: &[u8], from: usize, to: usize, before: Counts) -> Counts
    requires from_le_to { (from ≤ to) × (to ≤ from + 128) × (to ≤ length kinds.now) × (to ≤ length roles.now) × (length kinds.now < radix) }
    requires counted_to { CountedTo kinds.now roles.now from before }
    ensures { CountedTo kinds.now roles.now to result }
{
    let mut declarations: u8 = 0;
    let mut others: u8 = 0;
    for i in from..to {
        declarations += declarations_of(kinds[i]);
        others += others_of(kinds[i], roles[i]);
    }
    Counts {
        declarations: before.declarations + columns::byte_index(declarations),
        others: before.others + columns::byte_index(others),
    }
}

// The nodes from one on, whether or not they have roles.
fn count_from(kinds: &[u8], roles: &[u8], from: usize, before: Counts) -> Counts
    requires { (from ≤ length kinds.now) × (length kinds.now < radix) × CountedTo kinds.now roles.now from before }
    ensures { CountedTo kinds.now roles.now (length kinds.now) result }
{
    let classes = CLASSES;
    let mut so_far = before;
    for i in from..kinds.len() {
        so_far = more(
            class(&classes, kinds[i], get_or(roles, i, 0) as u32),
            so_far,
        );
    }
    so_far
}

// How many entries the nodes have: none where there are too many nodes.
pub fn count_entries(kinds: &[u8], roles: &[u8]) -> Counts
    ensures { Counting kinds.now roles.now result }
{
    let mut so_far = Counts {
        declarations: 0,
        others: 0,
    };
    if RADIX <= kinds.len() as u64 {
        return so_far;
    }
    let blocks = kinds.len().min(roles.len());
    let mut i = 0;
    while i < blocks {
        let to = blocks.min(i + BLOCK);
        so_far = count_block(kinds, roles, i, to, so_far);
        i = to;
    }
    count_from(kinds, roles, i, so_far)
}

// A number that is as large as the largest of a column: the compiler takes many at once.
fn largest(column: &[u32]) -> u32
    ensures { AtMost column.now (length column.now) result }
{
    let mut most: u32 = 0;
    for x in column {
        most = most.max(*x);
    }
    most
}

// Is every number of the one column a place in the other, and every number there small? So it is in all files that are read.
fn surely_fits(tokens: &[u32], symbols: &[u32]) -> bool
    ensures { result ≡ true → Fitting tokens.now symbols.now }
{
    index(largest(tokens)) < symbols.len() && (largest(symbols) as u64) < RADIX
}

// Do the columns of nodes and tokens fit each other?
fn consistent(kinds: &[u8], tokens: &[u32], roles: &[u8], symbols: &[u32]) -> bool
    ensures { Decides (Consistent (table_of kinds.now tokens.now roles.now symbols.now)) result }
{
    if RADIX <= kinds.len() as u64 {
        return false;
    }
    if tokens.len().min(roles.len()) < kinds.len() {
        return false;
    }
    if surely_fits(tokens, symbols) {
        return true;
    }
    for i in 0..kinds.len() {
        let k = index(tokens[i]);
        if symbols.len() <= k || RADIX <= symbols[k] as u64 {
            return false;
        }
    }
    true
}

// Is there room for so many entries?
fn room(entries: usize, keys: usize, nodes: usize, heads: usize, next: usize) -> bool
    ensures { Decides (Room entries keys nodes heads next) result }
{
    heads != 0 && entries <= keys.min(nodes).min(next)
}

fn enter(keys: &mut [u64], nodes: &mut [u32], at: usize, key: u64, node: usize)
    requires { node < radix }
    ensures { (keys.new ≡ set keys.old at key) × (nodes.new ≡ set nodes.old at node) }
{
    put(keys, at, key);
    put(nodes, at, node as u32);
}

// Enters what a node declares: a declaration at its vertex, all else at its place behind them.
fn enter_node(
    keys: &mut [u64],
    nodes: &mut [u32],
    other: usize,
    here: Here,
    sort: u64,
    symbol: u32,
    node: usize,
)
    requires { Enterable sort here.schema here.owner node }
    ensures entered { Entered (λ (e : Entry). e.key) sort here.schema here.owner here.vertex other symbol node keys.old keys.new }
    ensures entered_2 { Entered (λ (e : Entry). e.node) sort here.schema here.owner here.vertex other symbol node nodes.old nodes.new }
{
    if sort == NO_SORT {
        return;
    }
    let own = key(sort, scope(sort, here), symbol);
    let at = choose(sort == DECLARATIONS, here.vertex, other);
    enter(keys, nodes, at, own, node);
}

// Enters all nodes, from the last to the first.
fn fill(
    kinds: &[u8],
    tokens: &[u32],
    roles: &[u8],
    symbols: &[u32],
    counts: Counts,
    keys: &mut [u64],
    nodes: &mut [u32],
)
    requires consistent { Consistent (table_of kinds.now tokens.now roles.now symbols.now) }
    requires counted { Counted (table_of kinds.now tokens.now roles.now symbols.now) (length kinds.now) counts }
    ensures filled { Filled (λ (e : Entry). e.key) (table_of kinds.now tokens.now roles.now symbols.now) keys.old keys.new }
    ensures filled_2 { Filled (λ (e : Entry). e.node) (table_of kinds.now tokens.now roles.now symbols.now) nodes.old nodes.new }
{
    let classes = CLASSES;
    let declarations = counts.declarations;
    let mut here = ended(kinds.len(), counts);
    let mut i = declaring_before(kinds, roles, kinds.len());
    while 0 < i {
        let n = i - 1;
        i = declaring_before(kinds, roles, n);
        let class = class(&classes, kinds[n], roles[n] as u32);
        if class != NOTHING {
            let k = index(tokens[n]);
            here = passed(class, n, here);
            enter_node(
                keys,
                nodes,
                declarations + here.other,
                here,
                sort_in(class),
                symbols[k],
                n,
            );
        }
    }
}

// Fills the front of the columns with the dictionary of a file.
pub fn prepare(
    kinds: &[u8],
    tokens: &[u32],
    roles: &[u8],
    symbols: &[u32],
    keys: &mut [u64],
    nodes: &mut [u32],
    heads: &mut [u32],
    next: &mut [u32],
) -> Result<(), Unfit>
    ensures { Answers (table_of kinds.now tokens.now roles.now symbols.now)
        keys.old nodes.old heads.old next.old result
        keys.new nodes.new heads.new next.new }
{
    if !consistent(kinds, tokens, roles, symbols) {
        return Err(Unfit);
    }
    let counts = count_entries(kinds, roles);
    let entries = counts.declarations + counts.others;
    if !room(entries, keys.len(), nodes.len(), heads.len(), next.len()) {
        return Err(Unfit);
    }
    fill(kinds, tokens, roles, symbols, counts, keys, nodes);
    // There is room, so the build is done.
    let _ = index::dictionary::build(&keys[..entries], heads, next);
    Ok(())
}
