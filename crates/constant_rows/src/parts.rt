// The parts of an order of declarations in which the constants of the schemas stand, one schema after the other.
ghost use Rattle.std.specs.Prelude.{◌≡◌, cond, ◌-◌, ltb, length, get_or};
ghost use Rattle.relations.specs.Select.{first_from};
ghost use Rattle.constant_rows.specs.Parts.{never_falls, grouped, parts};

use tree::next_of_kind;

// Does each declaration stand behind all of the schemas before its own?
fn is_grouped(kinds: &[u8], order: &[u32]) -> bool
    ensures { result ≡ grouped kinds.now order.now }
{
    let mut i: usize = 0;
    let mut lo: usize = 0;
    let mut schema = next_of_kind(kinds, codes::nodes::SCHEMA, 0);
    while i < order.len() {
        let d = columns::index(order[i]);
        if d < lo {
            return false;
        }
        if d <= schema {
            i += 1;
        } else {
            if schema >= kinds.len() {
                return false;
            }
            lo = schema + 1;
            schema = next_of_kind(kinds, codes::nodes::SCHEMA, lo);
        }
    }
    true
}

// Do the declarations stand in the order of the text, and none of them past the nodes? Then they are grouped, and no schema has to be looked for.
fn is_ascending(kinds: &[u8], order: &[u32]) -> bool
    ensures { result ≡ never_falls (length kinds.now) 0 order.now }
{
    let mut last: usize = 0;
    for declaration in order {
        let d = columns::index(*declaration);
        if d < last || d > kinds.len() {
            return false;
        }
        last = d;
    }
    true
}

// Do the schemas have parts of the order, one behind the other? They do where there is a schema from a node on, which is the one behind the first, and the
// order is grouped by schemas. The answers do not depend on it: it is how far one has to look for constants.
pub fn has_parts(kinds: &[u8], order: &[u32], behind: usize) -> bool
    ensures { result ≡ parts kinds.now order.now behind }
{
    next_of_kind(kinds, codes::nodes::SCHEMA, behind) < kinds.len()
        && (is_ascending(kinds, order) || is_grouped(kinds, order))
}

// The first place from one on at which a declaration stands that is behind a node.
fn first_behind(order: &[u32], from: usize, node: usize) -> usize
    ensures { result ≡ first_from (λ i. ltb node (get_or order.now i 0)) from (length order.now - from) }
{
    for i in from..order.len() {
        if columns::index(order[i]) > node {
            return i;
        }
    }
    from.max(order.len())
}

// Where the part of the next schema starts: where the first declaration behind this schema stands. Without parts all schemas have the whole order.
pub fn next_part(has_parts: bool, order: &[u32], from: usize, schema: usize) -> usize
    ensures { result ≡ cond has_parts (first_from (λ i. ltb schema (get_or order.now i 0)) from (length order.now - from)) from }
{
    if has_parts {
        first_behind(order, from, schema)
    } else {
        from
    }
}

// Where the part of a schema ends: where the next one's starts, or with the order.
pub fn part_end(has_parts: bool, next: usize, whole: usize) -> usize
    ensures { result ≡ cond has_parts next whole }
{
    if has_parts { next } else { whole }
}
