ghost use Rattle.std.specs.Prelude.{◌≡◌};
ghost use Rattle.express.specs.Semantics.Relation.{related};
ghost use Rattle.values.specs.Meaning.{logical_of, ordering_of, relation_of};

use crate::logical::Logical;
use std::cmp::Ordering;

// `<`, `>`, `<=`, `>=`, `<>`, `=`, `:<>:`, `:=:`
#[derive(Clone, Copy, Debug, PartialEq, Eq)]
pub enum Relation {
    LessThan,
    GreaterThan,
    AtMost,
    AtLeast,
    Unequal,
    Equal,
    InstanceUnequal,
    InstanceEqual,
}

impl Relation {
    // Whether it holds of two operands, by how the first stands to the second.
    pub fn holds(self, order: Ordering) -> Logical
        ensures { logical_of result ≡ related (relation_of self) (ordering_of order) }
    {
        let is_met = match self {
            Relation::LessThan => order.is_lt(),
            Relation::GreaterThan => order.is_gt(),
            Relation::AtMost => order.is_le(),
            Relation::AtLeast => order.is_ge(),
            Relation::Unequal | Relation::InstanceUnequal => order.is_ne(),
            Relation::Equal | Relation::InstanceEqual => order.is_eq(),
        };
        Logical::from(is_met)
    }
}
