ghost use Rattle.std.specs.Prelude.{◌≡◌};
ghost use Rattle.express.specs.Semantics.Logic.{rank, compare_logical, AND, OR, NOT, XOR};
ghost use Rattle.values.specs.Meaning.{logical_of, logical_test, ordering_of};

use std::cmp::Ordering;

// The three logical values, in their order.
#[derive(Clone, Copy, Debug, PartialEq, Eq, PartialOrd, Ord)]
pub enum Logical {
    False,
    Unknown,
    True,
}

// Its number in an answer row: its place in the order.
impl From<Logical> for u8 {
    ghost from_gives = { λ l n. n ≡ rank (logical_of l) };

    fn from(l: Logical) -> u8 {
        match l {
            Logical::False => codes::answers::FALSE,
            Logical::Unknown => codes::answers::UNKNOWN,
            Logical::True => codes::answers::TRUE,
        }
    }
}

impl From<bool> for Logical {
    ghost from_gives = { λ b l. l ≡ logical_test b };

    fn from(b: bool) -> Logical {
        if b { Logical::True } else { Logical::False }
    }
}

impl Logical {
    pub fn compare(self, other: Logical) -> Ordering
        ensures { ordering_of result ≡ compare_logical (logical_of self) (logical_of other) }
    {
        self.cmp(&other)
    }

    // The smaller.
    #[tactic(auto, unfolding(express::specs::Semantics::Logic::AND))]
    pub fn and(self, other: Logical) -> Logical
        ensures { logical_of result ≡ AND (logical_of self) (logical_of other) }
    {
        self.min(other)
    }

    // The larger.
    #[tactic(auto, unfolding(express::specs::Semantics::Logic::OR))]
    pub fn or(self, other: Logical) -> Logical
        ensures { logical_of result ≡ OR (logical_of self) (logical_of other) }
    {
        self.max(other)
    }

    pub fn not(self) -> Logical
        ensures { logical_of result ≡ NOT (logical_of self) }
    {
        match self {
            Logical::False => Logical::True,
            Logical::Unknown => Logical::Unknown,
            Logical::True => Logical::False,
        }
    }

    #[tactic(auto, unfolding(express::specs::Semantics::Logic::XOR))]
    pub fn xor(self, other: Logical) -> Logical
        ensures { logical_of result ≡ XOR (logical_of self) (logical_of other) }
    {
        match self {
            Logical::False => other,
            Logical::Unknown => self,
            Logical::True => other.not(),
        }
    }
}
