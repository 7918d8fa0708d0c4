// What is wrong with a name: a reply from 9 to 13 and a place in the text.
#![tactic(auto)]

ghost use Rattle.std.specs.Prelude.{◌≡◌};
ghost use Rattle.express.specs.Names.Fault as express;
ghost use Rattle.express.specs.Names.Names as stages;
ghost use Rattle.express.specs.Names.Scope.{one};
ghost use Rattle.scopes.specs.LookUp.{entry_meant};
ghost use Rattle.faults.specs.Meaning.{number_of, fault_of, is_fine};

use scopes::look_ups::Meaning;

// Declared twice; not found; found, but of the wrong sort; of two meanings; or on a cycle. No stage here answers another number, but a caller may
// have a stage that does; 0 is no fault.
#[derive(Clone, Copy, Debug, PartialEq, Eq)]
pub enum Reply {
    Repeated,
    NotFound,
    WrongSort,
    Ambiguous,
    Cycle,
    Other(u8),
}

impl Reply {
    // The number by which the checker answers it.
    pub fn number(self) -> u8
        ensures { result ≡ number_of self }
    {
        match self {
            Reply::Repeated => codes::replies::REPEATED,
            Reply::NotFound => codes::replies::NOT_FOUND,
            Reply::WrongSort => codes::replies::WRONG_SORT,
            Reply::Ambiguous => codes::replies::AMBIGUOUS,
            Reply::Cycle => codes::replies::CYCLE,
            Reply::Other(number) => number,
        }
    }
}

#[derive(Clone, Copy, Debug, PartialEq, Eq)]
pub struct Fault {
    pub reply: Reply,
    pub place: u32,
}

pub fn fault_at(reply: Reply, place: u32) -> Option<Fault>
    ensures { fault_of result ≡ express.fault (number_of reply) place }
{
    Some(Fault { reply, place })
}

// Is there no fault?
pub fn is_fine(fault: Option<Fault>) -> bool
    ensures { result ≡ is_fine fault }
{
    match fault {
        None => true,
        Some(fault) => fault.reply.number() == codes::replies::ACCEPTED,
    }
}

// Of two faults of one stage the one with the smaller place.
pub fn sooner(a: Option<Fault>, b: Option<Fault>) -> Option<Fault>
    ensures { fault_of result ≡ stages.sooner (fault_of a) (fault_of b) }
{
    if is_fine(a) {
        return b;
    }
    if is_fine(b) {
        return a;
    }
    match (a, b) {
        (None, _) => b,
        (_, None) => a,
        (Some(x), Some(y)) => { if x.place <= y.place { a } else { b } }
    }
}

// A fault of a later stage only where there is none of an earlier one.
pub fn or_later(a: Option<Fault>, later: Option<Fault>) -> Option<Fault>
    ensures { fault_of result ≡ express.or_later (fault_of a) (fault_of later) }
{
    if is_fine(a) { later } else { a }
}

// Of something that is found at a place: it is right, or of the wrong sort.
pub fn wrong_sort(right: bool, place: u32) -> Option<Fault>
    ensures { fault_of result ≡ express.judged (λ _. right) (one 0) place }
{
    if right {
        None
    } else {
        fault_at(Reply::WrongSort, place)
    }
}

// Of a name at a place by its meaning: not found, two meanings, or one that is right or of the wrong sort.
pub fn judged(meaning: Meaning, right: bool, place: u32) -> Option<Fault>
    ensures { fault_of result ≡ express.judged (λ _. right) (entry_meant meaning) place }
{
    match meaning {
        Meaning::Nothing => fault_at(Reply::NotFound, place),
        Meaning::One(_) => wrong_sort(right, place),
        Meaning::Several => fault_at(Reply::Ambiguous, place),
    }
}
