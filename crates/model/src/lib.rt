// The answers of the seven questions. What they say stands in specs/Says.antt, in the paper's own numbers and values.
#![tactic(auto)]

ghost use Rattle.std.specs.Prelude.{◌≡◌};
ghost use Rattle.model.specs.Answers.{refusal};
ghost use Rattle.model.specs.Says.{number_of, refusal_of, rule_number};

use terms::Node;

// Why a sheet or a question is refused, in the order of the paper's numbers.
#[derive(Clone, Copy, PartialEq, Eq)]
pub enum Reason {
    CutShort = 1,
    UnknownMark,
    UnknownEdition,
    OutOfBounds,
    WrongTerm,
    TermTwice,
    WrongReference,
    BytesAfterEnd,
    KeyWithoutInverse,
    Cycle,
    NonCarried,
    NoSingleOrigin,
    HeardBeforeOrigin,
    VariableMissing,
    NoSuch,
    NoRoom,
}

impl From<Reason> for u8 {
    ghost from_gives = { λ reason number. number ≡ number_of reason };

    fn from(reason: Reason) -> u8 {
        reason as u8
    }
}

// "A refusal is its number, its place and a skeleton number"
#[derive(Clone, Copy, PartialEq, Eq)]
pub struct Refusal {
    pub reason: Reason,
    pub place: usize,
    pub skeleton: u8,
}

// A refusal that stands at no place of the sheet: "with place 0 and skeleton 0".
impl From<Reason> for Refusal {
    ghost from_gives = { λ reason given. refusal_of given ≡ refusal (number_of reason) };

    fn from(reason: Reason) -> Refusal {
        Refusal {
            reason,
            place: 0,
            skeleton: 0,
        }
    }
}

pub type Answer<T> = Result<T, Refusal>;

// How many terms and skeletons a good sheet has.
#[derive(Clone, Copy, PartialEq, Eq)]
pub struct Counts {
    pub terms: usize,
    pub skeletons: usize,
}

// The rules of a strand map, in order.
#[derive(Clone, Copy, PartialEq, Eq)]
pub enum Rule {
    Strands = 1,
    Events,
    Messages,
    Order,
    Nons,
    Uniqs,
}

impl From<Rule> for u8 {
    ghost from_gives = { λ rule number. number ≡ rule_number rule };

    fn from(rule: Rule) -> u8 {
        rule as u8
    }
}
