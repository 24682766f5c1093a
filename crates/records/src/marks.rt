// The marks of the records.
ghost use Rattle.std.specs.Prelude.{◌≡◌, ℕ, ◌≤◌, [], ◌∷◌, map, length, get_or};
ghost use Rattle.model.specs.Reading.{mark_bytes, may_follow, marked_as};
ghost use Rattle.records.specs.Marks.{mark, last_of};

// "A two-byte ASCII mark stands before each record"
#[derive(Clone, Copy, PartialEq, Eq)]
pub enum Mark {
    BS,
    TM,
    SK,
    ST,
    OR,
    NO,
    UO,
    EN,
}

impl Mark {
    #[tactic(auto, unfolding(model::specs::Reading::mark_bytes))]
    fn bytes(self) -> [u8; 2]
        ensures { result ≡ (mark_bytes (mark self)).0 ∷ (mark_bytes (mark self)).1 ∷ [] }
    {
        match self {
            Mark::BS => *b"BS",
            Mark::TM => *b"TM",
            Mark::SK => *b"SK",
            Mark::ST => *b"ST",
            Mark::OR => *b"OR",
            Mark::NO => *b"NO",
            Mark::UO => *b"UO",
            Mark::EN => *b"EN",
        }
    }
}

// The marks that may come next, after the mark `last` or at the start.
#[tactic(auto, unfolding(model::specs::Reading::may_follow))]
fn may_follow(last: Option<Mark>) -> &'static [Mark]
    ensures { map mark result.now ≡ may_follow (last_of last) }
{
    use Mark::{BS, EN, NO, OR, SK, ST, TM, UO};
    match last {
        None => &[BS],
        Some(BS | TM) => &[TM, SK],
        Some(SK) => &[ST],
        Some(ST) => &[ST, OR, NO, UO, SK, EN],
        Some(OR) => &[OR, NO, UO, SK, EN],
        Some(NO) => &[NO, UO, SK, EN],
        Some(UO) => &[UO, SK, EN],
        Some(EN) => &[],
    }
}

// The mark at the start of the remainder, after the mark `last`; none where it is unknown or may not come next.
pub fn read_mark(last: Option<Mark>, rest: &[u8]) -> Option<Mark>
    requires { 2 ≤ length rest.now }
    ensures { last_of result
        ≡ marked_as (get_or rest.now 0 0) (get_or rest.now 1 0) (may_follow (last_of last)) }
{
    let bytes = [rest[0], rest[1]];
    may_follow(last)
        .iter()
        .copied()
        .find(|mark| mark.bytes() == bytes)
}
