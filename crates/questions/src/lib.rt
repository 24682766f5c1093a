// Questions about an accepted sheet. Each tests first whether the sheet has what is asked for.
#![tactic(auto)]

ghost use Rattle.std.specs.Prelude.{◌≡◌, true, [], ◌↔◌, ◌<◌};
ghost use Rattle.model.specs.Sheet.{Verdict};
ghost use Rattle.model.specs.Answers.{refusal, HasTerms};
ghost use Rattle.model.specs.Answers.{AskWithin, AskRealized, AskDerivable, AskReach};
ghost use Rattle.model.specs.Says.{node_of, refusal_of, yes_no_says, realized_says, reach_says};
ghost use Rattle.tables.specs.Tables.{rows_in, sheet_in, skeleton_at, Filled};
ghost use Rattle.order.specs.Precedence.{Shows};
ghost use Rattle.questions.specs.Subject.{Has, AllBelow, HeardAs};

use accept::sheet::Sheet;
use model::{Answer, Reason, Refusal};
use order::{Precedence, WORDS};
use realized::Scene;
use tables::blocks::Event;
use tables::drawing::Drawing;
use tables::rows::terms_in;
use terms::{Node, Term};

// "15: no such skeleton, term, or reception asked for"
fn no_such() -> Refusal
    ensures { refusal_of result ≡ refusal 15 }
{
    Refusal::from(Reason::NoSuch)
}

// Whether all lent numbers are below the count of terms.
fn all_terms(numbers: &[u8], count: u8) -> bool
    ensures { (result ≡ true) ↔ AllBelow count numbers.now }
{
    numbers.iter().all(|number| *number < count)
}

// Whether `t`, `inside` and all lent numbers are terms of the sheet.
fn has_terms(table: &[u8], t: Term, inside: Term, set: &[u8]) -> bool
    requires { Filled table.now }
    ensures { Has (HasTerms t.0 inside.0 set.now (sheet_in table.now))
        (rows_in table.now) result }
{
    let count = terms_in(table);
    (t.0 < count) & (inside.0 < count) & all_terms(set, count)
}

// "Carried only within": whether `t` is carried only within the lent terms in the term `inside`.
pub fn within(sheet: Sheet, t: Term, inside: Term, set: &[u8]) -> Answer<bool>
    ensures { AskWithin t.0 inside.0 set.now (Verdict.accepted (sheet_in sheet.entry.table.now))
        (yes_no_says result) set.now }
{
    if !has_terms(sheet.table, t, inside, set) {
        return Err(no_such());
    }
    Ok(carry::within(sheet.table, t, inside, set))
}

// Works out what comes before what in a skeleton. Each question owns the matrix and makes a `Scene` that lends it, so no function could
// hand both out.
fn precedence(skeleton: Drawing, before: &mut Precedence)
    ensures { Shows (skeleton_at skeleton.entry.table.now skeleton.entry.block) before.new.words }
{
    before.fill(skeleton.table, skeleton.block);
}

// "Realized": whether the skeleton is, or else its first open reception.
pub fn realized(sheet: Sheet, skeleton: u8) -> Answer<Option<Node>>
    ensures { AskRealized skeleton (Verdict.accepted (sheet_in sheet.entry.table.now)) (realized_says result) [] }
{
    let Some(skeleton) = sheet.skeleton(skeleton) else {
        return Err(no_such());
    };
    let mut before = Precedence { words: [0; WORDS] };
    precedence(skeleton, &mut before);
    let scene = Scene {
        skeleton,
        inverses: sheet.inverses,
        before: &before,
    };
    Ok(scene.first_open())
}

// The skeleton, if the sheet has it and it has a reception at the node.
fn skeleton_heard(sheet: Sheet, skeleton: u8, node: Node) -> Option<Drawing>
    ensures { HeardAs sheet.entry.table.now skeleton (node_of node) result }
{
    let skeleton = sheet.skeleton(skeleton)?;
    let Some(Event::Reception(_)) = skeleton.event_at(node) else {
        return None;
    };
    Some(skeleton)
}

// "Derivable before": whether the term is derivable before the reception.
pub fn derivable(sheet: Sheet, skeleton: u8, node: Node, term: Term) -> Answer<bool>
    ensures { AskDerivable skeleton (node_of node) term.0 (Verdict.accepted (sheet_in sheet.entry.table.now))
        (yes_no_says result) [] }
{
    let Some(skeleton) = skeleton_heard(sheet, skeleton, node) else {
        return Err(no_such());
    };
    if terms_in(sheet.table) <= term.0 {
        return Err(no_such());
    }
    let mut before = Precedence { words: [0; WORDS] };
    precedence(skeleton, &mut before);
    let scene = Scene {
        skeleton,
        inverses: sheet.inverses,
        before: &before,
    };
    Ok(scene.reached_before(node).has(term))
}

// "Reach": how many of the sheet's terms are derivable before the reception.
pub fn reach(sheet: Sheet, skeleton: u8, node: Node) -> Answer<usize>
    ensures { AskReach skeleton (node_of node) (Verdict.accepted (sheet_in sheet.entry.table.now)) (reach_says result) [] }
{
    let Some(skeleton) = skeleton_heard(sheet, skeleton, node) else {
        return Err(no_such());
    };
    let mut before = Precedence { words: [0; WORDS] };
    precedence(skeleton, &mut before);
    let scene = Scene {
        skeleton,
        inverses: sheet.inverses,
        before: &before,
    };
    Ok(scene.count_reached(node))
}
