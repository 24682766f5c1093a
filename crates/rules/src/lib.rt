// Refusals 10 to 14 of a skeleton, in the paper's order: a cycle, then the NO atoms by rising number, then the UO atoms.
//
// That a matrix shows the precedence of a skeleton is asked of each call, and is no fact of a type: it may have several proofs, a
// type keeps only that there is one, and each proof here would have to take it out again.
#![tactic(auto)]

ghost use Rattle.std.specs.Prelude.{◌≡◌, true, ◌↔◌, ℕ, ◌+◌, ◌<◌};
ghost use Rattle.terms.specs.declared.Term.{Term};
ghost use Rattle.terms.specs.Set.{mem};
ghost use Rattle.model.specs.Says.{node_of};
ghost use Rattle.model.specs.Sheet.{meant};
ghost use Rattle.model.specs.Table.{term};
ghost use Rattle.model.specs.Accepting.{Cyclic, Missing};
ghost use Rattle.tables.specs.Layout.{strand_count};
ghost use Rattle.tables.specs.Tables.{byte, rows_in, skeleton_at};
ghost use Rattle.tables.specs.Drawn.{drawing};
ghost use Rattle.origin.specs.Marked.{node};
ghost use Rattle.order.specs.Precedence.{Low, Shows, Ordered};
ghost use Rattle.rules.specs.Judged.{Heard, NonAs, NonsAs, ArriveAs};
ghost use Rattle.rules.specs.Judged.{UniqAs, UniqsTurn, UniqsAs, FirstAs, JudgedAs};

use model::Reason;
use order::Precedence;
use origin::{Origins, find_origins};
use tables::blocks::{Assumed, Event};
use tables::drawing::Drawing;
use tables::rows::terms_in;
use terms::{Node, Strand, Term, TermSet};

// The first fault of a skeleton: why it is refused, and the atom.
#[derive(Clone, Copy, PartialEq, Eq)]
pub struct Fault {
    pub reason: Reason,
    pub place: u8,
}

// What the messages of a skeleton carry, what occurs in them, and the variables of the table.
#[derive(Drop)]
struct Said<'a> {
    skeleton: Drawing<'a>,
    carried: TermSet,
    heard: TermSet,
    variables: TermSet,
}

impl Said<'_> {
    // Whether a variable of `t` is in no event.
    fn is_missing(&self, t: Term) -> bool
        requires heard { Heard self.now.skeleton.table.now self.now.skeleton.block self.now.carried self.now.heard self.now.variables }
        requires term_bound { t.0 < byte self.now.skeleton.table.now 600 }
        ensures { (result ≡ true) ↔ Missing (meant (drawing self.now.skeleton.table.now self.now.skeleton.block))
            (term (rows_in self.now.skeleton.table.now) t.0) }
    {
        let parts = carry::parts_below(self.skeleton.table, TermSet::one(t), t.0 + 1);
        !parts.common(self.variables).minus(self.heard).is_empty()
    }

    // Judges `t` as an NO atom.
    fn judge_non(&self, t: Term) -> Result<(), Reason>
        requires heard { Heard self.now.skeleton.table.now self.now.skeleton.block self.now.carried self.now.heard self.now.variables }
        requires term_bound { t.0 < byte self.now.skeleton.table.now 600 }
        ensures { NonAs (drawing self.now.skeleton.table.now self.now.skeleton.block) t.0 result }
    {
        if self.is_missing(t) {
            return Err(Reason::VariableMissing);
        }
        if self.carried.has(t) {
            return Err(Reason::NonCarried);
        }
        Ok(())
    }
}

// The first fault of the atoms below n, by rising number, as `judge` says of each.
fn judge_all<F: Fn(Term) -> Result<(), Reason>>(
    n: u8,
    atoms: &TermSet,
    judge: F,
) -> Result<(), Fault>
    requires { (t : Term) → t.0 < n → F.pre judge t }
    ensures { FirstAs n (mem atoms.now) (λ t r. F.post judge t r) result }
{
    for i in 0..n {
        if atoms.has(Term(i)) {
            if let Err(reason) = judge(Term(i)) {
                return Err(Fault { reason, place: i });
            }
        }
    }
    Ok(())
}

// The first fault of the NO atoms.
fn judge_nons(skeleton: Drawing) -> Result<(), Fault>
    requires { ¬ Cyclic (meant (drawing skeleton.table.now skeleton.block)) }
    ensures { NonsAs (drawing skeleton.entry.table.now skeleton.entry.block) result }
{
    if skeleton.atom_count(Assumed::Non) == 0 {
        return Ok(());
    }
    let table = skeleton.table;
    let nons = skeleton.atoms(Assumed::Non);
    let messages = origin::messages(skeleton);
    let said = Said {
        skeleton,
        carried: carry::carried_by(table, messages),
        heard: carry::parts_of(table, messages),
        variables: carry::variables(table),
    };
    judge_all(terms_in(table), &nons, |t| said.judge_non(t))
}

// The origin of the messages in `marks`, and what comes before what.
#[derive(Drop)]
struct Source<'a> {
    skeleton: Drawing<'a>,
    before: &'a Precedence,
    marks: &'a TermSet,
    origin: Node,
    ghost low: { Low (node_of origin) },
}

impl Source<'_> {
    // Whether the event at the position is no reception of a marked message, or comes after the origin.
    #[tactic(auto, unfolding(model::specs::Says::node_of))]
    fn event_arrives(&self, strand: Strand, position: u8) -> bool
        requires { (strand.0 < 6) × (position < 16) }
        ensures { ArriveAs (skeleton_at self.now.skeleton.table.now self.now.skeleton.block) (mem self.now.marks.now)
            self.now.before.now.words (node_of self.now.origin) (λ m. m ≡ node strand.0 position) result }
    {
        let node = Node { strand, position };
        let Some(Event::Reception(heard)) = self.skeleton.event_at(node) else {
            return true;
        };
        if !self.marks.has(heard) {
            return true;
        }
        self.before.is_before(self.origin, node)
    }

    // The same of all events of a strand.
    fn strand_arrives(&self, strand: Strand) -> bool
        requires { (strand.0 < 6) × (strand.0 < byte self.now.skeleton.table.now (self.now.skeleton.block + strand_count)) }
        ensures { ArriveAs (skeleton_at self.now.skeleton.table.now self.now.skeleton.block) (mem self.now.marks.now)
            self.now.before.now.words (node_of self.now.origin) (λ m. m.strand ≡ strand.0) result }
    {
        (0..self.skeleton.height(strand)).all(|position| self.event_arrives(strand, position))
    }

    // Whether every reception of a marked message comes after the origin.
    fn arrives(&self) -> bool
        ensures { let count = byte self.now.skeleton.table.now (self.now.skeleton.block + strand_count) in
            ArriveAs (skeleton_at self.now.skeleton.table.now self.now.skeleton.block) (mem self.now.marks.now)
            self.now.before.now.words (node_of self.now.origin) (λ m. m.strand < count) result }
    {
        (0..self.skeleton.strand_count()).all(|s| self.strand_arrives(Strand(s)))
    }
}

// Judges `t` as a UO atom.
fn judge_uniq(skeleton: Drawing, before: &Precedence, t: Term) -> Result<(), Reason>
    requires { Shows (skeleton_at skeleton.table.now skeleton.block) before.now.words × (t.0 < byte skeleton.table.now 600) }
    ensures { UniqAs (drawing skeleton.entry.table.now skeleton.entry.block) t.0 result }
{
    let marks = carry::carriers(skeleton.table, t);
    let Origins::At(origin) = find_origins(skeleton, &marks) else {
        return Err(Reason::NoSingleOrigin);
    };
    let source = Source {
        skeleton,
        before,
        marks: &marks,
        origin,
    };
    if !source.arrives() {
        return Err(Reason::HeardBeforeOrigin);
    }
    Ok(())
}

// The first fault of the UO atoms.
fn judge_uniqs(skeleton: Drawing, before: &Precedence) -> Result<(), Fault>
    requires shown { Shows (skeleton_at skeleton.table.now skeleton.block) before.now.words }
    requires turn { UniqsTurn (drawing skeleton.table.now skeleton.block) }
    ensures { UniqsAs (drawing skeleton.entry.table.now skeleton.entry.block) result }
{
    if skeleton.atom_count(Assumed::Uniq) == 0 {
        return Ok(());
    }
    let uniqs = skeleton.atoms(Assumed::Uniq);
    judge_all(
        terms_in(skeleton.table),
        &uniqs,
        |t| judge_uniq(skeleton, before, t),
    )
}

// The first fault of a skeleton. `before` is its precedence.
pub fn judge(skeleton: Drawing, before: &Precedence) -> Result<(), Fault>
    requires { Ordered skeleton.table.now skeleton.block × Shows (skeleton_at skeleton.table.now skeleton.block) before.now.words }
    ensures { JudgedAs (drawing skeleton.entry.table.now skeleton.entry.block) result }
{
    if before.cyclic(skeleton.table, skeleton.block) {
        return Err(Fault {
            reason: Reason::Cycle,
            place: 0,
        });
    }
    judge_nons(skeleton)?;
    judge_uniqs(skeleton, before)
}
