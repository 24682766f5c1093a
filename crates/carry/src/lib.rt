// Which terms carry a term, in which it is carried outside a set, and which occur in others: each term of the table is visited
// once. A visit is lent the sets, so that none is copied on the way.
//
// Each function is lent the bare table, and asks that it be filled and good: callers know that of a `Drawing` or of a `Sheet`,
// and one more struct for the same two facts would only be made at each call, which is no plainer.
#![tactic(auto)]

ghost use Rattle.std.specs.Prelude.{◌≡◌, true, ◌↔◌, ◌≤◌, ◌<◌};
ghost use Rattle.terms.specs.Set.{mem, IsSetOf};
ghost use Rattle.theory.specs.GoodTable.{Good};
ghost use Rattle.tables.specs.Kinds.{code};
ghost use Rattle.tables.specs.Tables.{byte, row_at, rows_in, Filled};
ghost use Rattle.carry.specs.Next.{loose_next};
ghost use Rattle.carry.specs.Ways.{to_first, to_second, argument, Below};
ghost use Rattle.carry.specs.Sets.{Visited, IsLoose, IsCarriers, AreTerms, WithinLent};
ghost use Rattle.carry.specs.Sets.{EndsBy, IsParts, IsCarried, IsVariables};

use tables::kinds::Kind;
use tables::rows::{first_at, kind_at, second_at, terms_in};
use terms::{Term, TermSet};

// Whether `t` is loose in the term `inside`, where `loose` says so of the terms before it.
fn loose_at(table: &[u8], t: Term, set: &TermSet, loose: &TermSet, inside: Term) -> bool
    requires { Filled table.now × (inside.0 < byte table.now 600) }
    ensures { result ≡ loose_next (mem set.now) (mem loose.now) t.0 inside.0
        (row_at table.now inside.0) }
{
    let kind = kind_at(table, inside);
    if kind < Kind::Pair {
        return inside == t;
    }
    let first = loose.has(Term(first_at(table, inside)));
    let second = loose.has(Term(second_at(table, inside)));
    let part = kind.is(Kind::Pair) & (first | second) | kind.is(Kind::Encryption) & first;
    (inside == t) | !set.has(inside) & part
}

// The terms in which `t` is carried outside all members of `set`.
pub fn loose(table: &[u8], t: Term, set: TermSet) -> TermSet
    requires { Filled table.now × Good (rows_in table.now) × (t.0 < byte table.now 600) }
    ensures { IsLoose (rows_in table.now) set t.0 result }
{
    let mut loose = TermSet::EMPTY;
    for i in 0..terms_in(table) {
        let so = loose_at(table, t, &set, &loose, Term(i));
        loose.insert_if(Term(i), so);
    }
    loose
}

// The terms that carry `t`.
pub fn carriers(table: &[u8], t: Term) -> TermSet
    requires { Filled table.now × Good (rows_in table.now) × (t.0 < byte table.now 600) }
    ensures { IsCarriers (rows_in table.now) t.0 result }
{
    loose(table, t, TermSet::EMPTY)
}

// The lent numbers as a set.
fn set_of(numbers: &[u8]) -> TermSet
    ensures { IsSetOf numbers.now result }
{
    let mut set = TermSet::EMPTY;
    for number in numbers {
        set.insert(Term(*number));
    }
    set
}

// Whether `t` is carried only within the lent terms in the term `inside`.
pub fn within(table: &[u8], t: Term, inside: Term, set: &[u8]) -> bool
    requires { Filled table.now × Good (rows_in table.now) × AreTerms (byte table.now 600) t.0 inside.0 set.now }
    ensures { (result ≡ true) ↔ WithinLent (rows_in table.now) t.0 inside.0 set.now }
{
    let members = set_of(set);
    !loose(table, t, members).has(inside)
}

// A way from a term down to its arguments: to all that occur in it, or to those that it carries.
#[derive(Clone, Copy)]
enum Way {
    Parts,
    Carried,
}

impl Way {
    // Whether it goes from a term of this kind to the first argument.
    fn to_first(self, kind: Kind) -> bool
        ensures { result ≡ to_first self (code kind) }
    {
        match self {
            Way::Parts => kind.has_first(),
            Way::Carried => kind.is(Kind::Pair) | kind.is(Kind::Encryption),
        }
    }

    // Whether it goes to the second.
    fn to_second(self, kind: Kind) -> bool
        ensures { result ≡ to_second self (code kind) }
    {
        match self {
            Way::Parts => kind.has_second(),
            Way::Carried => kind.is(Kind::Pair),
        }
    }

    // If `t` is in `start` or in the set so far, puts it and its arguments on this way into the set.
    fn visit(self, table: &[u8], start: &TermSet, set: &mut TermSet, t: Term)
        requires { Filled table.now × (t.0 < byte table.now 600) }
        ensures { Visited (argument self) start.now t.0 (row_at table.now t.0) set.old set.new }
    {
        if !(start.has(t) | set.has(t)) {
            return;
        }
        let kind = kind_at(table, t);
        set.insert(t);
        set.insert_if(Term(first_at(table, t)), self.to_first(kind));
        set.insert_if(Term(second_at(table, t)), self.to_second(kind));
    }

    // The terms that this way reaches from members of `start`, which has no term from `top` on. The arguments of a term come
    // before it.
    fn below(self, table: &[u8], start: TermSet, top: u8) -> TermSet
        requires { Filled table.now × Good (rows_in table.now) × (top ≤ byte table.now 600)
            × EndsBy (byte table.now 600) top start }
        ensures { Below self (rows_in table.now) start result }
    {
        let mut set = TermSet::EMPTY;
        for i in (0..top).rev() {
            self.visit(table, &start, &mut set, Term(i));
        }
        set
    }
}

// The terms that occur in members of `start`, which has no term from `top` on.
pub fn parts_below(table: &[u8], start: TermSet, top: u8) -> TermSet
    requires { Filled table.now × Good (rows_in table.now) × (top ≤ byte table.now 600)
        × EndsBy (byte table.now 600) top start }
    ensures { IsParts (rows_in table.now) start result }
{
    Way::Parts.below(table, start, top)
}

// The terms that occur in members of `start`.
pub fn parts_of(table: &[u8], start: TermSet) -> TermSet
    requires { Filled table.now × Good (rows_in table.now) }
    ensures { IsParts (rows_in table.now) start result }
{
    parts_below(table, start, terms_in(table))
}

// The terms that members of `start` carry.
pub fn carried_by(table: &[u8], start: TermSet) -> TermSet
    requires { Filled table.now × Good (rows_in table.now) }
    ensures { IsCarried (rows_in table.now) start result }
{
    Way::Carried.below(table, start, terms_in(table))
}

// The terms that are variables.
pub fn variables(table: &[u8]) -> TermSet
    requires { Filled table.now × Good (rows_in table.now) }
    ensures { IsVariables (rows_in table.now) result }
{
    TermSet::such_that(terms_in(table), |t| kind_at(table, t).is_variable())
}
