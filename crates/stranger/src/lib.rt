// What the stranger can derive of the terms of a sheet: a closure over the table, handed back only when it has stopped growing.
// A pass over the table is lent the set, so that nothing is copied on the way.
#![tactic(auto)]

ghost use Rattle.std.specs.Prelude.{◌≡◌, [], ◌∷◌, ◌<◌, map};
ghost use Rattle.theory.specs.GoodTable.{Good};
ghost use Rattle.theory.specs.Rules.{◌⊢◌};
ghost use Rattle.tables.specs.Layout.{term_count};
ghost use Rattle.tables.specs.Tables.{byte, rows_in, Filled};
ghost use Rattle.tables.specs.Props.{Good-prop};
ghost use Rattle.keys.specs.Inverted.{Inverted};
ghost use Rattle.stranger.specs.Reaches.{Reaches};
ghost use Rattle.stranger.specs.Moves.{starts, Starts, Whole, Parts, Opens, Moves};
ghost use Rattle.stranger.specs.Steps.{number, Listed, Step, Closure};

use keys::Inverses;
use tables::kinds::Kind;
use tables::rows::{first_at, kind_at, second_at, terms_in};
use terms::{Term, TermSet};

// Whether the stranger has t from the start: what is sent, tags, message variables, and atoms that are not withheld.
fn starts_with(table: &[u8], sent: &TermSet, withheld: &TermSet, t: Term) -> bool
    requires { Filled table.now × (t.0 < byte table.now term_count) }
    ensures { result ≡ starts table.now sent.now withheld.now t.0 }
{
    let kind = kind_at(table, t);
    let free = kind.is(Kind::Tag) | kind.is(Kind::Mesg) | kind.is_atom() & !withheld.has(t);
    sent.has(t) | free
}

// The set of them.
fn start(table: &[u8], sent: TermSet, withheld: TermSet) -> TermSet
    requires { Filled table.now }
    ensures { Starts table.now sent withheld (byte table.now term_count) result.words }
{
    TermSet::such_that(terms_in(table), |t| starts_with(table, &sent, &withheld, t))
}

// Where he has all of `needs`, he has z.
fn follow<const N: usize>(set: &mut TermSet, needs: [Term; N], z: Term)
    ensures { Step (Listed (◌⊢◌ (map number needs.entry) z.0 ∷ [])) set.old.words set.new.words }
{
    let so = needs.iter().all(|x| set.has(*x));
    set.insert_if(z, so);
}

// What the stranger's moves go by: the table of the terms, and the inverse of each.
#[derive(Clone, Copy)]
struct Means<'a> {
    table: &'a [u8],
    inverses: &'a Inverses,
    ghost filled: { Filled table.now },
    ghost good: { Good (rows_in table.now) } by { Good-prop (rows_in table.now) },
}

impl<'a> Means<'a> {
    // The term t, from its parts.
    fn build(self, set: &mut TermSet, t: Term)
        requires { t.0 < byte self.table.now term_count }
        ensures { Step (Whole self.entry.table.now t.0) set.old.words set.new.words }
    {
        let first = Term(first_at(self.table, t));
        let second = Term(second_at(self.table, t));
        match kind_at(self.table, t) {
            Kind::Pair | Kind::Encryption => follow(set, [first, second], t),
            Kind::Hash => follow(set, [first], t),
            _ => {}
        }
    }

    // The parts of t: both halves of a pair; the body of an encryption, where he has the inverse of its key.
    fn open(self, set: &mut TermSet, t: Term)
        requires { t.0 < byte self.table.now term_count }
        ensures { Step (Parts self.entry.table.now self.entry.inverses.now.of t.0) set.old.words set.new.words }
    {
        let first = Term(first_at(self.table, t));
        let second = Term(second_at(self.table, t));
        match kind_at(self.table, t) {
            Kind::Pair => {
                follow(set, [t], first);
                follow(set, [t], second);
            }
            Kind::Encryption => {
                let opener = self.inverses.inverse(second);
                follow(set, [t, opener], first);
            }
            _ => {}
        }
    }

    // Takes the terms apart, from the last to the first, since the parts of a term come before it.
    fn open_all(self, set: &mut TermSet)
        ensures { Step (Opens self.entry.table.now self.entry.inverses.now.of) set.old.words set.new.words }
    {
        for i in (0..terms_in(self.table)).rev() {
            self.open(set, Term(i));
        }
    }

    // Puts the terms together and takes them apart, from the first to the last.
    fn move_all(self, set: &mut TermSet)
        ensures { Step (Moves self.entry.table.now self.entry.inverses.now.of) set.old.words set.new.words }
    {
        for i in 0..terms_in(self.table) {
            self.build(set, Term(i));
            self.open(set, Term(i));
        }
    }

    // Takes the terms apart, and tries all moves, until these add nothing.
    fn close(self, start: TermSet) -> TermSet
        ensures { Closure (Moves self.entry.table.now self.entry.inverses.now.of) start.words result.words }
    {
        let mut set = start;
        loop {
            self.open_all(&mut set);
            let apart = set.count();
            self.move_all(&mut set);
            if set.count() == apart {
                return set;
            }
        }
    }
}

// The terms of the table that are derivable from what is sent and what is not withheld.
pub fn reach(table: &[u8], inverses: &Inverses, sent: TermSet, withheld: TermSet) -> TermSet
    requires filled { Filled table.now × Good (rows_in table.now) }
    requires inverted { Inverted (rows_in table.now) inverses.now.of }
    ensures { Reaches (rows_in table.now) sent withheld result }
{
    let means = Means { table, inverses };
    means.close(start(table, sent, withheld))
}
