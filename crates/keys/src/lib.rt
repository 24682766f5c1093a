// Refusal 9, and the number of each term's inverse. That the table is filled, and its rows fair, stays a clause: the table is
// read here and not yet accepted, and a struct for the facts of that one moment would be no plainer.
#![tactic(auto)]

ghost use Rattle.std.specs.Prelude.{◌≡◌, true, ◌↔◌, ◌+◌, ◌≤◌, ◌<◌, length};
ghost use Rattle.model.specs.Accepting.{Lacking};
ghost use Rattle.theory.specs.Standing.{Fair};
ghost use Rattle.tables.specs.Layout.{term_count};
ghost use Rattle.tables.specs.Tables.{byte, rows_in, Filled};
ghost use Rattle.keys.specs.Inverted.{Paired};
ghost use Rattle.keys.specs.Partners.{Own, Partners};

use tables::kinds::Kind;
use tables::rows::{first_at, kind_at, terms_in};
use terms::Term;

// The number of each term's inverse.
#[derive(Clone, Copy)]
pub struct Inverses {
    pub of: [u8; 200],
}

impl Inverses {
    // The inverse of a term.
    pub fn inverse(&self, t: Term) -> Term
        requires { t.0 < 200 }
        ensures { result.0 ≡ byte self.now.of t.0 }
    {
        Term(self.of[usize::from(t.0)])
    }

    // Each of the n terms is its own inverse, as long as no row says otherwise.
    fn own(&mut self, n: u8)
        requires { n ≤ 200 }
        ensures { Own n self.new.of }
    {
        for i in 0..n {
            self.of[usize::from(i)] = i;
        }
    }

    // What the row of t says: if t is the inverse of a key, the two are each other's.
    fn pair(&mut self, table: &[u8], t: Term)
        requires filled { Filled table.now × Fair (rows_in table.now) × (t.0 < byte table.now term_count) }
        requires partners { Partners (rows_in table.now) t.0 self.old.of }
        ensures { Partners (rows_in table.now) (t.0 + 1) self.new.of }
    {
        if kind_at(table, t).is(Kind::Inverse) {
            let key = first_at(table, t);
            self.of[usize::from(t.0)] = key;
            self.of[usize::from(key)] = t.0;
        }
    }

    // What all rows say.
    fn rows(&mut self, table: &[u8])
        requires { Filled table.now × Fair (rows_in table.now) }
        ensures { Partners (rows_in table.now) (byte table.now term_count) self.new.of }
    {
        self.own(terms_in(table));
        for j in 0..terms_in(table) {
            self.pair(table, Term(j));
        }
    }

    // Whether t is a key that no row is the inverse of.
    fn lacks(&self, table: &[u8], t: Term) -> bool
        requires filled { Filled table.now × (t.0 < byte table.now term_count) }
        requires partners { Partners (rows_in table.now) (byte table.now term_count) self.now.of }
        ensures { (result ≡ true) ↔ Lacking (rows_in table.now) t.0 }
    {
        let kind = kind_at(table, t);
        kind.is_key() & (self.of[usize::from(t.0)] == t.0)
    }
}

// Works out the number of each term's inverse; or finds the lowest key without its inverse. The numbers are lent: a value of theirs
// would be copied where it is handed back, and the archive for C would need `memcpy`.
pub fn find_inverses(table: &[u8], inverses: &mut Inverses) -> Result<(), Term>
    requires { Filled table.now × Fair (rows_in table.now) }
    ensures { Paired (rows_in table.now) inverses.new.of result × (length inverses.new.of ≡ 200) }
{
    inverses.rows(table);
    match (0..terms_in(table)).find(|i| inverses.lacks(table, Term(*i))) {
        Some(i) => Err(Term(i)),
        None => Ok(()),
    }
}
