// The images of atoms, by the images that the judgement of rule 3 leaves: a byte for each term, the number of its image if the
// term occurs in a source event, else 255. They stay bytes, as what specs/Pass and specs/Matches of matching say is about bytes.
ghost use Rattle.std.specs.Prelude.{◌≡◌, true, ◌≢◌, ℕ, ◌<◌, ◌≤◌};
ghost use Rattle.terms.specs.Set.{mem};
ghost use Rattle.tables.specs.Layout.{term_count};
ghost use Rattle.tables.specs.Tables.{byte, rows_in};
ghost use Rattle.maps.specs.Images.{Imaged};
ghost use Rattle.maps.specs.Atoms.{Finds};

use matching::accepted::Accepted;
use tables::kinds::Kind;
use tables::rows::{Row, find_row, first_at, kind_at, second_at, terms_in};
use terms::{Term, TermSet};

// The terms of an accepted sheet, and the byte of each.
#[derive(Clone, Copy)]
pub struct Images<'a> {
    pub sheet: Accepted<'a>,
    pub bytes: &'a [u8; 200],
}

impl Images<'_> {
    // The image of a key that is made of names, by the images of the names.
    fn of_named(self, a: Term) -> Option<Term>
        requires { (a.0 < byte self.sheet.table.now term_count) × (byte self.sheet.table.now a.0 ≢ 8)
            × (byte self.sheet.table.now term_count ≤ byte self.bytes.now a.0) }
        ensures { Imaged (rows_in self.entry.sheet.table.now) self.entry.bytes.now a.0 result }
    {
        let table = self.sheet.table;
        match kind_at(table, a) {
            Kind::Public => {
                let first = self.bytes[usize::from(first_at(table, a))];
                find_row(
                    table,
                    Row {
                        kind: Kind::Public.number(),
                        first,
                        second: 0,
                    },
                )
            }
            Kind::LongTerm => {
                let first = self.bytes[usize::from(first_at(table, a))];
                let second = self.bytes[usize::from(second_at(table, a))];
                find_row(
                    table,
                    Row {
                        kind: Kind::LongTerm.number(),
                        first,
                        second,
                    },
                )
            }
            _ => None,
        }
    }

    // The image of an atom that is no inverse.
    fn of_plain(self, a: Term) -> Option<Term>
        requires { (a.0 < byte self.sheet.table.now term_count) × (byte self.sheet.table.now a.0 ≢ 8) }
        ensures { Imaged (rows_in self.entry.sheet.table.now) self.entry.bytes.now a.0 result }
    {
        let image = self.bytes[usize::from(a.0)];
        if image < terms_in(self.sheet.table) {
            return Some(Term(image));
        }
        self.of_named(a)
    }

    // The image of an atom each of whose variables has an image, if it is on the sheet.
    pub fn of_atom(self, a: Term) -> Option<Term>
        requires { a.0 < byte self.sheet.table.now term_count }
        ensures { Imaged (rows_in self.entry.sheet.table.now) self.entry.bytes.now a.0 result }
    {
        match kind_at(self.sheet.table, a) {
            Kind::Inverse => {
                let image = self.of_plain(Term(first_at(self.sheet.table, a)))?;
                Some(self.sheet.inverses.inverse(image))
            }
            _ => self.of_plain(a),
        }
    }

    // Whether the image of each member of `from` is on the sheet, and the test holds of the two.
    pub fn all<F: Fn(Term, Term) -> bool>(self, from: TermSet, test: F) -> bool
        requires { (a i : ℕ) → a < byte self.sheet.table.now term_count → i < byte self.sheet.table.now term_count
            → mem from a ≡ true → F.pre test (record { 0 = a }) (record { 0 = i }) }
        ensures { Finds (rows_in self.entry.sheet.table.now) self.entry.bytes.now from
            (λ a i r. F.post test a i r) (byte self.entry.sheet.table.now term_count) result }
    {
        for a in 0..terms_in(self.sheet.table) {
            if !from.has(Term(a)) {
                continue;
            }
            let Some(image) = self.of_atom(Term(a)) else {
                return false;
            };
            if !test(Term(a), image) {
                return false;
            }
        }
        true
    }
}
