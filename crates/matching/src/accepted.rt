// What is known of an accepted sheet's terms, and of one that goes to another.
ghost use Rattle.std.specs.Prelude.{◌≡◌, ◌<◌};
ghost use Rattle.tables.specs.Layout.{term_count};
ghost use Rattle.tables.specs.Tables.{byte, rows_in};
ghost use Rattle.matching.specs.Pass.{demands, first_to, second_wishes, part_wishes, Ends};
ghost use Rattle.matching.specs.Pass;
ghost use Rattle.matching.specs.Ready.{Ready, Terms};
ghost use Rattle.matching.specs.Props.{Ready-prop};

use crate::{demand, may_be};
use keys::Inverses;
use tables::kinds::Kind;
use tables::rows::{first_at, kind_at, second_at, terms_in};
use terms::Term;

// An accepted table, and the number of each term's inverse.
#[derive(Clone, Copy)]
pub struct Accepted<'a> {
    pub table: &'a [u8],
    pub inverses: &'a Inverses,
    pub ghost ready: { Ready table.now inverses.now.of } by { Ready-prop table.now inverses.now.of },
}

// A term of it that goes to another.
#[derive(Clone, Copy)]
struct Sending<'a> {
    sheet: Accepted<'a>,
    from: Term,
    to: Term,
    ghost terms: { Terms sheet.table.now from.0 to.0 },
}

impl Sending<'_> {
    // The kind of the term lets it go there: a tag goes to itself, a variable to what its sort allows, an inverse to any
    // asymmetric key, and any other term to its own kind.
    fn fits(self) -> bool
        ensures { result ≡ Pass.heads_fit (rows_in self.entry.sheet.table.now) self.entry.from.0 self.entry.to.0 }
    {
        let h = kind_at(self.sheet.table, self.to);
        match kind_at(self.sheet.table, self.from) {
            Kind::Tag => self.to == self.from,
            Kind::Inverse => may_be(Kind::Akey, h),
            k => may_be(k, h),
        }
    }

    // What the term's first argument has to go to.
    fn first(self) -> Term
        ensures { result.0 ≡ first_to (rows_in self.entry.sheet.table.now) self.entry.from.0 self.entry.to.0 }
    {
        match kind_at(self.sheet.table, self.from) {
            Kind::Inverse => self.sheet.inverses.inverse(self.to),
            _ => Term(first_at(self.sheet.table, self.to)),
        }
    }

    // The image of its second argument is demanded, if it has one.
    fn ask_second(self, images: &mut [u8; 200]) -> bool
        ensures { Ends (demands (second_wishes (rows_in self.entry.sheet.table.now) self.entry.from.0 self.entry.to.0) images.old)
            images.new result }
    {
        let table = self.sheet.table;
        if !kind_at(table, self.from).has_second() {
            return true;
        }
        let second = Term(second_at(table, self.from));
        demand(images, second, Term(second_at(table, self.to)))
    }

    // The images of its arguments are demanded.
    fn ask(self, images: &mut [u8; 200]) -> bool
        ensures { Ends (demands (part_wishes (rows_in self.entry.sheet.table.now) self.entry.from.0 self.entry.to.0) images.old)
            images.new result }
    {
        let table = self.sheet.table;
        if !kind_at(table, self.from).has_first() {
            return true;
        }
        let first = Term(first_at(table, self.from));
        demand(images, first, self.first()) && self.ask_second(images)
    }
}

impl Accepted<'_> {
    // If p has an image, p goes to it.
    fn visit(self, p: Term, images: &mut [u8; 200]) -> bool
        requires { p.0 < byte self.table.now term_count }
        ensures { Ends (Pass.visit (rows_in self.entry.table.now) p.0 images.old) images.new result }
    {
        let t = images[usize::from(p.0)];
        if terms_in(self.table) <= t {
            return true;
        }
        let sending = Sending {
            sheet: self,
            from: p,
            to: Term(t),
        };
        sending.fits() && sending.ask(images)
    }

    // The terms are visited, from the last down to the first.
    pub fn descend(self, images: &mut [u8; 200]) -> bool
        ensures { Ends (Pass.pass (rows_in self.entry.table.now) (byte self.entry.table.now term_count) images.old)
            images.new result }
    {
        for p in (0..terms_in(self.table)).rev() {
            if !self.visit(Term(p), images) {
                return false;
            }
        }
        true
    }
}
