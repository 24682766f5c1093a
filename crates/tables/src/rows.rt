// The terms of a table: a byte of each of three columns for each of them. That the table is filled stays a clause: most of these
// are asked while it is still being filled, when a struct with that fact would hold at one moment alone.
ghost use Rattle.std.specs.Prelude.{◌≡◌, ◌+◌, ◌<◌, leb, eqb, length};
ghost use Rattle.model.specs.Reading.{on_sheet, an_atom};
ghost use Rattle.tables.specs.Layout.{firsts, seconds, term_count, table_size};
ghost use Rattle.tables.specs.Tables.{byte, the_row, rows_in, Filled};
ghost use Rattle.tables.specs.Kinds.{code, kind_said};
ghost use Rattle.tables.specs.Rows.{kind_of, by_kinds, same_bytes, Written, LooksUp};
ghost use Rattle.tables.specs.Stores.{RowPut};

use crate::kinds::Kind;
use crate::{FIRSTS, SECONDS, TERM_COUNT};
use terms::Term;

// A TM record: a term's kind and its two arguments. They are terms, or, for kinds 0 to 6, the first is just a number. It is what a
// sheet says, right or wrong, so the kind stays a byte: it may be no kind's.
#[derive(Clone, Copy, PartialEq, Eq)]
pub struct Row {
    pub kind: u8,
    pub first: u8,
    pub second: u8,
}

// How many terms there are.
pub fn terms_in(table: &[u8]) -> u8
    requires { length table.now ≡ table_size }
    ensures { result ≡ byte table.now term_count }
{
    table[TERM_COUNT]
}

// The kind of a term.
pub fn kind_at(table: &[u8], t: Term) -> Kind
    requires { Filled table.now × (t.0 < byte table.now term_count) }
    ensures { code result ≡ byte table.now t.0 }
{
    Kind::numbered(table[usize::from(t.0)])
}

// Its arguments: terms, or, for a kind that has no first one, just a number. The two differ in their column only: one function over
// both would be named by the column, and no plainer.
pub fn first_at(table: &[u8], t: Term) -> u8
    requires { (length table.now ≡ table_size) × (t.0 < 200) }
    ensures { result ≡ byte table.now (firsts + t.0) }
{
    table[FIRSTS + usize::from(t.0)]
}

pub fn second_at(table: &[u8], t: Term) -> u8
    requires { (length table.now ≡ table_size) × (t.0 < 200) }
    ensures { result ≡ byte table.now (seconds + t.0) }
{
    table[SECONDS + usize::from(t.0)]
}

// The kind of a term, if there is such a term.
pub fn kind_of(table: &[u8], t: Term) -> Option<Kind>
    requires { Filled table.now }
    ensures { kind_said result ≡ kind_of (rows_in table.now) t.0 }
{
    if t.0 < terms_in(table) {
        return Some(kind_at(table, t));
    }
    None
}

// Whether `t` numbers an atom.
pub fn is_atom(table: &[u8], t: Term) -> bool
    requires { Filled table.now }
    ensures { result ≡ an_atom (rows_in table.now) t.0 }
{
    kind_of(table, t).is_some_and(|kind| kind.is_atom())
}

// Whether the bytes of the row of t are those of `row`. They are compared one by one, as they stand in three columns.
fn is_row(table: &[u8], t: Term, row: Row) -> bool
    requires { (length table.now ≡ table_size) × (t.0 < 200) }
    ensures { result ≡ same_bytes table.now t.0 row }
{
    let at = usize::from(t.0);
    (table[at] == row.kind)
        & (first_at(table, t) == row.first)
        & (second_at(table, t) == row.second)
}

// Whether `row` is on the sheet. All rows are looked at: with no way out of the loop, as `any` would have, it runs on many rows at
// once.
pub fn on_sheet(table: &[u8], row: Row) -> bool
    requires { Filled table.now × Written row }
    ensures { result ≡ on_sheet (rows_in table.now) (the_row row.kind row.first row.second) }
{
    let mut found = false;
    for i in 0..terms_in(table) {
        found = found | is_row(table, Term(i), row);
    }
    found
}

// The term whose row is this one.
pub fn find_row(table: &[u8], row: Row) -> Option<Term>
    requires { Filled table.now }
    ensures { LooksUp table.now row.kind row.first row.second result }
{
    (0..terms_in(table))
        .find(|i| is_row(table, Term(*i), row))
        .map(Term)
}

// Whether a term is there and has this kind.
fn is_kind(found: Option<Kind>, kind: Kind) -> bool
    ensures { result ≡ eqb (kind_said found) (code kind) }
{
    found.is_some_and(|there| there.is(kind))
}

// Whether it is there at all.
fn is_term(found: Option<Kind>) -> bool
    ensures { result ≡ leb (kind_said found) 12 }
{
    found.is_some()
}

// Whether the arguments of `row` are what its kind asks.
pub fn row_right(table: &[u8], row: Row) -> bool
    requires { Filled table.now }
    ensures { result ≡ by_kinds (kind_of (rows_in table.now)) row }
{
    let first = kind_of(table, Term(row.first));
    let second = kind_of(table, Term(row.second));
    let unused = row.second == 0;
    let Ok(kind) = Kind::try_from(row.kind) else {
        return false;
    };
    match kind {
        Kind::Public => is_kind(first, Kind::Name) & unused,
        Kind::Inverse => (is_kind(first, Kind::Akey) | is_kind(first, Kind::Public)) & unused,
        Kind::LongTerm => is_kind(first, Kind::Name) & is_kind(second, Kind::Name),
        Kind::Pair => is_term(first) & is_term(second),
        Kind::Encryption => { is_term(first) & is_term(second) & !is_kind(second, Kind::Mesg) }
        Kind::Hash => is_term(first) & unused,
        _ => unused,
    }
}

// One row more.
pub fn put_row(table: &mut [u8], row: Row)
    requires { Filled table.old × (byte table.old term_count < 200) × Written row }
    ensures { RowPut row table.old table.new }
{
    let count = table[TERM_COUNT];
    let n = usize::from(count);
    table[n] = row.kind;
    table[FIRSTS + n] = row.first;
    table[SECONDS + n] = row.second;
    table[TERM_COUNT] = count + 1;
}
