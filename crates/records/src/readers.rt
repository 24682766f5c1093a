// A reader for each kind of record. That the table is filled stays a clause of each: a struct of table and remainder that carries
// it would hand every reader the whole table, where each is given only what it needs, and would be no plainer.
ghost use Rattle.std.specs.Prelude.{◌≡◌, List, ◌&&◌, ℕ, ◌+◌, ◌*◌, ◌<◌, ◌≤◌, ltb, leb, length};
ghost use Rattle.model.specs.Lists.{every};
ghost use Rattle.model.specs.Says.{node_of};
ghost use Rattle.model.specs.Reading.{size, read_BS, read_row, read_TM, read_SK, event_right, read_ST, event_at, sends, receives, read_OR, read_atom};
ghost use Rattle.tables.specs.Layout.{skeleton_count};
ghost use Rattle.tables.specs.Tables.{byte, rows_in, skeleton_in, Filled};
ghost use Rattle.tables.specs.Stores.{event_said};
ghost use Rattle.records.specs.Said.{record_of, most, atom_record, Reads};

use model::Reason;
use tables::blocks::{Assumed, Event, RECEIVE, block_of, event_at, orders_in};
use tables::rows::{Row, is_atom, on_sheet, row_right, terms_in};
use tables::{
    MOST_HEIGHT, MOST_NONS, MOST_ORDERS, MOST_SKELETONS, MOST_STRANDS, MOST_TERMS, MOST_UNIQS,
};
use terms::{Node, Strand, Term};

// What a good record says. Of a strand it is the height: the events stay in the remainder.
#[derive(Clone, Copy, PartialEq, Eq)]
pub enum Record {
    Edition,
    Term(Row),
    Begin,
    Strand(u8),
    Order { send: Node, reception: Node },
    Atom(Assumed, Term),
    End,
}

impl Record {
    // How many bytes it takes, its mark included.
    #[tactic(auto, using(crate::proofs::Tests::tests), unfolding(model::specs::Reading::size))]
    pub fn size(self) -> usize
        ensures { (rest : List ℕ) → result ≡ size (record_of self rest) }
    {
        match self {
            Record::Edition | Record::Atom(..) => 3,
            Record::Term(_) => 5,
            Record::Begin | Record::End => 2,
            Record::Strand(height) => 3 + 2 * usize::from(height),
            Record::Order { .. } => 6,
        }
    }
}

#[tactic(auto, using(crate::proofs::Tests::tests), unfolding(model::specs::Reading::read_BS))]
pub fn read_edition(rest: &[u8]) -> Result<Record, Reason>
    ensures { Reads result rest.now (read_BS rest.now) }
{
    let [_, _, edition, ..] = *rest else {
        return Err(Reason::CutShort);
    };
    if edition != 1 {
        return Err(Reason::UnknownEdition);
    }
    Ok(Record::Edition)
}

// A whole TM record: its row is right and new.
fn term_said(table: &[u8], row: Row) -> Result<Record, Reason>
    requires { Filled table.now }
    ensures { (rest : List ℕ)
        → Reads result rest (read_row (rows_in table.now) row.kind row.first row.second) }
{
    if !row_right(table, row) {
        return Err(Reason::WrongTerm);
    }
    if on_sheet(table, row) {
        return Err(Reason::TermTwice);
    }
    Ok(Record::Term(row))
}

#[tactic(auto, using(crate::proofs::Tests::tests), unfolding(model::specs::Reading::read_TM))]
pub fn read_term(table: &[u8], rest: &[u8]) -> Result<Record, Reason>
    requires { Filled table.now }
    ensures { Reads result rest.now (read_TM (rows_in table.now) rest.now) }
{
    if MOST_TERMS <= usize::from(terms_in(table)) {
        return Err(Reason::OutOfBounds);
    }
    let [_, _, kind, first, second, ..] = *rest else {
        return Err(Reason::CutShort);
    };
    let row = Row {
        kind,
        first,
        second,
    };
    term_said(table, row)
}

// It is told how many skeletons there are.
#[tactic(auto, using(crate::proofs::Tests::tests), unfolding(model::specs::Reading::read_SK))]
pub fn read_begin(skeletons: usize) -> Result<Record, Reason>
    ensures { (rest : List ℕ) → Reads result rest (read_SK skeletons) }
{
    if MOST_SKELETONS <= skeletons {
        return Err(Reason::OutOfBounds);
    }
    Ok(Record::Begin)
}

// Whether an event of a strand has a direction and a term.
fn event_right(terms: usize, direction: u8, message: Term) -> bool
    ensures { result ≡ (leb direction 1 && ltb message.0 terms) }
{
    (direction <= RECEIVE) & (usize::from(message.0) < terms)
}

// Whether each event of an ST record is right. That the record is whole stays a clause here and where it is stored: between the two
// a `Record` carries the height alone, without the remainder that the fact speaks of.
fn events_right(terms: usize, height: usize, rest: &[u8]) -> bool
    requires { (height ≤ 16) × (3 + 2 * height ≤ length rest.now) }
    ensures { result ≡ every height (event_right terms rest.now) }
{
    (0..height).all(|i| event_right(terms, rest[3 + 2 * i], Term(rest[4 + 2 * i])))
}

// It is told how many terms and strands there are.
#[tactic(auto, using(crate::proofs::Tests::tests), unfolding(model::specs::Reading::read_ST))]
pub fn read_strand(terms: usize, strands: usize, rest: &[u8]) -> Result<Record, Reason>
    ensures { Reads result rest.now (read_ST terms strands rest.now) }
{
    if MOST_STRANDS <= strands {
        return Err(Reason::OutOfBounds);
    }
    let [_, _, height, ..] = *rest else {
        return Err(Reason::CutShort);
    };
    let n = usize::from(height);
    if n < 1 || MOST_HEIGHT < n {
        return Err(Reason::OutOfBounds);
    }
    if rest.len() < 3 + 2 * n {
        return Err(Reason::CutShort);
    }
    if events_right(terms, n, rest) {
        return Ok(Record::Strand(height));
    }
    Err(Reason::WrongReference)
}

#[tactic(auto, unfolding(model::specs::Reading::sends))]
fn sends(event: Option<Event>) -> bool
    ensures { result ≡ sends (event_said event) }
{
    matches!(event, Some(Event::Send(_)))
}

#[tactic(auto, unfolding(model::specs::Reading::receives))]
fn receives(event: Option<Event>) -> bool
    ensures { result ≡ receives (event_said event) }
{
    matches!(event, Some(Event::Reception(_)))
}

// An OR record of the skeleton k.
#[tactic(auto, using(crate::proofs::Tests::tests), unfolding(model::specs::Reading::read_OR, model::specs::Says::node_of))]
pub fn read_order(table: &[u8], k: u8, rest: &[u8]) -> Result<Record, Reason>
    requires { Filled table.now × (k < byte table.now skeleton_count) }
    ensures { Reads result rest.now (read_OR (skeleton_in table.now k) rest.now) }
{
    let block = block_of(k);
    if MOST_ORDERS <= usize::from(orders_in(table, block)) {
        return Err(Reason::OutOfBounds);
    }
    let [_, _, from, sent, to, heard, ..] = *rest else {
        return Err(Reason::CutShort);
    };
    let send = Node {
        strand: Strand(from),
        position: sent,
    };
    let reception = Node {
        strand: Strand(to),
        position: heard,
    };
    if sends(event_at(table, block, send)) & receives(event_at(table, block, reception)) {
        return Ok(Record::Order { send, reception });
    }
    Err(Reason::WrongReference)
}

// How many records of a kind a skeleton has room for.
fn most(which: Assumed) -> usize
    ensures { result ≡ most which }
{
    match which {
        Assumed::Non => MOST_NONS,
        Assumed::Uniq => MOST_UNIQS,
    }
}

// A NO or UO record: it is told how many of its kind there are.
#[tactic(auto, using(crate::proofs::Tests::tests), unfolding(model::specs::Reading::read_atom))]
pub fn read_atom(table: &[u8], which: Assumed, there: usize, rest: &[u8]) -> Result<Record, Reason>
    requires { Filled table.now }
    ensures { Reads result rest.now
        (read_atom (most which) (atom_record which) (rows_in table.now) there rest.now) }
{
    if most(which) <= there {
        return Err(Reason::OutOfBounds);
    }
    let [_, _, atom, ..] = *rest else {
        return Err(Reason::CutShort);
    };
    let atom = Term(atom);
    if is_atom(table, atom) {
        return Ok(Record::Atom(which, atom));
    }
    Err(Reason::WrongReference)
}
