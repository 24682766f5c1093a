// The record at the start of the remainder. That the table is filled stays a clause, as in records: it is a fact of a table that is
// being filled, and each reader is given only what it needs of it.
ghost use Rattle.std.specs.Prelude.{◌≡◌, ℕ, ◌+◌, ◌<◌, ◌≤◌, length};
ghost use Rattle.model.specs.Reading.{read_as, read_record};
ghost use Rattle.tables.specs.Layout.{skeleton_count};
ghost use Rattle.tables.specs.Tables.{byte, Filled};
ghost use Rattle.records.specs.Marks.{mark as mark_said, last_of};
ghost use Rattle.records.specs.Said.{atom_mark, Reads};
ghost use Rattle.reading.specs.States.{state_in, Inner, Underway};

use model::Reason;
use records::marks::{Mark, read_mark};
use records::readers::{
    Record, read_atom, read_begin, read_edition, read_order, read_strand, read_term,
};
use tables::blocks::{Assumed, atoms_in, block_of, skeletons_in, strands_in};
use tables::rows::terms_in;

// The skeleton in work, which is the last.
pub fn in_work(table: &[u8]) -> u8
    requires { Filled table.now × (0 < byte table.now skeleton_count) }
    ensures { result + 1 ≡ byte table.now skeleton_count }
{
    skeletons_in(table) - 1
}

// A NO or UO record of it.
#[tactic(auto, using(crate::proofs::Nexts::nexts))]
fn read_assumed(table: &[u8], which: Assumed, rest: &[u8]) -> Result<Record, Reason>
    requires { Filled table.now × (0 < byte table.now skeleton_count) }
    ensures { (last : _)
        → Reads result rest.now (read_as (atom_mark which) (state_in last table.now) rest.now) }
{
    let there = atoms_in(table, block_of(in_work(table)), which);
    read_atom(table, which, usize::from(there), rest)
}

// What a record of this mark says.
#[tactic(auto, using(crate::proofs::Nexts::nexts), unfolding(model::specs::Reading::read_as))]
fn read_as(mark: Mark, table: &[u8], rest: &[u8]) -> Result<Record, Reason>
    requires { Filled table.now × (2 ≤ length rest.now) × (Inner (mark_said mark) → 0 < byte table.now skeleton_count) }
    ensures { (last : _)
        → Reads result rest.now (read_as (mark_said mark) (state_in last table.now) rest.now) }
{
    match mark {
        Mark::BS => read_edition(rest),
        Mark::TM => read_term(table, rest),
        Mark::SK => read_begin(usize::from(skeletons_in(table))),
        Mark::ST => read_strand(
            usize::from(terms_in(table)),
            usize::from(strands_in(table, block_of(in_work(table)))),
            rest,
        ),
        Mark::OR => read_order(table, in_work(table), rest),
        Mark::NO => read_assumed(table, Assumed::Non, rest),
        Mark::UO => read_assumed(table, Assumed::Uniq, rest),
        Mark::EN => Ok(Record::End),
    }
}

// What the next record says, after the mark `last`.
#[tactic(auto, using(crate::proofs::Nexts::nexts))]
pub fn read_record(last: Option<Mark>, table: &[u8], rest: &[u8]) -> Result<Record, Reason>
    requires { Underway (last_of last) table.now }
    ensures { Reads result rest.now (read_record (state_in (last_of last) table.now) rest.now) }
{
    if rest.len() < 2 {
        return Err(Reason::CutShort);
    }
    let Some(mark) = read_mark(last, rest) else {
        return Err(Reason::UnknownMark);
    };
    read_as(mark, table, rest)
}
