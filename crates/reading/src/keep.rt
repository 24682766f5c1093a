// What a good record says is put into the table, and counted. That the table is filled stays a clause, as in records: it is a fact
// of a table that is being filled, and the table is written here.
ghost use Rattle.tables.specs.Tables.{Filled};
ghost use Rattle.records.specs.Marks.{mark};
ghost use Rattle.records.specs.Said.{record_of};
ghost use Rattle.reading.specs.States.{Room, Kept};

use crate::next::in_work;
use records::marks::Mark;
use records::readers::Record;
use tables::blocks::{Assumed, put_atom, put_order, put_skeleton, put_strand};
use tables::rows::put_row;

// The record, which there is room for, is in the table afterwards. Its mark is handed back.
#[tactic(auto, using(crate::proofs::Keeps::keeps))]
pub fn keep(table: &mut [u8], said: Record, rest: &[u8]) -> Mark
    requires { Filled table.old × Room table.old said rest.now }
    ensures { Kept (record_of said rest.now) table.old (mark result) table.new }
{
    match said {
        Record::Edition => Mark::BS,
        Record::Term(row) => {
            put_row(table, row);
            Mark::TM
        }
        Record::Begin => {
            put_skeleton(table);
            Mark::SK
        }
        Record::Strand(height) => {
            let k = in_work(table);
            put_strand(table, k, height, rest);
            Mark::ST
        }
        Record::Order { send, reception } => {
            let k = in_work(table);
            put_order(table, k, send, reception);
            Mark::OR
        }
        Record::Atom(which, atom) => {
            let k = in_work(table);
            put_atom(table, k, which, atom);
            match which {
                Assumed::Non => Mark::NO,
                Assumed::Uniq => Mark::UO,
            }
        }
        Record::End => Mark::EN,
    }
}
