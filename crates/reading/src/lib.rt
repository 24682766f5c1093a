// The sheet as it is read, record by record, up to EN or to the first faulty record.
#![tactic(auto)]

ghost use Rattle.std.specs.Prelude.{◌≡◌, length};
ghost use Rattle.model.specs.Reading.{is_end};
ghost use Rattle.tables.specs.Layout.{table_size};
ghost use Rattle.records.specs.Marks.{last_of};
ghost use Rattle.reading.specs.Answers.{ReadInto};

pub mod keep;
pub mod next;

use crate::keep::keep;
use crate::next::read_record;
use model::Reason;
use records::marks::Mark;
use tables::blocks::clear;

// Why a sheet is faulty, and where.
#[derive(Clone, Copy, PartialEq, Eq)]
pub struct Faulty {
    pub reason: Reason,
    pub place: usize,
}

// Whether the sheet has ended: its last record was EN.
#[tactic(auto, unfolding(model::specs::Reading::is_end))]
fn ended(last: Option<Mark>) -> bool
    ensures { result ≡ is_end (last_of last) }
{
    matches!(last, Some(Mark::EN))
}

// The whole sheet, read into the table: each record's reader is given the remainder. The table is lent: what is read of it is promised
// on a refusal too, so it outlives the refusal. A record's size is known when it is read, so `at` is counted by hand, and no `for`
// runs over the records. Each answer is taken apart by `let .. else`, so that the refusal is seen to be returned at once.
pub fn read_sheet(bytes: &[u8], table: &mut [u8]) -> Result<(), Faulty>
    requires { length table.old ≡ table_size }
    ensures { ReadInto bytes.now result table.new }
{
    clear(table);
    let mut last = None;
    let mut at: usize = 0;
    while !ended(last) {
        let rest = &bytes[at..];
        let answer = read_record(last, table, rest);
        let Ok(said) = answer else {
            return answer
                .map(|_| ())
                .map_err(|reason| Faulty { reason, place: at });
        };
        last = Some(keep(table, said, rest));
        at += said.size();
    }
    if at < bytes.len() {
        return Err(Faulty {
            reason: Reason::BytesAfterEnd,
            place: at,
        });
    }
    Ok(())
}
