// The list question about an accepted sheet. Every candidate is judged once; which ones are maps is kept a bit each, and the list is
// written at the end.
#![tactic(auto)]

ghost use Rattle.std.specs.Prelude.{◌≡◌, true, ◌↔◌, ◌+◌, ◌^◌, ◌<◌, ◌≤◌};
ghost use Rattle.model.specs.Sheet.{Verdict};
ghost use Rattle.model.specs.Answers.{AskList};
ghost use Rattle.model.specs.Says.{list_says};
ghost use Rattle.theory.specs.Encoding.{WithinLimits};
ghost use Rattle.tables.specs.Tables.{sheet_in};
ghost use Rattle.list.specs.Candidates.{passing};
ghost use Rattle.list.specs.Found.{marked};
ghost use Rattle.mapping.specs.Judged.{IsPrepared};
ghost use Rattle.listing.specs.Found.{strands, IsMap, MarkedBelow, GivenAs, FewMaps};
ghost use Rattle.listing.specs.Search.{Searches, MarkedAll};

use accept::sheet::Sheet;
use list::{Candidates, Found, WORDS};
use mapping::prepared::{Prepared, Room, prepare, sides_of};
use mapping::{NONE, judge_map};
use model::{Answer, Reason, Refusal};

// The candidates among which the maps of two skeletons are.
#[derive(Drop)]
struct Search<'a> {
    prepared: Prepared<'a>,
    candidates: Candidates,
}

impl<'a> Search<'a> {
    // Each source strand goes to one of the target's.
    fn new(prepared: Prepared<'a>) -> Search<'a>
        requires { IsPrepared prepared × (1 ≤ strands prepared.sides.table.now prepared.sides.target) }
        ensures searches { Searches result }
        ensures same { result.prepared ≡ prepared.entry }
    {
        let sides = prepared.sides;
        Search {
            prepared,
            candidates: Candidates {
                n: sides.from().strand_count(),
                base: sides.to().strand_count(),
            },
        }
    }

    // Whether candidate c is a map. There is no heap, so the digits lie at the start of the six that the most strands take.
    fn is_map(&self, c: usize) -> bool
        requires { Searches self.now × (c < self.now.candidates.base ^ self.now.candidates.n) }
        ensures { (result ≡ true) ↔ IsMap self.now.prepared.sides.table.now
            self.now.prepared.sides.source self.now.prepared.sides.target c }
    {
        let mut map = [0; 6];
        self.candidates.put_digits(&mut map, c);
        let mut images = [NONE; 200];
        let used = usize::from(self.candidates.n);
        judge_map(&self.prepared, &map[..used], &mut images).is_ok()
    }

    // Marks the candidates that are maps, and no others.
    fn find(&self, found: &mut Found)
        requires { Searches self.now }
        ensures { MarkedAll self.now found.new }
    {
        found.clear();
        for c in 0..self.candidates.total() {
            if self.is_map(c) {
                found.mark(c);
            }
        }
    }
}

// Counts the marked candidates, and writes them if there is room.
fn write_list(found: &Found, candidates: Candidates, space: &mut [u8]) -> Answer<usize>
    ensures { GivenAs (passing candidates.n candidates.base (marked found.now) (candidates.base ^ candidates.n))
        candidates.n space.old (list_says result) space.new × FewMaps result }
{
    let total = candidates.total();
    let count = found.count(total);
    if space.len() < count * usize::from(candidates.n) {
        return Err(Refusal::from(Reason::NoRoom));
    }
    found.write(candidates, total, space);
    Ok(count)
}

// Which strand maps from one skeleton to another are maps? All are written, in dictionary order.
pub fn list(sheet: Sheet, source: u8, target: u8, space: &mut [u8]) -> Answer<usize>
    requires { WithinLimits (sheet_in sheet.table.now) }
    ensures { AskList source target space.old (Verdict.accepted (sheet_in sheet.entry.table.now)) (list_says result)
        space.new × FewMaps result }
{
    let Some(sides) = sides_of(sheet, source, target) else {
        return Err(Refusal::from(Reason::NoSuch));
    };
    let mut room = Room::EMPTY;
    let search = Search::new(prepare(sides, sheet.inverses, &mut room));
    let mut found = Found { words: [0; WORDS] };
    search.find(&mut found);
    write_list(&found, search.candidates, space)
}
