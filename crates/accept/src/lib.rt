// A sheet read and accepted: what every question starts from.
#![tactic(auto)]

ghost use Rattle.std.specs.Prelude.{◌≡◌, List, ℕ, ◌+◌, ◌*◌, ◌<◌, ◌≤◌, length};
ghost use Rattle.model.specs.Accepting.{Lacking};
ghost use Rattle.theory.specs.Judgement.{Raw};
ghost use Rattle.tables.specs.Tables.{rows_in, sheet_in, Filled};
ghost use Rattle.tables.specs.Drawn.{drawing};
ghost use Rattle.rules.specs.Judged.{JudgedAs};
ghost use Rattle.accept.specs.Held.{AllDrawn, SheetAs, JudgedAll};
ghost use Rattle.accept.specs.Accepted.{AcceptedAs};

pub mod sheet;

use crate::sheet::{Room, Sheet};
use keys::{Inverses, find_inverses};
use model::{Reason, Refusal};
use order::{Precedence, WORDS};
use reading::read_sheet;
use rules::{Fault, judge};
use tables::blocks::{block_of, skeletons_in};
use tables::drawing::Drawing;

// Judges a skeleton by its precedence.
fn judge_block(skeleton: Drawing) -> Result<(), Fault>
    ensures { JudgedAs (drawing skeleton.entry.table.now skeleton.entry.block) result }
{
    let mut before = Precedence { words: [0; WORDS] };
    before.fill(skeleton.table, skeleton.block);
    judge(skeleton, &before)
}

// Judges the skeletons in turn.
fn judge_skeletons(table: &[u8]) -> Result<(), Refusal>
    requires { AllDrawn table.now × ((i : ℕ) → ¬ Lacking (rows_in table.now) i) }
    ensures { JudgedAll (sheet_in table.now) result }
{
    for k in 0..skeletons_in(table) {
        let skeleton = Drawing {
            table,
            block: block_of(k),
        };
        if let Err(fault) = judge_block(skeleton) {
            return Err(Refusal {
                reason: fault.reason,
                place: usize::from(fault.place),
                skeleton: k,
            });
        }
    }
    Ok(())
}

// Accepts the sheet that lies in the table, and works out the inverses, or refuses it. An error of another type is matched and made a
// refusal here: with `map_err` the proof at the `?` was left open, as it has the closure's clause there and not the callee's.
fn accept_terms(table: &[u8], inverses: &mut Inverses) -> Result<(), Refusal>
    requires { Filled table.now × Raw (sheet_in table.now) }
    ensures { SheetAs table.now inverses.new.of result }
{
    if let Err(key) = find_inverses(table, inverses) {
        return Err(Refusal {
            reason: Reason::KeyWithoutInverse,
            place: usize::from(key.0),
            skeleton: 0,
        });
    }
    judge_skeletons(table)
}

// Reads the bytes, and accepts the sheet or refuses it.
pub fn accept<'a>(bytes: &[u8], room: &'a mut Room) -> Result<Sheet<'a>, Refusal>
    ensures { AcceptedAs bytes.now result }
{
    if let Err(faulty) = read_sheet(bytes, &mut room.table) {
        return Err(Refusal {
            reason: faulty.reason,
            place: faulty.place,
            skeleton: 0,
        });
    }
    accept_terms(&room.table, &mut room.inverses)?;
    Ok(Sheet {
        table: &room.table,
        inverses: &room.inverses,
    })
}
