// The map question about an accepted sheet, and the judgement of one strand map, for a lister too.
#![tactic(auto)]

ghost use Rattle.std.specs.Prelude.{◌≡◌, ◌<◌, ◌≤◌, length};
ghost use Rattle.model.specs.Sheet.{Verdict};
ghost use Rattle.model.specs.Answers.{AskMap};
ghost use Rattle.model.specs.Says.{map_says};
ghost use Rattle.theory.specs.GoodTable.{Good};
ghost use Rattle.tables.specs.Layout.{term_count};
ghost use Rattle.tables.specs.Tables.{byte, rows_in, skeleton_at, sheet_in, Filled};
ghost use Rattle.matching.specs.Ready.{Ready};
ghost use Rattle.mapping.specs.Judged.{IsPrepared, JudgedAs};
ghost use Rattle.mapping.specs.Written.{Written};
ghost use Rattle.mapping.specs.Listed.{AtomsListed};

pub mod prepared;

use accept::sheet::Sheet;
use carry::variables;
use keys::Inverses;
use maps::images::Images;
use maps::{rule_five, rule_four, rule_one, rule_six, rule_two};
pub use matching::NONE;
use matching::accepted::Accepted;
use matching::matches;
use model::{Answer, Reason, Refusal, Rule};
use prepared::{Prepared, Room, prepare, sides_of};
use tables::rows::terms_in;
use terms::{Term, TermSet};

// The bytes of the terms of a table.
fn images_of<'a>(table: &'a [u8], inverses: &'a Inverses, bytes: &'a [u8; 200]) -> Images<'a>
    requires { Ready table.now inverses.now.of }
    ensures { (result.sheet.table.now ≡ table.now) × (result.bytes.now ≡ bytes.now) }
{
    let sheet = Accepted { table, inverses };
    Images { sheet, bytes }
}

// Judges one strand map: the first broken rule, if there is one.
pub fn judge_map(prepared: &Prepared, map: &[u8], images: &mut [u8; 200]) -> Result<(), Rule>
    requires { IsPrepared prepared.now }
    ensures { JudgedAs (rows_in prepared.now.sides.table.now)
        (skeleton_at prepared.now.sides.table.now prepared.now.sides.source)
        (skeleton_at prepared.now.sides.table.now prepared.now.sides.target) map.now images.new result
        × (length images.new ≡ 200) }
{
    let sides = prepared.sides;
    if !rule_one(sides, map) {
        return Err(Rule::Strands);
    }
    if !rule_two(sides, map) {
        return Err(Rule::Events);
    }
    if !matches(sides, prepared.inverses, map, images) {
        return Err(Rule::Messages);
    }
    if !rule_four(sides, map, prepared.before) {
        return Err(Rule::Order);
    }
    let images = images_of(sides.table, prepared.inverses, images);
    if !rule_five(images, prepared.from.nons, prepared.to.nons) {
        return Err(Rule::Nons);
    }
    if !rule_six(images, map, prepared.from.uniques(), prepared.to.uniques()) {
        return Err(Rule::Uniqs);
    }
    Ok(())
}

// The byte that the answer gives a term: its image if it is a member of `variables`.
fn shown(variables: &TermSet, images: &[u8; 200], t: Term) -> u8
    requires { t.0 < length images.now }
    ensures { result ≡ Rattle.mapping.specs.Written.shown variables.now images.now t.0 }
{
    if variables.has(t) {
        return images[usize::from(t.0)];
    }
    NONE
}

// Writes the answer's byte for each term, whose number is its place there.
fn write_images(table: &[u8], images: &[u8; 200], lent: &mut [u8])
    requires { Filled table.now × Good (rows_in table.now) × (byte table.now term_count ≤ length lent.old) }
    ensures { Written (rows_in table.now) images.now lent.old lent.new }
{
    let variables = variables(table);
    for i in 0..terms_in(table) {
        lent[usize::from(i)] = shown(&variables, images, Term(i));
    }
}

// Is the strand map from one skeleton to another a map? The images are written if it is.
pub fn map(
    sheet: Sheet,
    source: u8,
    target: u8,
    map: &[u8],
    images: &mut [u8],
) -> Answer<Option<Rule>>
    requires { AtomsListed sheet.table.now }
    ensures { AskMap source target map.now images.old
        (Verdict.accepted (sheet_in sheet.entry.table.now)) (map_says result) images.new }
{
    let Some(sides) = sides_of(sheet, source, target) else {
        return Err(Refusal::from(Reason::NoSuch));
    };
    if images.len() < usize::from(terms_in(sheet.table)) {
        return Err(Refusal::from(Reason::NoRoom));
    }
    let mut room = Room::EMPTY;
    let prepared = prepare(sides, sheet.inverses, &mut room);
    let mut found = [NONE; 200];
    if let Err(rule) = judge_map(&prepared, map, &mut found) {
        return Ok(Some(rule));
    }
    write_images(sheet.table, &found, images);
    Ok(None)
}
