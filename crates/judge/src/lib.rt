// The questions: each takes any bytes as a sheet, and gives an answer or one numbered refusal. There is no heap, so what is
// written besides, the images and the maps, goes into slices that are lent; the contracts say what these hold afterwards.
#![tactic(auto)]

ghost use Rattle.std.specs.Prelude.{◌≡◌, [], ◌≤◌};
ghost use Rattle.model.specs.Answers.{Gives, AskSheet, AskWithin, AskDerivable, AskReach, AskRealized, AskMap, AskList};
ghost use Rattle.model.specs.Says.{node_of, sheet_says, yes_no_says, reach_says, realized_says, map_says, list_says};
ghost use Rattle.judge.specs.Small.{SmallSheet, SmallYesNo, SmallReach, SmallRealized, SmallMap, SmallList};

use accept::accept;
use accept::sheet::Room;
use model::{Answer, Counts, Rule};
use tables::blocks::skeletons_in;
use tables::rows::terms_in;
use terms::{Node, Term};

// Is the sheet good, and how many terms and skeletons has it?
pub fn sheet(bytes: &[u8]) -> Answer<Counts>
    ensures { Gives bytes.now AskSheet (sheet_says result) [] × SmallSheet result }
{
    let mut room = Room::EMPTY;
    let sheet = accept(bytes, &mut room)?;
    Ok(Counts {
        terms: usize::from(terms_in(sheet.table)),
        skeletons: usize::from(skeletons_in(sheet.table)),
    })
}

// Is `t` carried only within `set` in `inside`?
pub fn within(bytes: &[u8], t: Term, inside: Term, set: &[u8]) -> Answer<bool>
    ensures { Gives bytes.now (AskWithin t.0 inside.0 set.now) (yes_no_says result) set.now
        × SmallYesNo result }
{
    let mut room = Room::EMPTY;
    let sheet = accept(bytes, &mut room)?;
    questions::within(sheet, t, inside, set)
}

// Is the term derivable before the reception?
pub fn derivable(bytes: &[u8], skeleton: u8, node: Node, term: Term) -> Answer<bool>
    ensures { Gives bytes.now (AskDerivable skeleton (node_of node) term.0) (yes_no_says result) [] × SmallYesNo result }
{
    let mut room = Room::EMPTY;
    let sheet = accept(bytes, &mut room)?;
    questions::derivable(sheet, skeleton, node, term)
}

// How many of the sheet's terms are derivable before the reception?
pub fn reach(bytes: &[u8], skeleton: u8, node: Node) -> Answer<usize>
    ensures { Gives bytes.now (AskReach skeleton (node_of node)) (reach_says result) [] × SmallReach result }
{
    let mut room = Room::EMPTY;
    let sheet = accept(bytes, &mut room)?;
    questions::reach(sheet, skeleton, node)
}

// Is the skeleton realized, and if not, which reception is the first that is open?
pub fn realized(bytes: &[u8], skeleton: u8) -> Answer<Option<Node>>
    ensures { Gives bytes.now (AskRealized skeleton) (realized_says result) [] × SmallRealized result }
{
    let mut room = Room::EMPTY;
    let sheet = accept(bytes, &mut room)?;
    questions::realized(sheet, skeleton)
}

// Is the strand map a map from one skeleton to another, with which images, and which is the first broken rule?
pub fn map(
    bytes: &[u8],
    source: u8,
    target: u8,
    map: &[u8],
    images: &mut [u8],
) -> Answer<Option<Rule>>
    ensures { Gives bytes.now (AskMap source target map.now images.old) (map_says result) images.new
        × SmallMap result }
{
    let mut room = Room::EMPTY;
    let sheet = accept(bytes, &mut room)?;
    mapping::map(sheet, source, target, map, images)
}

// Which strand maps are maps from one skeleton to another? They are written end to end.
pub fn list(bytes: &[u8], source: u8, target: u8, space: &mut [u8]) -> Answer<usize>
    ensures { Gives bytes.now (AskList source target space.old) (list_says result) space.new × SmallList result }
{
    let mut room = Room::EMPTY;
    let sheet = accept(bytes, &mut room)?;
    listing::list(sheet, source, target, space)
}
