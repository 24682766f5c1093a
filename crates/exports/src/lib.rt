// The questions for C and Rust: each answer is one word. What the words say is in specs/Words.antt. The names, the parameters
// and the words are the C interface, include/judge.h: a node is two bytes there, and what is lent is a slice.
#![tactic(auto)]

ghost use Rattle.std.specs.Prelude.{◌≡◌, [], ◌≤◌, ◌<◌};
ghost use Rattle.model.specs.Answers.{AskSheet, AskWithin, AskDerivable, AskReach, AskRealized, AskMap, AskList};
ghost use Rattle.model.specs.Says.{refusal_of, yes_no_says};
ghost use Rattle.judge.specs.Small.{SmallRefusal, SmallYesNo};
ghost use Rattle.exports.specs.Words.{word, refusal_word, sheet_word, yes_no_word, count_word, realized_word, map_word};
ghost use Rattle.exports.specs.Said.{SaidAs, node_at};

use judge::{derivable, list, map, reach, realized, sheet, within};
use model::{Answer, Refusal};
use terms::{Node, Strand, Term};

// The word of four parts, which fit their places. A usize has no `From` into a word.
fn word_of(tag: u8, x: u8, y: u8, z: usize) -> u64
    requires { z < 4294967296 }
    ensures { result ≡ word tag x y z }
{
    u64::from(tag) + 256 * u64::from(x) + 65536 * u64::from(y) + 4294967296 * (z as u64)
}

fn refusal_word_of(r: Refusal) -> u64
    requires { SmallRefusal r }
    ensures { result ≡ refusal_word (refusal_of r) }
{
    word_of(0, u8::from(r.reason), r.skeleton, r.place)
}

// 1, x skeletons, z terms. Of skeletons there are at most two, so `as` loses nothing.
#[unsafe(no_mangle)]
pub extern "C" fn judge_sheet(bytes: &[u8]) -> u64
    ensures { SaidAs bytes.now AskSheet sheet_word [] result }
{
    sheet(bytes).map_or_else(
        refusal_word_of,
        |counts| word_of(1, counts.skeletons as u8, 0, counts.terms),
    )
}

// The word of yes, of no and of a refusal.
fn yes_no_word_of(answer: Answer<bool>) -> u64
    requires { SmallYesNo answer }
    ensures { result ≡ yes_no_word (yes_no_says answer) }
{
    answer.map_or_else(
        refusal_word_of,
        |so| word_of(if so { 1 } else { 2 }, 0, 0, 0),
    )
}

// 1 yes, 2 no.
#[unsafe(no_mangle)]
pub extern "C" fn judge_within(bytes: &[u8], t: u8, inside: u8, set: &[u8]) -> u64
    ensures { SaidAs bytes.now (AskWithin t inside set.now) yes_no_word set.now result }
{
    yes_no_word_of(within(bytes, Term(t), Term(inside), set))
}

// 1 yes, 2 no.
#[unsafe(no_mangle)]
pub extern "C" fn judge_derivable(
    bytes: &[u8],
    skeleton: u8,
    strand: u8,
    position: u8,
    term: u8,
) -> u64
    ensures { SaidAs bytes.now (AskDerivable skeleton (node_at strand position) term) yes_no_word [] result }
{
    let node = Node {
        strand: Strand(strand),
        position,
    };
    yes_no_word_of(derivable(bytes, skeleton, node, Term(term)))
}

// 1, z the reach.
#[unsafe(no_mangle)]
pub extern "C" fn judge_reach(bytes: &[u8], skeleton: u8, strand: u8, position: u8) -> u64
    ensures { SaidAs bytes.now (AskReach skeleton (node_at strand position)) count_word [] result }
{
    let node = Node {
        strand: Strand(strand),
        position,
    };
    reach(bytes, skeleton, node).map_or_else(refusal_word_of, |count| word_of(1, 0, 0, count))
}

// 1 yes; 2 open, x strand, y position.
#[unsafe(no_mangle)]
pub extern "C" fn judge_realized(bytes: &[u8], skeleton: u8) -> u64
    ensures { SaidAs bytes.now (AskRealized skeleton) realized_word [] result }
{
    realized(bytes, skeleton).map_or_else(refusal_word_of, |first| match first {
        None => word_of(1, 0, 0, 0),
        Some(n) => word_of(2, n.strand.0, n.position, 0),
    })
}

// 1 yes; 2 no, x the broken rule.
#[unsafe(no_mangle)]
pub extern "C" fn judge_map(
    bytes: &[u8],
    source: u8,
    target: u8,
    strands: &[u8],
    images: &mut [u8],
) -> u64
    ensures { SaidAs bytes.now (AskMap source target strands.now images.old) map_word images.new result }
{
    map(bytes, source, target, strands, images).map_or_else(
        refusal_word_of,
        |broken| match broken {
            None => word_of(1, 0, 0, 0),
            Some(rule) => word_of(2, u8::from(rule), 0, 0),
        },
    )
}

// 1, z the count.
#[unsafe(no_mangle)]
pub extern "C" fn judge_list(bytes: &[u8], source: u8, target: u8, space: &mut [u8]) -> u64
    ensures { SaidAs bytes.now (AskList source target space.old) count_word space.new result }
{
    list(bytes, source, target, space).map_or_else(refusal_word_of, |count| word_of(1, 0, 0, count))
}
