// How a term first appears on a strand, and where it originates: of the events whose messages are in a set of terms.
#![tactic(auto)]

ghost use Rattle.std.specs.Prelude.{◌≡◌, ℕ, ◌+◌, ◌<◌};
ghost use Rattle.terms.specs.Set.{mem};
ghost use Rattle.tables.specs.Layout.{strand_count};
ghost use Rattle.tables.specs.Tables.{byte, skeleton_at};
ghost use Rattle.origin.specs.Marked.{AppearsAs, OriginatesAs, IsMessages};
ghost use Rattle.origin.specs.Passing.{Gathered, NextIs};

use tables::drawing::Drawing;
use terms::{Node, Strand, TermSet};

// How a strand first has a marked message. Three cases, so no Option; an Option of a position with its direction would be
// no plainer.
#[derive(Clone, Copy)]
pub enum Appears {
    Nowhere,
    Sent(u8),
    Received(u8),
}

// On how many strands a marked message comes first in a send. Three cases, since `find_origins` is public, and its contract tells
// a message that originates nowhere from one that does so twice.
#[derive(Clone, Copy)]
pub enum Origins {
    Nowhere,
    At(Node),
    Several,
}

// The set, with the messages of a strand too.
#[tactic(auto, unfolding(model::specs::Says::node_of))]
fn with_strand(skeleton: Drawing, set: TermSet, strand: Strand) -> TermSet
    requires strand_bound { strand.0 < byte skeleton.table.now (skeleton.block + strand_count) }
    requires gathered { Gathered (skeleton_at skeleton.table.now skeleton.block) strand.0 0 set }
    ensures { Gathered (skeleton_at skeleton.entry.table.now skeleton.entry.block) (strand.0 + 1) 0 result }
{
    let mut all = set;
    for position in 0..skeleton.height(strand) {
        all.insert(skeleton.message(Node { strand, position }));
    }
    all
}

// The messages of all events.
pub fn messages(skeleton: Drawing) -> TermSet
    ensures { IsMessages (skeleton_at skeleton.entry.table.now skeleton.entry.block) result }
{
    let mut all = TermSet::EMPTY;
    for s in 0..skeleton.strand_count() {
        all = with_strand(skeleton, all, Strand(s));
    }
    all
}

// How the strand first has a message that is in `marks`.
#[tactic(auto, unfolding(model::specs::Says::node_of))]
pub fn first_marked(skeleton: Drawing, marks: &TermSet, strand: Strand) -> Appears
    requires { strand.0 < byte skeleton.table.now (skeleton.block + strand_count) }
    ensures { AppearsAs (skeleton_at skeleton.entry.table.now skeleton.entry.block) (mem marks.now) strand.0 result }
{
    let height = skeleton.height(strand);
    for position in 0..height {
        let node = Node { strand, position };
        if marks.has(skeleton.message(node)) {
            if skeleton.is_send(node) {
                return Appears::Sent(position);
            }
            return Appears::Received(position);
        }
    }
    Appears::Nowhere
}

// The first origin on the strands from `from` on, if there is one more.
fn next_origin(skeleton: Drawing, marks: &TermSet, from: Strand) -> Option<Node>
    ensures { NextIs (skeleton_at skeleton.entry.table.now skeleton.entry.block) (mem marks.now) from.0 result }
{
    for s in from.0..skeleton.strand_count() {
        if let Appears::Sent(position) = first_marked(skeleton, marks, Strand(s)) {
            return Some(Node {
                strand: Strand(s),
                position,
            });
        }
    }
    None
}

// Where a message that is in `marks` originates. It stops at the second strand.
pub fn find_origins(skeleton: Drawing, marks: &TermSet) -> Origins
    ensures { OriginatesAs (skeleton_at skeleton.entry.table.now skeleton.entry.block) (mem marks.now) result }
{
    let Some(node) = next_origin(skeleton, marks, Strand(0)) else {
        return Origins::Nowhere;
    };
    match next_origin(skeleton, marks, Strand(node.strand.0 + 1)) {
        None => Origins::At(node),
        Some(other) => Origins::Several,
    }
}
