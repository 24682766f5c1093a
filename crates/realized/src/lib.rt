// What the stranger reaches before a reception, and the first reception that is open.
//
// `with_send`, `with_strand` and `sent_before` ask for the skeleton and its matrix alone, and so for less than a `Scene` does. That
// the matrix shows its precedence is asked of each call, as in rules. `Low` is asked so too, since a `Node` is any two bytes.
#![tactic(auto)]

ghost use Rattle.std.specs.Prelude.{◌≡◌, ℕ, ◌+◌, ◌<◌};
ghost use Rattle.model.specs.Sheet.{meant};
ghost use Rattle.model.specs.Answers.{ReachIs};
ghost use Rattle.model.specs.Says.{node_of};
ghost use Rattle.tables.specs.Layout.{strand_count};
ghost use Rattle.tables.specs.Tables.{byte, skeleton_at};
ghost use Rattle.order.specs.Precedence.{Low, Shows};
ghost use Rattle.realized.specs.Before.{IsSent, IsWithheld, IsReached};
ghost use Rattle.realized.specs.Scene.{scene, IsReady};
ghost use Rattle.realized.specs.Passing.{Takes, Gathered};
ghost use Rattle.realized.specs.Opening.{OpenIs, OpenOn, FirstOpenIs};

use keys::Inverses;
use order::Precedence;
use stranger::reach;
use tables::blocks::{Assumed, Event};
use tables::drawing::Drawing;
use terms::{Node, Strand, Term, TermSet};

// The set, with the message of `sender` too if that is a send before the node.
fn with_send(
    skeleton: Drawing,
    before: &Precedence,
    set: TermSet,
    sender: Node,
    node: Node,
) -> TermSet
    requires shows { Shows (skeleton_at skeleton.table.now skeleton.block) before.now.words }
    requires low { Low (node_of sender) × Low (node_of node) }
    ensures { Takes (skeleton_at skeleton.entry.table.now skeleton.entry.block) (node_of node) (node_of sender) set result }
{
    let Some(Event::Send(said)) = skeleton.event_at(sender) else {
        return set;
    };
    if before.is_before(sender, node) {
        return set.with(said);
    }
    set
}

// The same for all nodes of a strand.
fn with_strand(
    skeleton: Drawing,
    before: &Precedence,
    set: TermSet,
    strand: Strand,
    node: Node,
) -> TermSet
    requires shows { Shows (skeleton_at skeleton.table.now skeleton.block) before.now.words }
    requires strand_bound { (strand.0 < byte skeleton.table.now (skeleton.block + strand_count)) × Low (node_of node) }
    requires gathered { Gathered (skeleton_at skeleton.table.now skeleton.block) (node_of node) strand.0 0 set }
    ensures { Gathered (skeleton_at skeleton.entry.table.now skeleton.entry.block) (node_of node) (strand.0 + 1) 0 result }
{
    let mut all = set;
    for position in 0..skeleton.height(strand) {
        let sender = Node { strand, position };
        all = with_send(skeleton, before, all, sender, node);
    }
    all
}

// The messages of all sends that come before the node. The walk is that of `origin::messages`; with a closure for the test of an event
// its contract would say of every walk what these say of two, and be no plainer.
pub fn sent_before(skeleton: Drawing, before: &Precedence, node: Node) -> TermSet
    requires { Shows (skeleton_at skeleton.table.now skeleton.block) before.now.words × Low (node_of node) }
    ensures { IsSent (skeleton_at skeleton.entry.table.now skeleton.entry.block) (node_of node) result }
{
    let mut all = TermSet::EMPTY;
    for s in 0..skeleton.strand_count() {
        all = with_strand(skeleton, before, all, Strand(s), node);
    }
    all
}

// The NO and the UO atoms. In an accepted skeleton each UO atom originates, so all of them are withheld.
pub fn withheld(skeleton: Drawing) -> TermSet
    ensures { IsWithheld (skeleton_at skeleton.entry.table.now skeleton.entry.block) result }
{
    skeleton
        .atoms(Assumed::Non)
        .union(skeleton.atoms(Assumed::Uniq))
}

// A skeleton, with what the stranger's reach in it is computed from. That the three belong together is asked of each call: such a
// fact may have several proofs, a type keeps only that there is one, and each proof here would have to take it out again. What is
// withheld is no field: whoever makes a `Scene` would have to compute it.
#[derive(Clone, Copy)]
pub struct Scene<'a> {
    pub skeleton: Drawing<'a>,
    pub inverses: &'a Inverses,
    pub before: &'a Precedence,
}

impl Scene<'_> {
    // What the stranger reaches before the node, where `held` is what is withheld.
    fn reached(self, held: TermSet, node: Node) -> TermSet
        requires ready { IsReady self × Low (node_of node) }
        requires withheld { IsWithheld (scene self).skeleton held }
        ensures { IsReached (scene self.entry) (node_of node) result }
    {
        let sent = sent_before(self.skeleton, self.before, node);
        reach(self.skeleton.table, self.inverses, sent, held)
    }

    // The terms of the table that are derivable before the node.
    pub fn reached_before(self, node: Node) -> TermSet
        requires { IsReady self × Low (node_of node) }
        ensures { IsReached (scene self.entry) (node_of node) result }
    {
        self.reached(withheld(self.skeleton), node)
    }

    // How many they are.
    pub fn count_reached(self, node: Node) -> usize
        requires { IsReady self × Low (node_of node) }
        ensures { (k : ℕ) → ReachIs k (node_of node) (scene self.entry) result }
    {
        self.reached_before(node).count()
    }

    // Whether a message is received at the node that is not reached before it.
    fn is_open(self, held: TermSet, node: Node) -> bool
        requires ready { IsReady self × Low (node_of node) }
        requires withheld { IsWithheld (scene self).skeleton held }
        ensures { OpenIs (meant (scene self.entry)) (node_of node) result }
    {
        let Some(Event::Reception(heard)) = self.skeleton.event_at(node) else {
            return false;
        };
        !self.reached(held, node).has(heard)
    }

    // The position of the first open reception of the strand. A loop, and not `find`: the chain's proof of what each call of
    // `is_open` asks did not close.
    fn open_on(self, held: TermSet, strand: Strand) -> Option<u8>
        requires ready { IsReady self × IsWithheld (scene self).skeleton held }
        requires strand_bound { strand.0 < byte self.skeleton.table.now (self.skeleton.block + strand_count) }
        ensures { OpenOn (meant (scene self.entry)) strand.0 result }
    {
        for position in 0..self.skeleton.height(strand) {
            let node = Node { strand, position };
            if self.is_open(held, node) {
                return Some(position);
            }
        }
        None
    }

    // The first open reception, by strand, then position.
    pub fn first_open(self) -> Option<Node>
        requires { IsReady self }
        ensures { FirstOpenIs (meant (scene self.entry)) result }
    {
        let held = withheld(self.skeleton);
        for s in 0..self.skeleton.strand_count() {
            let strand = Strand(s);
            if let Some(position) = self.open_on(held, strand) {
                let node = Node { strand, position };
                return Some(node);
            }
        }
        None // on no strand
    }
}
