// A skeleton of a table, with what is known of it: that it was read, and that what it names is there.
ghost use Rattle.std.specs.Prelude.{◌≡◌, ◌+◌, ◌*◌, ◌<◌, ◌≤◌, eqb};
ghost use Rattle.terms.specs.Set.{IsSetOf};
ghost use Rattle.model.specs.Says.{node_of};
ghost use Rattle.tables.specs.Layout.{strand_count, order_count, heights, orders};
ghost use Rattle.tables.specs.Tables.{byte, node_at, skeleton_at};
ghost use Rattle.tables.specs.Nodes.{direction_at, message_at, There};
ghost use Rattle.tables.specs.Drawn.{Drawn};
ghost use Rattle.tables.specs.Props.{Drawn-prop};

use crate::blocks;
use crate::blocks::{Assumed, Event};
use terms::{Node, Strand, Term, TermSet};

// The skeleton whose block of the table begins at `block`.
#[derive(Clone, Copy)]
pub struct Drawing<'a> {
    pub table: &'a [u8],
    pub block: usize,
    pub ghost drawn: { Drawn table.now block } by { Drawn-prop table.now block },
}

impl Drawing<'_> {
    ghost use Rattle.tables.specs.Nodes.{EventIs};
    ghost use Rattle.tables.specs.Assumed.{assumed, count_place};

    // How many strands there are.
    pub fn strand_count(self) -> u8
        ensures { (result ≡ byte self.entry.table.now (self.entry.block + strand_count)) × (result ≤ 6) }
    {
        blocks::strands_in(self.table, self.block)
    }

    // How many events a strand has.
    pub fn height(self, strand: Strand) -> u8
        requires { strand.0 < byte self.table.now (self.block + strand_count) }
        ensures { (result ≡ byte self.entry.table.now (self.entry.block + heights + strand.0)) × (result ≤ 16) }
    {
        blocks::height_at(self.table, self.block, strand)
    }

    // The message of an event.
    pub fn message(self, node: Node) -> Term
        requires { There self.table.now self.block (node_of node) }
        ensures { result.0 ≡ message_at self.entry.table.now self.entry.block (node_of node) }
    {
        blocks::message_at(self.table, self.block, node)
    }

    // Whether an event is a send.
    pub fn is_send(self, node: Node) -> bool
        requires { There self.table.now self.block (node_of node) }
        ensures { result ≡ eqb (direction_at self.entry.table.now self.entry.block (node_of node)) 0 }
    {
        blocks::is_send_at(self.table, self.block, node)
    }

    // What stands at a node, if there is such a node.
    pub fn event_at(self, node: Node) -> Option<Event>
        ensures { EventIs (skeleton_at self.entry.table.now self.entry.block) (node_of node) result }
    {
        blocks::event_at(self.table, self.block, node)
    }

    // How many OR pairs there are.
    pub fn order_count(self) -> u8
        ensures { (result ≡ byte self.entry.table.now (self.entry.block + order_count)) × (result ≤ 64) }
    {
        blocks::orders_in(self.table, self.block)
    }

    // The OR pair i: the send and the reception.
    pub fn pair(self, i: u8) -> (Node, Node)
        requires { i < byte self.table.now (self.block + order_count) }
        ensures send { node_of result.0 ≡ node_at self.entry.table.now (self.entry.block + orders + 4 * i) }
        ensures reception { node_of result.1 ≡ node_at self.entry.table.now (self.entry.block + orders + 4 * i + 2) }
    {
        blocks::pair_at(self.table, self.block, i)
    }

    // How many NO or UO records there are.
    pub fn atom_count(self, which: Assumed) -> u8
        ensures { result ≡ byte self.entry.table.now (self.entry.block + count_place which) }
    {
        blocks::atoms_in(self.table, self.block, which)
    }

    // The set of their atoms.
    pub fn atoms(self, which: Assumed) -> TermSet
        ensures { IsSetOf (assumed which (skeleton_at self.entry.table.now self.entry.block)) result }
    {
        blocks::atoms(self.table, self.block, which)
    }
}
