// The skeletons of a table: a block of bytes for each of them.
ghost use Rattle.std.specs.Prelude.{◌≡◌, true, ◌↔◌, ◌+◌, ◌*◌, ◌<◌, ◌≤◌, eqb, length};
ghost use Rattle.terms.specs.Set.{IsSetOf};
ghost use Rattle.model.specs.Lists.{upto};
ghost use Rattle.model.specs.Says.{node_of};
ghost use Rattle.model.specs.Reading.{event_at, event_in, with_strand, with_order};
ghost use Rattle.tables.specs.Layout.{skeleton_count, block, strand_count, order_count, heights, orders, block_size, table_size};
ghost use Rattle.tables.specs.Tables.{byte, node_at, atoms_at, skeleton_at, skeleton_in, Block, Filled};
ghost use Rattle.tables.specs.Nodes.{direction_at, message_at, Low, EventIs};
ghost use Rattle.tables.specs.Assumed.{assumed, count_place, atoms_place, with_atom};
ghost use Rattle.tables.specs.Stores.{event_said, EventsPut, HasRoom, Redrawn, Begun, Emptied};

use crate::{
    BLOCK_SIZE, BLOCKS, DIRECTIONS, HEIGHTS, MESSAGES, NON_COUNT, NONS, ORDER_COUNT, ORDERS, ROOM,
    SKELETON_COUNT, STRAND_COUNT, TERM_COUNT, UNIQ_COUNT, UNIQS,
};
use terms::{Node, Strand, Term, TermSet};

// The two bytes that a sheet has for a direction.
pub const SEND: u8 = 0;

pub const RECEIVE: u8 = 1;

// What a strand does at a node.
#[derive(Clone, Copy, PartialEq, Eq)]
pub enum Event {
    Send(Term),
    Reception(Term),
}

// What a skeleton assumes of an atom: that it never originates, or that it does so once.
#[derive(Clone, Copy, PartialEq, Eq)]
pub enum Assumed {
    Non,
    Uniq,
}

impl Assumed {
    // Where in a block the count of its atoms stands, and where these begin.
    fn count_place(self) -> usize
        ensures { result ≡ count_place self }
    {
        match self {
            Assumed::Non => NON_COUNT,
            Assumed::Uniq => UNIQ_COUNT,
        }
    }

    fn atoms_place(self) -> usize
        ensures { result ≡ atoms_place self }
    {
        match self {
            Assumed::Non => NONS,
            Assumed::Uniq => UNIQS,
        }
    }
}

// How many skeletons there are.
pub fn skeletons_in(table: &[u8]) -> u8
    requires { length table.now ≡ table_size }
    ensures { result ≡ byte table.now skeleton_count }
{
    table[SKELETON_COUNT]
}

// Whether there is a skeleton k.
pub fn has_skeleton(table: &[u8], k: u8) -> bool
    requires { Filled table.now }
    ensures { (result ≡ true) ↔ (k < byte table.now skeleton_count) }
{
    k < skeletons_in(table)
}

// Where the block of the skeleton k begins.
pub fn block_of(k: u8) -> usize
    ensures { result ≡ block k }
{
    BLOCKS + BLOCK_SIZE * usize::from(k)
}

// How many strands and OR records the skeleton has whose block begins at `block`; and how many NO or UO records. They ask for the
// room of a block alone, since a sheet is read before all that a `Drawing` knows is there. The first two differ in a place only:
// one function over both would be named by that place, and no plainer.
pub fn strands_in(table: &[u8], block: usize) -> u8
    requires { (length table.now ≡ table_size) × (block + block_size ≤ table_size) }
    ensures { result ≡ byte table.now (block + strand_count) }
{
    table[block + STRAND_COUNT]
}

pub fn orders_in(table: &[u8], block: usize) -> u8
    requires { (length table.now ≡ table_size) × (block + block_size ≤ table_size) }
    ensures { result ≡ byte table.now (block + order_count) }
{
    table[block + ORDER_COUNT]
}

pub fn atoms_in(table: &[u8], block: usize, which: Assumed) -> u8
    requires { (length table.now ≡ table_size) × (block + block_size ≤ table_size) }
    ensures { result ≡ byte table.now (block + count_place which) }
{
    table[block + which.count_place()]
}

// The set of the `count` atoms whose bytes begin at `at`.
pub fn atoms_from(table: &[u8], at: usize, count: u8) -> TermSet
    requires { at + count ≤ length table.now }
    ensures { IsSetOf (atoms_at count table.now at) result }
{
    let mut set = TermSet::EMPTY;
    for atom in &table[at..at + usize::from(count)] {
        set.insert(Term(*atom));
    }
    set
}

// The set of the atoms of these.
pub fn atoms(table: &[u8], block: usize, which: Assumed) -> TermSet
    requires { (length table.now ≡ table_size) × Block table.now block × (block + block_size ≤ table_size) }
    ensures { IsSetOf (assumed which (skeleton_at table.now block)) result }
{
    atoms_from(
        table,
        block + which.atoms_place(),
        atoms_in(table, block, which),
    )
}

// How many events a strand has.
pub fn height_at(table: &[u8], block: usize, strand: Strand) -> u8
    requires { (length table.now ≡ table_size) × (block + block_size ≤ table_size) × (strand.0 < 6) }
    ensures { result ≡ byte table.now (block + heights + strand.0) }
{
    table[block + HEIGHTS + usize::from(strand.0)]
}

// The message of a node, and whether it is a send.
#[tactic(auto, unfolding(model::specs::Says::node_of))]
pub fn message_at(table: &[u8], block: usize, node: Node) -> Term
    requires { (length table.now ≡ table_size) × (block + block_size ≤ table_size) × Low (node_of node) }
    ensures { result.0 ≡ message_at table.now block (node_of node) }
{
    Term(table[block + MESSAGES + ROOM * usize::from(node.strand.0) + usize::from(node.position)])
}

#[tactic(auto, unfolding(model::specs::Says::node_of))]
pub fn is_send_at(table: &[u8], block: usize, node: Node) -> bool
    requires { (length table.now ≡ table_size) × (block + block_size ≤ table_size) × Low (node_of node) }
    ensures { result ≡ eqb (direction_at table.now block (node_of node)) 0 }
{
    table[block + DIRECTIONS + ROOM * usize::from(node.strand.0) + usize::from(node.position)]
        == SEND
}

// What stands at a node: nothing beyond the strands, and nothing beyond a strand's height.
pub fn event_at(table: &[u8], block: usize, node: Node) -> Option<Event>
    requires { (length table.now ≡ table_size) × Block table.now block × (block + block_size ≤ table_size) }
    ensures said { event_said result ≡ event_at (skeleton_at table.now block) (node_of node) }
    ensures is { EventIs (skeleton_at table.now block) (node_of node) result }
{
    if strands_in(table, block) <= node.strand.0 {
        return None;
    }
    if height_at(table, block, node.strand) <= node.position {
        return None;
    }
    let message = message_at(table, block, node);
    if is_send_at(table, block, node) {
        return Some(Event::Send(message));
    }
    Some(Event::Reception(message))
}

// The node whose strand and position are the bytes from `at` on.
#[tactic(auto, unfolding(model::specs::Says::node_of))]
fn node_at(table: &[u8], at: usize) -> Node
    requires { at + 1 < length table.now }
    ensures { node_of result ≡ node_at table.now at }
{
    Node {
        strand: Strand(table[at]),
        position: table[at + 1],
    }
}

// The OR pair i: a send and a reception.
pub fn pair_at(table: &[u8], block: usize, i: u8) -> (Node, Node)
    requires { (length table.now ≡ table_size) × (block + block_size ≤ table_size) × (i < 64) }
    ensures send { node_of result.0 ≡ node_at table.now (block + orders + 4 * i) }
    ensures reception { node_of result.1 ≡ node_at table.now (block + orders + 4 * i + 2) }
{
    let at = block + ORDERS + 4 * usize::from(i);
    (node_at(table, at), node_at(table, at + 2))
}

// No terms and no skeletons.
pub fn clear(table: &mut [u8])
    requires { length table.old ≡ table_size }
    ensures { Emptied table.new }
{
    table[TERM_COUNT] = 0;
    table[SKELETON_COUNT] = 0;
}

// One skeleton more, with nothing in it yet.
pub fn put_skeleton(table: &mut [u8])
    requires { Filled table.old × (byte table.old skeleton_count < 2) }
    ensures { Begun table.old table.new }
{
    let count = table[SKELETON_COUNT];
    let b = block_of(count);
    table[b + STRAND_COUNT] = 0;
    table[b + ORDER_COUNT] = 0;
    table[b + NON_COUNT] = 0;
    table[b + UNIQ_COUNT] = 0;
    table[SKELETON_COUNT] = count + 1;
}

// The events of the ST record `rest`: their directions from d on, their messages from m on. The index stands in the loop, since two
// columns are written for each event.
fn put_events(table: &mut [u8], d: usize, m: usize, height: usize, rest: &[u8])
    requires { (d + 16 ≤ m) × (m + 16 ≤ length table.old) × (height ≤ 16) × (3 + 2 * height ≤ length rest.now) }
    ensures { EventsPut d m height rest.now table.old table.new }
{
    for i in 0..height {
        table[d + i] = rest[3 + 2 * i];
        table[m + i] = rest[4 + 2 * i];
    }
}

// One strand more in the skeleton k: the ST record `rest`.
pub fn put_strand(table: &mut [u8], k: u8, height: u8, rest: &[u8])
    requires { HasRoom k strand_count 6 table.old × (height ≤ 16) × (3 + 2 * height ≤ length rest.now) }
    ensures { Redrawn k (with_strand (skeleton_in table.old k) (upto height (event_in rest.now)))
        table.old table.new }
{
    let b = block_of(k);
    let count = table[b + STRAND_COUNT];
    let n = usize::from(count);
    let d = b + DIRECTIONS + ROOM * n;
    let m = b + MESSAGES + ROOM * n;
    put_events(table, d, m, usize::from(height), rest);
    table[b + HEIGHTS + n] = height;
    table[b + STRAND_COUNT] = count + 1;
}

// One OR record more in the skeleton k.
pub fn put_order(table: &mut [u8], k: u8, send: Node, reception: Node)
    requires { HasRoom k order_count 64 table.old }
    ensures { Redrawn k (with_order (skeleton_in table.old k) (node_of send) (node_of reception))
        table.old table.new }
{
    let b = block_of(k);
    let count = table[b + ORDER_COUNT];
    let at = b + ORDERS + 4 * usize::from(count);
    table[at] = send.strand.0;
    table[at + 1] = send.position;
    table[at + 2] = reception.strand.0;
    table[at + 3] = reception.position;
    table[b + ORDER_COUNT] = count + 1;
}

// One NO or UO record more in the skeleton k.
pub fn put_atom(table: &mut [u8], k: u8, which: Assumed, atom: Term)
    requires { HasRoom k (count_place which) 32 table.old }
    ensures { Redrawn k (with_atom which (skeleton_in table.old k) atom.0)
        table.old table.new }
{
    let b = block_of(k);
    let counted = b + which.count_place();
    let count = table[counted];
    table[b + which.atoms_place() + usize::from(count)] = atom.0;
    table[counted] = count + 1;
}
