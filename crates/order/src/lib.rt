// Precedence on the nodes of a skeleton: the transitive closure of strand succession and the OR pairs, as a matrix of bits.
// Node 16 * s + p is position p of strand s. The matrix has a row of two words for each node, and bit b of row a says whether a
// is before b.
#![tactic(auto)]

ghost use Rattle.std.specs.Prelude.{◌≡◌, true, ◌↔◌, ◌+◌, ◌*◌, ◌<◌, ◌≤◌, length};
ghost use Rattle.terms.specs.Set.{Added};
ghost use Rattle.model.specs.Says.{node_of};
ghost use Rattle.tables.specs.Layout.{strand_count, block_size, table_size};
ghost use Rattle.tables.specs.Tables.{byte, skeleton_at, Block, Filled};
ghost use Rattle.order.specs.Precedence.{on, code, Low, Shows, Ordered};
ghost use Rattle.order.specs.Matrix.{with_row, Empty, EmptyFrom, Adds, Through, Closed, Looped};
ghost use Rattle.order.specs.Steps.{Along, Among};

use tables::blocks::{height_at, orders_in, pair_at, strands_in};
use terms::{Node, Strand, has_bit, put_bit};

// How many words a matrix takes.
pub const WORDS: usize = 192;

// What comes before what. Who asks is lent the matrix, so that its 192 words are not copied on the way.
#[derive(Drop)]
pub struct Precedence {
    pub words: [u64; WORDS],
}

// The number of a node.
fn number(n: Node) -> usize
    requires { Low (node_of n) }
    ensures { (result ≡ code (node_of n)) × (result < 96) }
{
    16 * usize::from(n.strand.0) + usize::from(n.position)
}

// How many rows the strands take.
fn row_count(table: &[u8], block: usize) -> usize
    requires { (length table.now ≡ table_size) × Block table.now block × (block + block_size ≤ table_size) }
    ensures { (result ≡ 16 * byte table.now (block + strand_count)) × (result ≤ 96) }
{
    16 * usize::from(strands_in(table, block))
}

// A skeleton is lent as its table and block. A `Drawing` asks more of callers: good terms, where bounds are enough.
impl Precedence {
    // Works out what comes before what in the skeleton whose block of the table begins at `block`, whatever was there. The matrix is
    // lent: a value of it would be copied where it is handed back, and the archive for C would need `memcpy`.
    pub fn fill(&mut self, table: &[u8], block: usize)
        requires { Filled table.now × Block table.now block × (block + block_size ≤ table_size) × Ordered table.now block }
        ensures { Shows (skeleton_at table.now block) self.new.words }
    {
        self.words.fill(0);
        self.strands(table, block);
        self.orders(table, block);
        self.close(row_count(table, block));
    }

    // Whether the first node comes before the second.
    pub fn is_before(&self, first: Node, second: Node) -> bool
        requires { Low (node_of first) × Low (node_of second) }
        ensures { result ≡ on self.now.words (code (node_of first)) (code (node_of second)) }
    {
        self.has(number(first), number(second))
    }

    // Whether some node of the skeleton comes before itself. The rows beyond its strands are empty, and not looked at.
    pub fn cyclic(&self, table: &[u8], block: usize) -> bool
        requires { Filled table.now × Block table.now block × (block + block_size ≤ table_size) × Ordered table.now block
            × Shows (skeleton_at table.now block) self.now.words }
        ensures { (result ≡ true) ↔ Looped self.now.words }
    {
        (0..row_count(table, block)).any(|a| self.has(a, a))
    }

    // Whether b is in row a. The row is taken first: `through` asks of one b in each row, and then its word and its bit are found once.
    fn has(&self, a: usize, b: usize) -> bool
        requires { (a < 96) × (b < 96) }
        ensures { result ≡ on self.now.words a b }
    {
        has_bit(&self.words[2 * a..], b)
    }

    // Puts b into row a.
    fn put(&mut self, a: usize, b: usize)
        requires { (a < 96) × (b < 96) }
        ensures { Added (128 * a + b) true self.old.words self.new.words }
    {
        put_bit(&mut self.words, 128 * a + b);
    }

    // Takes row k into row a.
    fn join(&mut self, a: usize, k: usize)
        requires { (a < 96) × (k < 96) }
        ensures { self.new.words ≡ with_row self.old.words a k }
    {
        self.words[2 * a] |= self.words[2 * k];
        self.words[2 * a + 1] |= self.words[2 * k + 1];
    }

    // Whether nothing is in row a.
    fn empty(&self, a: usize) -> bool
        requires { a < 96 }
        ensures { result ≡ true → Empty self.now.words a }
    {
        (self.words[2 * a] == 0) & (self.words[2 * a + 1] == 0)
    }

    // Adds strand succession. One loop over the rows, as the matrix has them: over strands and positions they were two functions,
    // each with an invariant of its own. There are at most six strands, so a row's strand is a byte.
    fn strands(&mut self, table: &[u8], block: usize)
        requires { (length table.now ≡ table_size) × Block table.now block × (block + block_size ≤ table_size) }
        ensures { Adds (Along table.now block) self.old.words self.new.words }
    {
        for a in 0..row_count(table, block) {
            let height = usize::from(height_at(table, block, Strand((a / 16) as u8)));
            if a % 16 + 1 < height {
                self.put(a, a + 1);
            }
        }
    }

    // Adds the OR pairs.
    fn orders(&mut self, table: &[u8], block: usize)
        requires { (length table.now ≡ table_size) × Block table.now block × (block + block_size ≤ table_size)
            × Ordered table.now block }
        ensures { Adds (Among table.now block) self.old.words self.new.words }
    {
        for i in 0..orders_in(table, block) {
            let (send, reception) = pair_at(table, block, i);
            let first = number(send);
            let second = number(reception);
            self.put(first, second);
        }
    }

    // A number of rows after which all are empty, as they are from `top` on.
    fn used(&self, top: usize) -> usize
        requires { (top ≤ 96) × EmptyFrom top self.now.words }
        ensures { (result ≤ 96) × EmptyFrom result self.now.words }
    {
        (0..top)
            .rev()
            .find(|a| !self.empty(*a))
            .map_or(0, |a| a + 1)
    }

    // Adds the ways through node k, row by row. From n on the rows are empty.
    fn through(&mut self, n: usize, k: usize)
        requires { (n ≤ 96) × EmptyFrom n self.old.words × (k < n) }
        ensures { Through self.old.words k self.new.words }
    {
        if self.empty(k) {
            return;
        }
        for a in 0..n {
            if self.has(a, k) {
                self.join(a, k);
            }
        }
    }

    // Adds the ways through every node, one after the other. From `top` on the rows are empty.
    fn close(&mut self, top: usize)
        requires { (top ≤ 96) × EmptyFrom top self.old.words }
        ensures { Closed self.old.words self.new.words }
    {
        let n = self.used(top);
        for k in 0..n {
            self.through(n, k);
        }
    }
}
