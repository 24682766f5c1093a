// The tests of map rules 1, 2, 4, 5 and 6.
#![tactic(auto)]

ghost use Rattle.std.specs.Prelude.{◌≡◌, true, ◌↔◌, ◌+◌, ◌<◌, length, get_or};
ghost use Rattle.terms.specs.declared.Node as Numbered;
ghost use Rattle.terms.specs.Set.{mem};
ghost use Rattle.model.specs.Says.{node_of};
ghost use Rattle.model.specs.Maps.{move};
ghost use Rattle.tables.specs.Layout.{strand_count};
ghost use Rattle.tables.specs.Tables.{byte, rows_in, skeleton_at};
ghost use Rattle.order.specs.Precedence.{Shows};
ghost use Rattle.matching.specs.Matches.{Laid};
ghost use Rattle.maps.specs.Rules.{Tells1, Tells2, Tells4, KeptTo1, KeptTo2};
ghost use Rattle.maps.specs.Strands.{StrandKept};
ghost use Rattle.maps.specs.Atoms.{Goes, Judges5, Judges6, Starts};

pub mod images;

use images::Images;
use matching::sides::Sides;
use order::Precedence;
use terms::{Node, Strand, Term, TermSet};

// The UO atoms of a skeleton, and where each of them originates.
#[derive(Clone, Copy)]
pub struct Uniques<'a> {
    pub atoms: TermSet,
    pub origins: &'a [Option<Node>; 200],
}

// Rule 1: one byte per source strand, each a target strand.
pub fn rule_one(sides: Sides, map: &[u8]) -> bool
    ensures { Tells1 (rows_in sides.entry.table.now) (skeleton_at sides.entry.table.now sides.entry.source)
        (skeleton_at sides.entry.table.now sides.entry.target) map.now result }
{
    let sources = sides.from().strand_count();
    let targets = sides.to().strand_count();
    if map.len() != usize::from(sources) {
        return false;
    }
    map.iter().all(|u| *u < targets)
}

// Rule 2 for the source strand `s`, which goes to the target strand `u`. A loop, and not `all`: the chain's proof that each call of
// `is_send` asks of a node that is there did not close.
fn strand_kept(sides: Sides, s: Strand, u: Strand) -> bool
    requires { (s.0 < byte sides.table.now (sides.source + strand_count))
        × (u.0 < byte sides.table.now (sides.target + strand_count)) }
    ensures { (result ≡ true) ↔ StrandKept sides.entry.table.now sides.entry.source sides.entry.target s.0 u.0 }
{
    let from = sides.from();
    let to = sides.to();
    let height = from.height(s);
    if to.height(u) < height {
        return false;
    }
    for position in 0..height {
        let here = from.is_send(Node {
            strand: s,
            position,
        });
        let there = to.is_send(Node {
            strand: u,
            position,
        });
        if here != there {
            return false;
        }
    }
    true
}

// Rule 2: target height at least the source's, equal directions at equal positions. A map has at most six numbers, so their places
// are bytes. A loop, and not `all`: the proof of what the chain asks of each call of `strand_kept` did not close.
pub fn rule_two(sides: Sides, map: &[u8]) -> bool
    requires { KeptTo1 (rows_in sides.table.now) (skeleton_at sides.table.now sides.source)
        (skeleton_at sides.table.now sides.target) map.now }
    ensures tells2 { Tells2 (rows_in sides.entry.table.now) (skeleton_at sides.entry.table.now sides.entry.source)
        (skeleton_at sides.entry.table.now sides.entry.target) map.now result }
    ensures laid { result ≡ true → Laid sides.entry.table.now sides.entry.source sides.entry.target map.now }
{
    for (s, u) in map.iter().enumerate() {
        if !strand_kept(sides, Strand(s as u8), Strand(*u)) {
            return false;
        }
    }
    true
}

// Where a node goes.
fn moved(map: &[u8], node: Node) -> Node
    requires { node.strand.0 < length map.now }
    ensures { node_of result ≡ move (λ s. get_or map.now s 0) (node_of node) }
{
    Node {
        strand: Strand(map[usize::from(node.strand.0)]),
        position: node.position,
    }
}

// Rule 4: precedence is kept. Only the OR pairs are looked at: succession is kept by rule 2, and the target's order is transitive.
// A loop, and not `all`: the proof of what the chain asks of each call of `pair` did not close.
pub fn rule_four(sides: Sides, map: &[u8], before: &Precedence) -> bool
    requires kept_to2 { KeptTo2 (rows_in sides.table.now) (skeleton_at sides.table.now sides.source)
        (skeleton_at sides.table.now sides.target) map.now }
    requires shows { Shows (skeleton_at sides.table.now sides.target) before.now.words }
    ensures { Tells4 (rows_in sides.entry.table.now) (skeleton_at sides.entry.table.now sides.entry.source)
        (skeleton_at sides.entry.table.now sides.entry.target) map.now result }
{
    let from = sides.from();
    for i in 0..from.order_count() {
        let (first, second) = from.pair(i);
        if !before.is_before(moved(map, first), moved(map, second)) {
            return false;
        }
    }
    true
}

// Rule 5: images of NO atoms are NO atoms. `from` and `to` are the sets of the source's and the target's.
pub fn rule_five(images: Images, from: TermSet, to: TermSet) -> bool
    ensures { Judges5 (rows_in images.entry.sheet.table.now) images.entry.bytes.now from to result }
{
    images.all(from, |_, image| to.has(image))
}

// Whether a node goes to another; one that is missing does not, nor does any go to it.
fn goes(map: &[u8], start: Option<Node>, end: Option<Node>) -> bool
    requires { (n : Numbered.Node) → start ≡ Some n → n.strand.0 < length map.now }
    ensures { (result ≡ true) ↔ Goes map.now start end }
{
    match (start, end) {
        (Some(n), Some(m)) => moved(map, n) == m,
        _ => false,
    }
}

// Rule 6 for an atom of the source and its image.
fn origin_goes(map: &[u8], from: Uniques, to: Uniques, a: Term, image: Term) -> bool
    requires within { (a.0 < 200) × (image.0 < 200) }
    requires starts { (n : Numbered.Node) → get_or from.origins.now a.0 None ≡ Some n → n.strand.0 < length map.now }
    ensures { (result ≡ true) ↔ ((mem to.entry.atoms image.0 ≡ true)
        × Goes map.now (get_or from.entry.origins.now a.0 None) (get_or to.entry.origins.now image.0 None)) }
{
    to.atoms.has(image)
        && goes(
            map,
            from.origins[usize::from(a.0)],
            to.origins[usize::from(image.0)],
        )
}

// Rule 6: images of UO atoms are UO atoms, with origin mapped to origin.
pub fn rule_six(images: Images, map: &[u8], from: Uniques, to: Uniques) -> bool
    requires { Starts from.atoms map.now from.origins.now }
    ensures { Judges6 (rows_in images.entry.sheet.table.now) images.entry.bytes.now map.now
        from.entry.atoms to.entry.atoms from.entry.origins.now to.entry.origins.now result }
{
    images.all(from.atoms, |a, image| origin_goes(map, from, to, a, image))
}
