// Map rule 3: the demands of the source's messages, then one pass over the terms from the last down to the first. Images are
// bytes, the number of a term's image or 255 for none: what specs/Pass and specs/Matches say is about such bytes, and so is the
// answer to the question about a map.
#![tactic(auto)]

ghost use Rattle.std.specs.Prelude.{◌≡◌, ◌+◌, ◌<◌, length};
ghost use Rattle.model.specs.Says.{node_of};
ghost use Rattle.tables.specs.Layout.{strand_count};
ghost use Rattle.tables.specs.Tables.{byte, rows_in, skeleton_at};
ghost use Rattle.tables.specs.Kinds.{code};
ghost use Rattle.keys.specs.Inverted.{Inverted};
ghost use Rattle.matching.specs.Matches.{Laid, Matches, Reaches};
ghost use Rattle.matching.specs.Pass.{demands, may_be, strand_wishes, wishes, Ends};
ghost use Rattle.matching.specs.Pass;

pub mod accepted;
pub mod sides;

use accepted::Accepted;
use keys::Inverses;
use sides::Sides;
use tables::kinds::Kind;
use terms::{Node, Strand, Term};

// The byte of a term that has no image.
pub const NONE: u8 = 255;

// The image of q has to be t: no where it has another.
fn demand(images: &mut [u8; 200], q: Term, t: Term) -> bool
    requires { q.0 < 200 }
    ensures { Ends (Pass.demand (q.0, t.0) images.old) images.new result }
{
    let i = usize::from(q.0);
    let old = images[i];
    if old == NONE {
        images[i] = t.0;
        return true;
    }
    old == t.0
}

// A term of kind h may be the image of a variable of kind k; for any other kind k, h is k.
fn may_be(k: Kind, h: Kind) -> bool
    ensures { result ≡ may_be (code k) (code h) }
{
    match k {
        Kind::Mesg => true,
        Kind::Skey => h.is(Kind::Skey) | h.is(Kind::LongTerm),
        Kind::Akey => h.is(Kind::Akey) | h.is(Kind::Public) | h.is(Kind::Inverse),
        _ => h.is(k),
    }
}

// The messages of the source's strand s have to go to those of the target's strand u.
fn ask_strand(sides: Sides, s: Strand, u: Strand, images: &mut [u8; 200]) -> bool
    requires { Reaches sides.table.now sides.source sides.target s.0 u.0 }
    ensures { Ends (demands (strand_wishes sides.entry.table.now sides.entry.source sides.entry.target s.0 u.0) images.old)
        images.new result }
{
    let from = sides.from();
    let to = sides.to();
    for position in 0..from.height(s) {
        let q = from.message(Node {
            strand: s,
            position,
        });
        let t = to.message(Node {
            strand: u,
            position,
        });
        if !demand(images, q, t) {
            return false;
        }
    }
    true
}

// Each message of the source has to go to that at the mapped node. A map has at most six numbers, so their places are bytes.
fn ask_all(sides: Sides, map: &[u8], images: &mut [u8; 200]) -> bool
    requires { Laid sides.table.now sides.source sides.target map.now }
    ensures { Ends (demands (wishes sides.entry.table.now sides.entry.source sides.entry.target map.now) images.old)
        images.new result }
{
    for (s, u) in map.iter().enumerate() {
        if !ask_strand(sides, Strand(s as u8), Strand(*u), images) {
            return false;
        }
    }
    true
}

// Map rule 3: whether some sort-keeping substitution takes each source message to the message at the mapped node; and the
// image of each term that occurs in a source event.
pub fn matches(sides: Sides, inverses: &Inverses, map: &[u8], images: &mut [u8; 200]) -> bool
    requires inverted { Inverted (rows_in sides.table.now) inverses.now.of }
    requires laid { Laid sides.table.now sides.source sides.target map.now }
    ensures { Matches (rows_in sides.entry.table.now) (skeleton_at sides.entry.table.now sides.entry.source)
        (skeleton_at sides.entry.table.now sides.entry.target) map.now images.new result
        × (length images.new ≡ 200) }
{
    images.fill(NONE);
    let sheet = Accepted {
        table: sides.table,
        inverses,
    };
    ask_all(sides, map, images) && sheet.descend(images)
}
