// What the judgement of a strand map goes by, and what does not hang on the map: prepared once for all maps of two skeletons.
ghost use Rattle.std.specs.Prelude.{◌≡◌, ◌<◌};
ghost use Rattle.terms.specs.Set.{mem, IsSetOf};
ghost use Rattle.tables.specs.Layout.{term_count};
ghost use Rattle.tables.specs.Tables.{byte, rows_in, skeleton_at};
ghost use Rattle.maps.specs.Rules.{IsOrigins};
ghost use Rattle.mapping.specs.Judged.{IsRight, Asked, AtomsAre, IsPrepared, SidesAs};
ghost use Rattle.mapping.specs.Origins.{StartsAt};

use accept::sheet::Sheet;
use carry::carriers;
use keys::Inverses;
use maps::Uniques;
use matching::sides::Sides;
use order::{Precedence, WORDS};
use origin::{Origins, find_origins};
use tables::blocks::Assumed;
use tables::drawing::Drawing;
use tables::rows::terms_in;
use terms::{Node, Term, TermSet};

// The NO atoms of a skeleton, its UO atoms, and where each of these originates. The set of the UO atoms stays beside that, since rule 6
// asks whether an atom is a member whether or not it originates.
#[derive(Clone, Copy)]
pub struct Atoms {
    pub nons: TermSet,
    pub uniqs: TermSet,
    pub origins: [Option<Node>; 200],
}

// Room for what is prepared. Who asks about maps owns it and lends it, so that none of it is copied on the way.
#[derive(Drop)]
pub struct Room {
    pub before: Precedence,
    pub from: Atoms,
    pub to: Atoms,
}

impl Room {
    // Nothing prepared yet.
    pub const EMPTY: Room = Room {
        before: Precedence { words: [0; WORDS] },
        from: Atoms::NONE,
        to: Atoms::NONE,
    };
}

// The two skeletons, the inverses of the sheet's keys, the precedence of the target, and the atoms of both. What is known of them
// names origins, so two proofs of it may differ, which a type's own fact may not: the functions that take this require it.
#[derive(Clone, Copy)]
pub struct Prepared<'a> {
    pub sides: Sides<'a>,
    pub inverses: &'a Inverses,
    pub before: &'a Precedence,
    pub from: &'a Atoms,
    pub to: &'a Atoms,
}

// Where `a` originates, if it does so once.
fn origin_of(skeleton: Drawing, a: Term) -> Option<Node>
    requires { a.0 < byte skeleton.table.now term_count }
    ensures { StartsAt (rows_in skeleton.entry.table.now) (skeleton_at skeleton.entry.table.now skeleton.entry.block) a.0 result }
{
    match find_origins(skeleton, &carriers(skeleton.table, a)) {
        Origins::At(node) => Some(node),
        Origins::Nowhere => None,
        Origins::Several => None,
    }
}

impl Atoms {
    // None yet.
    const NONE: Atoms = Atoms {
        nons: TermSet::EMPTY,
        uniqs: TermSet::EMPTY,
        origins: [None; 200],
    };

    // Works out where each UO atom originates. A term's number is its place, so the loop goes by it.
    fn find_origins(&mut self, skeleton: Drawing)
        requires right { IsRight (rows_in skeleton.table.now) (skeleton_at skeleton.table.now skeleton.block) }
        requires uniqs { IsSetOf (skeleton_at skeleton.table.now skeleton.block).uniq self.old.uniqs }
        ensures same { (self.new.nons ≡ self.old.nons) × (self.new.uniqs ≡ self.old.uniqs) }
        ensures origins { IsOrigins (rows_in skeleton.entry.table.now) (skeleton_at skeleton.entry.table.now skeleton.entry.block) self.new.origins }
    {
        for a in 0..terms_in(skeleton.table) {
            if self.uniqs.has(Term(a)) {
                self.origins[usize::from(a)] = origin_of(skeleton, Term(a));
            }
        }
    }

    // Works out those of a skeleton.
    fn fill(&mut self, skeleton: Drawing)
        requires { IsRight (rows_in skeleton.table.now) (skeleton_at skeleton.table.now skeleton.block) }
        ensures { AtomsAre (rows_in skeleton.entry.table.now) (skeleton_at skeleton.entry.table.now skeleton.entry.block) self.new }
    {
        self.nons = skeleton.atoms(Assumed::Non);
        self.uniqs = skeleton.atoms(Assumed::Uniq);
        self.find_origins(skeleton);
    }

    // The UO atoms, and where each of them originates.
    pub fn uniques(&self) -> Uniques
        ensures { (result.atoms ≡ self.now.uniqs) × (result.origins.now ≡ self.now.origins) }
    {
        Uniques {
            atoms: self.uniqs,
            origins: &self.origins,
        }
    }
}

// The two skeletons of a sheet, if it has both.
pub fn sides_of(sheet: Sheet, source: u8, target: u8) -> Option<Sides>
    ensures { SidesAs sheet.entry.table.now source target result }
{
    let from = sheet.skeleton(source)?;
    let to = sheet.skeleton(target)?;
    Some(Sides {
        table: sheet.table,
        source: from.block,
        target: to.block,
    })
}

// Prepares the judgement of the maps from one skeleton into another.
pub fn prepare<'a>(sides: Sides<'a>, inverses: &'a Inverses, room: &'a mut Room) -> Prepared<'a>
    requires { Asked sides.table.now inverses.now.of sides.source sides.target }
    ensures prepared { IsPrepared result }
    ensures table { result.sides.table.now ≡ sides.entry.table.now }
    ensures source { result.sides.source ≡ sides.entry.source }
    ensures target { result.sides.target ≡ sides.entry.target }
{
    room.before.fill(sides.table, sides.target);
    room.from.fill(sides.from());
    room.to.fill(sides.to());
    Prepared {
        sides,
        inverses,
        before: &room.before,
        from: &room.from,
        to: &room.to,
    }
}
