// A sheet that is accepted.
ghost use Rattle.std.specs.Prelude.{◌≡◌, ℕ, ◌<◌};
ghost use Rattle.tables.specs.Layout.{skeleton_count, block};
ghost use Rattle.tables.specs.Tables.{byte};
ghost use Rattle.accept.specs.Held.{Stored};
ghost use Rattle.accept.specs.Skeletons.{SkeletonAs};

use keys::Inverses;
use tables::TABLE;
use tables::blocks::{block_of, has_skeleton};
use tables::drawing::Drawing;

// Where a sheet is read into: room for the table that it lies in, and for the number of each term's inverse. Who asks a question owns
// it and lends it, so that neither is copied on the way.
#[derive(Drop)]
pub struct Room {
    pub table: [u8; TABLE],
    pub inverses: Inverses,
}

impl Room {
    // Nothing read yet.
    pub const EMPTY: Room = Room {
        table: [0; TABLE],
        inverses: Inverses { of: [0; 200] },
    };
}

// The table that it lies in, and the number of each term's inverse. Two proofs of what is stored may differ, and a type keeps only
// that there is one. The proof itself follows from it (proofs/Known.antt).
#[derive(Clone, Copy)]
pub struct Sheet<'a> {
    pub table: &'a [u8],
    pub inverses: &'a Inverses,
    ghost stored: { ∥ Stored table.now inverses.now.of ∥₁ },
}

impl<'a> Sheet<'a> {
    // The skeleton k, which is one of the sheet's.
    pub fn drawing(self, k: u8) -> Drawing<'a>
        requires { k < byte self.table.now skeleton_count }
        ensures { (result.table.now ≡ self.entry.table.now) × (result.block ≡ block k) }
    {
        Drawing {
            table: self.table,
            block: block_of(k),
        }
    }

    // The skeleton k, if the sheet has it.
    pub fn skeleton(self, k: u8) -> Option<Drawing<'a>>
        ensures { SkeletonAs self.entry.table.now k result }
    {
        if has_skeleton(self.table, k) {
            return Some(self.drawing(k));
        }
        None
    }
}
