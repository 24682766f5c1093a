// The two skeletons that a question about maps is about.
ghost use Rattle.std.specs.Prelude.{◌≡◌};
ghost use Rattle.tables.specs.Drawn.{Drawn};
ghost use Rattle.matching.specs.Props.{Both-prop};

use tables::drawing::Drawing;

// The source and the target, by where their blocks begin in one table.
#[derive(Clone, Copy)]
pub struct Sides<'a> {
    pub table: &'a [u8],
    pub source: usize,
    pub target: usize,
    pub ghost drawn: { Drawn table.now source × Drawn table.now target } by { Both-prop table.now source target },
}

impl<'a> Sides<'a> {
    pub fn from(self) -> Drawing<'a>
        ensures { (result.table.now ≡ self.entry.table.now) × (result.block ≡ self.entry.source) }
    {
        Drawing {
            table: self.table,
            block: self.source,
        }
    }

    pub fn to(self) -> Drawing<'a>
        ensures { (result.table.now ≡ self.entry.table.now) × (result.block ≡ self.entry.target) }
    {
        Drawing {
            table: self.table,
            block: self.target,
        }
    }
}
