// Where slots stand. Apart, since the definitions that the contracts cite name it.

ghost use Rattle.std.specs.Prelude.{◌<◌};
ghost use Rattle.format.specs.Layout.{slots_each};

use geometry::SectorNo;

// Where a slot stands: its directory sector, and its index there.
#[derive(Clone, Copy)]
pub struct SlotNo {
    pub sector: SectorNo,
    pub index: usize,
    pub ghost in_sector: { index < slots_each },
}
