// The entry that a command names: the refusals that read, delete, rename and protect share, and whether its file is protected.
#![tactic(auto)]

ghost use Rattle.std.specs.Prelude.{◌≡◌, true, ◌<◌};
ghost use Rattle.format.specs.Names.{legal_stored};
ghost use Rattle.format.specs.Layout.{attribute_of, is_protected};
ghost use Rattle.geometry.specs.Meaning.{geo, sectors_of, Image};
ghost use Rattle.slots.specs.Meaning.{slot_of};
ghost use Rattle.lookup.specs.Meaning.{named_on, Names, slot_on, entry_on, Judges};

use geometry::Geometry;
use names::Name;
use refusals::Refusal;
use slots::SlotNo;

// The refusals 2 and 3: the name as it is stored.
pub fn name_on(image: &[u8], g: Geometry, name: &[u8]) -> Result<Name, Refusal>
    requires { Image g image.now }
    ensures { Names result (named_on (geo g) (sectors_of g image.now) name.now) }
{
    let stored = names::file_name(name)?;
    if !fsck::is_sound(image, g) {
        return Err(Refusal::Unsound);
    }
    Ok(stored)
}

// The refusal 4: the slot of the name's entry.
#[tactic(auto, using(crate::specs::Laws::judged))]
pub fn slot_of(image: &[u8], g: Geometry, name: Name) -> Result<SlotNo, Refusal>
    requires { Image g image.now × (legal_stored name.bytes ≡ true) }
    ensures { Judges g image.now result (slot_on (geo g) (sectors_of g image.now) name.bytes) }
{
    directory::find(image, g, name).ok_or(Refusal::Absent)
}

// The refusals 2, 3 and 4: the slot of the entry that a command names.
pub fn entry_on(image: &[u8], g: Geometry, name: &[u8]) -> Result<SlotNo, Refusal>
    requires { Image g image.now }
    ensures { Judges g image.now result (entry_on (geo g) (sectors_of g image.now) name.now) }
{
    let stored = name_on(image, g, name)?;
    slot_of(image, g, stored)
}

pub fn is_protected(image: &[u8], g: Geometry, slot: SlotNo) -> bool
    requires { Image g image.now × (slot.sector.0 < g.sectors) }
    ensures { result ≡ is_protected (attribute_of (slot_of (sectors_of g image.now) slot)) }
{
    slots::is_protected(slots::attribute_of(image, g, slot))
}
