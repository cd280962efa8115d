// Rename: its refusals in document 01's order, then the nine bytes of the new name and the list of that write.
#![tactic(auto)]

ghost use Rattle.std.specs.Prelude.{◌≡◌, true, ◌<◌};
ghost use Rattle.format.specs.Names.{legal_stored};
ghost use Rattle.format.specs.Calls.{after_rename, rename_on};
ghost use Rattle.geometry.specs.Meaning.{kind_of, geo, sectors_of, Image};
ghost use Rattle.slots.specs.Meaning.{slot_of};
ghost use Rattle.answers.specs.Meaning.{filled, Lists, change_answer};
ghost use Rattle.renaming.specs.Meaning.{rename_to};

use geometry::{Geometry, Stated};
use names::Name;
use refusals::Refusal;
use slots::SlotNo;

// The refusals 6, 5 and 10, then the new name of the entry in a slot.
fn rename_entry(
    image: &mut [u8],
    g: Geometry,
    slot: SlotNo,
    name: Name,
    list: &mut [u8],
) -> Result<u32, Refusal>
    requires { Image g image.old × (slot.sector.0 < g.sectors) × (legal_stored name.bytes ≡ true) }
    ensures { let d = sectors_of g image.old in
        Lists g image.old image.new list.old list.new result
        (rename_to (geo g) d name.bytes (slot_of d slot)) }
{
    if lookup::is_protected(image, g, slot) {
        return Err(Refusal::Protected);
    }
    if directory::find(image, g, name).is_some() {
        return Err(Refusal::Taken);
    }
    let nine = name.bytes;
    entry_write::put_listed(image, g, slot, slots::NAME, &nine, list)
}

fn rename_on(
    image: &mut [u8],
    g: Geometry,
    old: &[u8],
    new: &[u8],
    list: &mut [u8],
) -> Result<u32, Refusal>
    requires { Image g image.old }
    ensures { Lists g image.old image.new list.old list.new result
        (rename_on (geo g) (sectors_of g image.old) old.now new.now) }
{
    let name = names::file_name(new)?;
    let slot = lookup::entry_on(image, g, old)?;
    rename_entry(image, g, slot, name, list)
}

pub fn rename(
    image: &mut [u8],
    stated: Stated,
    old: &[u8],
    new: &[u8],
    list: &mut [u8],
) -> Result<u32, Refusal>
    ensures { change_answer (filled result) image.new list.new ≡ after_rename (kind_of stated)
        image.old old.now new.now list.old }
{
    let g = geometry::geometry_of(stated, image.len())?;
    rename_on(image, g, old, new, list)
}
