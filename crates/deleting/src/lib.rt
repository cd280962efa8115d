// Delete: its refusals in document 01's order, the last that its list of writes has no room; then its sector writes and their list.
#![tactic(auto)]

ghost use Rattle.std.specs.Prelude.{◌≡◌, ◌+◌, ◌<◌};
ghost use Rattle.format.specs.Refusals.{ok};
ghost use Rattle.format.specs.Effects.{delete_writes};
ghost use Rattle.format.specs.Calls.{after_delete, delete_on};
ghost use Rattle.geometry.specs.Meaning.{kind_of, geo, sectors_of, Image};
ghost use Rattle.slots.specs.Meaning.{slot_of};
ghost use Rattle.soundness.specs.WriteFacts.{Removable};
ghost use Rattle.answers.specs.Meaning.{filled, Lists, change_answer};
ghost use Rattle.deleting.specs.Meaning.{Removes};

use disc::Link;
use geometry::{Geometry, SectorNo, Stated};
use refusals::Refusal;
use slots::SlotNo;

// Writes the slot's sector, the file's last sector and the system sector, and gives the file's last sector.
fn remove(image: &mut [u8], g: Geometry, slot: SlotNo) -> SectorNo
    requires { let d = sectors_of g image.old in
        Image g image.old × (slot.sector.0 < g.sectors) × Removable (geo g) d (slot_of d slot) }
    ensures { Removes g image.old image.new (slot_of (sectors_of g image.old) slot) result.0 }
{
    let entry = slots::entry_of(image, g, slot);
    let sys = system::system_of(image, g);
    let first = entry.first;
    let end = entry.last;
    let pointer = sys.pointer;
    let Link::To(last) = end else { unreachable!() };
    let size = entry.length as usize;
    let free = sys.free as usize + size;
    let used = sys.used as usize - size;
    let in_use = slots::in_use_of(image, g, slot.sector);
    let zeros = [0u8; 16];
    slots::put_slot(image, g, slot, in_use - 1, &zeros);
    disc::put_link(image, g, last, pointer);
    system::put_system(image, g, first, free, used);
    last
}

// The refusal 10, then the writes of a delete and their list.
fn delete_entry(
    image: &mut [u8],
    g: Geometry,
    slot: SlotNo,
    list: &mut [u8],
) -> Result<u32, Refusal>
    requires { let d = sectors_of g image.old in
        Image g image.old × (slot.sector.0 < g.sectors) × Removable (geo g) d (slot_of d slot) }
    ensures { let d = sectors_of g image.old in
        Lists g image.old image.new list.old list.new result (ok (delete_writes (geo g) d (slot_of d slot))) }
{
    if list.len() < writes::list_size(3) {
        return Err(Refusal::Short);
    }
    let last = remove(image, g, slot);
    Ok(writes::put_deleted(image, g, slot.sector, last, list))
}

fn delete_on(image: &mut [u8], g: Geometry, name: &[u8], list: &mut [u8]) -> Result<u32, Refusal>
    requires { Image g image.old }
    ensures { Lists g image.old image.new list.old list.new result
        (delete_on (geo g) (sectors_of g image.old) name.now) }
{
    let slot = lookup::entry_on(image, g, name)?;
    if lookup::is_protected(image, g, slot) {
        return Err(Refusal::Protected);
    }
    delete_entry(image, g, slot, list)
}

pub fn delete(
    image: &mut [u8],
    stated: Stated,
    name: &[u8],
    list: &mut [u8],
) -> Result<u32, Refusal>
    ensures { change_answer (filled result) image.new list.new ≡ after_delete (kind_of stated)
        image.old name.now list.old }
{
    let g = geometry::geometry_of(stated, image.len())?;
    delete_on(image, g, name, list)
}
