// One write of bytes into an entry, with its list: what rename and protect do once their own refusals are passed.
#![tactic(auto)]

ghost use Rattle.std.specs.Prelude.{◌≡◌, [], ◌∷◌, ◌+◌, ◌≤◌, ◌<◌, length};
ghost use Rattle.format.specs.Geometry.{written};
ghost use Rattle.format.specs.Refusals.{ok};
ghost use Rattle.format.specs.Effects.{slot_write};
ghost use Rattle.geometry.specs.Meaning.{sectors_of, Image};
ghost use Rattle.slots.specs.Meaning.{slot_of};
ghost use Rattle.answers.specs.Meaning.{Lists};

use geometry::Geometry;
use refusals::Refusal;
use slots::SlotNo;

// Stores bytes from offset k of a slot on.
fn put_in_slot(image: &mut [u8], g: Geometry, slot: SlotNo, k: usize, bytes: &[u8])
    requires { Image g image.old × (slot.sector.0 < g.sectors) × (k + length bytes.now ≤ 16) }
    ensures { let d = sectors_of g image.old in
        sectors_of g image.new ≡ written (slot_write d (slot_of d slot) k bytes.now ∷ []) d }
{
    disc::put(
        image,
        g,
        slot.sector,
        slots::slot_start(slot.index) + k,
        bytes,
    );
}

// The refusal 10, then the one write of a rename or of protect and its list.
pub fn put_listed(
    image: &mut [u8],
    g: Geometry,
    slot: SlotNo,
    k: usize,
    bytes: &[u8],
    list: &mut [u8],
) -> Result<u32, Refusal>
    requires { Image g image.old × (slot.sector.0 < g.sectors) × (k + length bytes.now ≤ 16) }
    ensures { let d = sectors_of g image.old in
        Lists g image.old image.new list.old list.new result
        (ok (slot_write d (slot_of d slot) k bytes.now ∷ [])) }
{
    if list.len() < writes::list_size(1) {
        return Err(Refusal::Short);
    }
    put_in_slot(image, g, slot, k, bytes);
    Ok(writes::put_one(image, g, slot.sector, list))
}
