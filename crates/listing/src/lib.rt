// List as a call: its refusals in document 01's order, then its records at the front of a lent buffer.
// The length of the records and their bytes are what stands on the disc, sound or not.
#![tactic(auto)]

ghost use Rattle.std.specs.Prelude.{◌≡◌, [], ◌∷◌, ◌+◌, ◌*◌, ◌≤◌, ◌<◌, length};
ghost use Rattle.lists.specs.Lists.{front};
ghost use Rattle.format.specs.Layout.{slots_each, in_use, slots_at, slots, entries};
ghost use Rattle.format.specs.Effects.{listing};
ghost use Rattle.format.specs.Calls.{list_on, list_answer_by, after_list};
ghost use Rattle.geometry.specs.Meaning.{kind_of, geo, sectors_of, Image};
ghost use Rattle.slots.specs.Meaning.{slot_of};
ghost use Rattle.answers.specs.Meaning.{filled};
ghost use Rattle.records.specs.Storing.{Stored};
ghost use Rattle.listing.specs.Meaning.{entry_record, records_of, disc_record, list_answer};

use geometry::{Geometry, SectorNo, Stated};
use refusals::Refusal;
use slots::SlotNo;

// The entries of directory sector n.
fn count_sector(image: &[u8], g: Geometry, n: SectorNo) -> usize
    requires { Image g image.now × (n.0 < g.sectors) }
    ensures { result ≡ length (in_use (slots_at (sectors_of g image.now) n.0)) }
{
    let mut count: usize = 0;
    for index in 0..slots::SLOTS {
        let slot = SlotNo { sector: n, index };
        if !slots::slot_free(image, g, slot) {
            count += 1;
        }
    }
    count
}

// All entries; there are at most 15 for each sector.
fn count_entries(image: &[u8], g: Geometry) -> usize
    requires { Image g image.now }
    ensures { (result ≡ length (entries (geo g) (sectors_of g image.now))) × (result ≤ slots_each * g.sectors) }
{
    let mut count: usize = 0;
    for n in directory::sectors(image, g) {
        count += count_sector(image, g, n);
    }
    count
}

// The length of all records: 14 bytes for the disc, 13 for an entry, 1 at the end.
fn listing_length(image: &[u8], g: Geometry) -> usize
    requires { Image g image.now }
    ensures { (result ≡ length (listing (geo g) (sectors_of g image.now))) × (result ≤ 15 + 13 * (slots_each * g.sectors)) }
{
    14 + 13 * count_entries(image, g) + 1
}

// Stores the record of the disc.
fn put_disc(image: &[u8], g: Geometry, buffer: &mut [u8]) -> usize
    requires { Image g image.now × (14 ≤ length buffer.old) }
    ensures { Stored buffer.old 0 (disc_record (sectors_of g image.now)) buffer.new result }
{
    let start = geometry::start_of(g, system::SYSTEM) + system::DISC_NAME;
    let end = start + 9;
    let free = system::free_count(image, g).to_le_bytes();
    let used = system::used_count(image, g).to_le_bytes();
    let counts = [free[0], free[1], used[0], used[1]];
    records::put_record(buffer, 0, 1, &image[start..end], &counts)
}

// Stores the record of the entry in a slot.
fn put_entry(image: &[u8], g: Geometry, slot: SlotNo, buffer: &mut [u8], at: usize) -> usize
    requires { Image g image.now × (slot.sector.0 < g.sectors) × (at + 13 ≤ length buffer.old) }
    ensures { Stored buffer.old at (entry_record (slot_of (sectors_of g image.now) slot)) buffer.new result }
{
    let start = geometry::start_of(g, slot.sector) + slots::slot_start(slot.index);
    let end = start + 9;
    let entry = slots::entry_of(image, g, slot);
    let size = entry.length.to_le_bytes();
    let numbers = [size[0], size[1], entry.attribute];
    records::put_record(buffer, at, 2, &image[start..end], &numbers)
}

// Stores what a slot adds to the records: nothing where it is free.
fn put_slot_record(image: &[u8], g: Geometry, slot: SlotNo, buffer: &mut [u8], at: usize) -> usize
    requires { Image g image.now × (slot.sector.0 < g.sectors)
        × (at + length (records_of (slot_of (sectors_of g image.now) slot ∷ [])) ≤ length buffer.old) }
    ensures { Stored buffer.old at (records_of (slot_of (sectors_of g image.now) slot ∷ [])) buffer.new result }
{
    if slots::slot_free(image, g, slot) {
        return at;
    }
    put_entry(image, g, slot, buffer, at)
}

// Stores the records of directory sector n.
fn put_sector_records(image: &[u8], g: Geometry, n: SectorNo, buffer: &mut [u8], at: usize) -> usize
    requires { Image g image.now × (n.0 < g.sectors) × (at + length (records_of (slots_at (sectors_of g image.now) n.0)) ≤ length buffer.old) }
    ensures { Stored buffer.old at (records_of (slots_at (sectors_of g image.now) n.0)) buffer.new result }
{
    let mut next = at;
    for index in 0..slots::SLOTS {
        let slot = SlotNo { sector: n, index };
        next = put_slot_record(image, g, slot, buffer, next);
    }
    next
}

// Stores the records of all entries.
fn put_entries(image: &[u8], g: Geometry, buffer: &mut [u8], at: usize) -> usize
    requires { Image g image.now × (at + length (records_of (slots (geo g) (sectors_of g image.now))) ≤ length buffer.old) }
    ensures { Stored buffer.old at (records_of (slots (geo g) (sectors_of g image.now))) buffer.new result }
{
    let mut position = at;
    for n in directory::sectors(image, g) {
        position = put_sector_records(image, g, n, buffer, position);
    }
    position
}

// Writes all records to the front of a buffer that they fit in.
fn put_listing(image: &[u8], g: Geometry, buffer: &mut [u8])
    requires { Image g image.now × (length (listing (geo g) (sectors_of g image.now)) ≤ length buffer.old) }
    ensures { buffer.new ≡ front (listing (geo g) (sectors_of g image.now)) buffer.old }
{
    let first = put_disc(image, g, buffer);
    let last = put_entries(image, g, buffer, first);
    buffer[last] = 0;
}

// The refusals 3 and 10, then the records, whose length is the answer.
fn list_on(image: &[u8], g: Geometry, buffer: &mut [u8]) -> Result<u32, Refusal>
    requires { Image g image.now }
    ensures { let b = buffer.old in
        list_answer (filled result) buffer.new ≡ list_answer_by b (list_on (geo g) (sectors_of g image.now) (length b)) }
{
    if !fsck::is_sound(image, g) {
        return Err(Refusal::Unsound);
    }
    let length = listing_length(image, g);
    if buffer.len() < length {
        return Err(Refusal::Short);
    }
    put_listing(image, g, buffer);
    Ok(length as u32)
}

pub fn list(image: &[u8], stated: Stated, buffer: &mut [u8]) -> Result<u32, Refusal>
    ensures { list_answer (filled result) buffer.new ≡ after_list (kind_of stated) image.now buffer.old }
{
    let g = geometry::geometry_of(stated, image.len())?;
    list_on(image, g, buffer)
}
