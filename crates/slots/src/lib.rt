// The slots of a directory sector and the entries in them: where each field stands, whether a slot is free, its name compared, its fields read,
// its bytes written; and what an attribute's values mean.
#![tactic(auto)]

ghost use Rattle.std.specs.Prelude.{◌≡◌, ◌+◌, ◌≤◌, ◌<◌, length, take, drop, set};
ghost use Rattle.lists.specs.Lists.{byte, same};
ghost use Rattle.format.specs.Geometry.{sector};
ghost use Rattle.format.specs.Layout.{slots_each, slot_start, in_use_offset, free_slot, name_of, length_of, first_of, last_of, attribute_of};
ghost use Rattle.format.specs.Layout.{is_attribute, is_protected, protected_as};
ghost use Rattle.format.specs.Effects.{with_slot};
ghost use Rattle.geometry.specs.Meaning.{geo, sectors_of, Image};
ghost use Rattle.disc.specs.Meaning.{meaning, Inside, led, Reaches};
ghost use Rattle.slots.specs.Meaning.{slot_of, EntryIs};

mod slot_no;

use disc::{Link, Sector};
use geometry::{Geometry, SectorNo};
use names::Name;
pub use slot_no::SlotNo;

// ---- the attribute: the only code that knows its values

// That of a new file.
pub const UNPROTECTED: u8 = 0x00;

const PROTECTED: u8 = 0x80;

pub fn is_attribute(attribute: u8) -> bool
    ensures { result ≡ is_attribute attribute }
{
    attribute == UNPROTECTED || attribute == PROTECTED
}

pub fn is_protected(attribute: u8) -> bool
    ensures { result ≡ is_protected attribute }
{
    attribute == PROTECTED
}

// What protect writes where this attribute stands.
pub fn with_protection(attribute: u8, on: bool) -> u8
    ensures { result ≡ protected_as on attribute }
{
    if on {
        return PROTECTED;
    }
    UNPROTECTED
}

// ---- where things stand

pub const SLOTS: usize = 15;

// Offset in a directory sector of the number of entries in use.
const IN_USE: usize = 2;

// Offsets in an entry.
pub const NAME: usize = 0;

const LENGTH: usize = 9;

const FIRST: usize = 11;

const LAST: usize = 13;

pub const ATTRIBUTE: usize = 15;

// Where slot i starts in its sector.
pub fn slot_start(i: usize) -> usize
    requires { i < slots_each }
    ensures { result ≡ slot_start i }
{
    3 + 16 * i
}

// ---- a slot's bytes compared

// Whether the bytes of sector n from offset k on are these.
pub fn same_at(image: &[u8], g: Geometry, n: SectorNo, k: usize, bytes: &[u8]) -> bool
    requires { Image g image.now × (n.0 < g.sectors) × (k + length bytes.now ≤ 256) }
    ensures { let s = sector (sectors_of g image.now) n.0 in
        result ≡ same (take (length bytes.now) (drop k s)) bytes.now }
{
    byte_loops::same_at(image, geometry::start_of(g, n) + k, bytes)
}

pub fn slot_free(image: &[u8], g: Geometry, slot: SlotNo) -> bool
    requires { Image g image.now × (slot.sector.0 < g.sectors) }
    ensures { result ≡ free_slot (slot_of (sectors_of g image.now) slot) }
{
    byte_loops::are_zero(
        image,
        geometry::start_of(g, slot.sector) + slot_start(slot.index),
        16,
    )
}

// Whether a slot has this name.
pub fn slot_named(image: &[u8], g: Geometry, slot: SlotNo, name: Name) -> bool
    requires { Image g image.now × (slot.sector.0 < g.sectors) }
    ensures { result ≡ same (name_of (slot_of (sectors_of g image.now) slot)) name.bytes }
{
    let nine = name.bytes;
    same_at(image, g, slot.sector, slot_start(slot.index), &nine)
}

// Whether two slots have the same name.
pub fn same_names(image: &[u8], g: Geometry, slot: SlotNo, other: SlotNo) -> bool
    requires { Image g image.now × (slot.sector.0 < g.sectors) × (other.sector.0 < g.sectors) }
    ensures { let d = sectors_of g image.now in
        result ≡ same (name_of (slot_of d slot)) (name_of (slot_of d other)) }
{
    let start = geometry::start_of(g, other.sector) + slot_start(other.index);
    let end = start + 9;
    same_at(
        image,
        g,
        slot.sector,
        slot_start(slot.index),
        &image[start..end],
    )
}

// ---- fields read

// How many entries of directory sector n are in use, as it says.
pub fn in_use_of(image: &[u8], g: Geometry, n: SectorNo) -> u8
    requires { Image g image.now × (n.0 < g.sectors) }
    ensures { result ≡ byte (sector (sectors_of g image.now) n.0) in_use_offset }
{
    disc::byte_of(image, g, n, IN_USE)
}

// The length in sectors of the file of the entry in a slot.
pub fn length_of(image: &[u8], g: Geometry, slot: SlotNo) -> u16
    requires { Image g image.now × (slot.sector.0 < g.sectors) }
    ensures { result ≡ length_of (slot_of (sectors_of g image.now) slot) }
{
    disc::word_of(image, g, slot.sector, slot_start(slot.index) + LENGTH)
}

// Where its pair of the first sector leads: a step, for the walk along the file.
pub fn first_step(image: &[u8], g: Geometry, slot: SlotNo) -> Link<Sector>
    requires { Image g image.now × (slot.sector.0 < g.sectors) }
    ensures { (led result ≡ first_of (geo g) (slot_of (sectors_of g image.now) slot)) × Reaches g result }
{
    disc::step_of(image, g, slot.sector, slot_start(slot.index) + FIRST)
}

// Where its pair of the last sector leads.
pub fn last_of(image: &[u8], g: Geometry, slot: SlotNo) -> Link<SectorNo>
    requires { Image g image.now × (slot.sector.0 < g.sectors) }
    ensures { (meaning result ≡ last_of (geo g) (slot_of (sectors_of g image.now) slot)) × Inside g result }
{
    disc::pair_of(image, g, slot.sector, slot_start(slot.index) + LAST)
}

pub fn attribute_of(image: &[u8], g: Geometry, slot: SlotNo) -> u8
    requires { Image g image.now × (slot.sector.0 < g.sectors) }
    ensures { result ≡ attribute_of (slot_of (sectors_of g image.now) slot) }
{
    disc::byte_of(image, g, slot.sector, slot_start(slot.index) + ATTRIBUTE)
}

// What an entry says of its file.
#[derive(Clone, Copy)]
pub struct Entry {
    pub length: u16,
    pub first: Link<SectorNo>,
    pub last: Link<SectorNo>,
    pub attribute: u8,
}

pub fn entry_of(image: &[u8], g: Geometry, slot: SlotNo) -> Entry
    requires { Image g image.now × (slot.sector.0 < g.sectors) }
    ensures { EntryIs g result (slot_of (sectors_of g image.now) slot) }
{
    Entry {
        length: length_of(image, g, slot),
        first: disc::pair_of(image, g, slot.sector, slot_start(slot.index) + FIRST),
        last: last_of(image, g, slot),
        attribute: attribute_of(image, g, slot),
    }
}

// ---- written

// Writes the bytes of a slot, and how many entries of its sector are in use.
pub fn put_slot(image: &mut [u8], g: Geometry, slot: SlotNo, in_use: u8, bytes: &[u8; 16])
    requires { Image g image.old × (slot.sector.0 < g.sectors) }
    ensures { let d = sectors_of g image.old in
        let n = slot.sector.0 in
        sectors_of g image.new ≡ set d n (with_slot (sector d n) slot.index in_use bytes.now) }
{
    let count = [in_use];
    disc::put(image, g, slot.sector, IN_USE, &count);
    disc::put(image, g, slot.sector, slot_start(slot.index), bytes);
}
