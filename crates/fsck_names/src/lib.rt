// Rule 4 of the check: no two entries have the same name.
// A first pass counts, in a table of buckets, how many names fall into each; a second compares a name with all later ones only where its
// bucket has more than one. A directory of one sector is short enough for the second pass alone.
#![tactic(auto)]

ghost use Rattle.std.specs.Prelude.{◌≡◌, [], ◌∷◌, ◌++◌, ◌+◌, ◌≤◌, ◌<◌, length, take, drop};
ghost use Rattle.lists.specs.Lists.{byte};
ghost use Rattle.format.specs.Layout.{slots_each, in_use, name_of, entries};
ghost use Rattle.format.specs.Check.{rule4};
ghost use Rattle.geometry.specs.Meaning.{geo, sectors_of, Image};
ghost use Rattle.directory.specs.Meaning.{entries_left, MeetsDisc};
ghost use Rattle.slots.specs.Meaning.{slot_of};
ghost use Rattle.slots.specs.InOrder.{slots_from};
ghost use Rattle.fsck_names.specs.Differ.{named, apart};
ghost use Rattle.fsck_names.specs.Tally.{more, spread, bucket_of, tallied, Covers};

use directory::Sectors;
use geometry::{Geometry, SectorNo};
use slots::SlotNo;

// Buckets of the table.
const BUCKETS: usize = 16384;

// ---- the table: how many names fall into each bucket, counted to 2

// Nine bytes, each times a weight. The weights were found by a search: names that are numbered, as F1, F2 .., fall into
// buckets of their own.
fn spread_of(name: &[u8]) -> usize
    requires { length name.now ≡ 9 }
    ensures { let b = byte name.now in
        result ≡ spread (b 0) (b 1) (b 2) (b 3) (b 4) (b 5) (b 6) (b 7) (b 8) }
{
    name[0] as usize * 2129
        + name[1] as usize * 4943
        + name[2] as usize * 12937
        + name[3] as usize * 1953
        + name[4] as usize * 1727
        + name[5] as usize * 16113
        + name[6] as usize * 9123
        + name[7] as usize * 10145
        + name[8] as usize * 6561
}

// The bucket of the nine bytes from at on, in a table of this size. A table of another size than BUCKETS has one bucket.
fn bucket_of(image: &[u8], at: usize, size: usize) -> usize
    requires { (at + 9 ≤ length image.now) × (0 < size) }
    ensures { (result ≡ bucket_of size (take 9 (drop at image.now))) × (result < size) }
{
    if size != BUCKETS {
        return 0;
    }
    let sum = spread_of(&image[at..at + 9]);
    sum % BUCKETS
}

// The bucket of the name in a slot.
fn slot_bucket(image: &[u8], g: Geometry, slot: SlotNo, size: usize) -> usize
    requires { Image g image.now × (slot.sector.0 < g.sectors) × (0 < size) }
    ensures { (result ≡ bucket_of size (name_of (slot_of (sectors_of g image.now) slot))) × (result < size) }
{
    bucket_of(
        image,
        geometry::start_of(g, slot.sector) + slots::slot_start(slot.index),
        size,
    )
}

// One more, up to 2.
fn one_more(count: u8) -> u8
    ensures { result ≡ more count }
{
    if count < 2 { count + 1 } else { count }
}

// Counts a slot, if it is in use.
fn tally_slot(image: &[u8], g: Geometry, slot: SlotNo, table: &mut [u8; BUCKETS])
    requires { Image g image.now × (slot.sector.0 < g.sectors) }
    ensures { table.new ≡ tallied 16384 table.old (in_use (slot_of (sectors_of g image.now) slot ∷ [])) }
{
    if slots::slot_free(image, g, slot) {
        return;
    }
    let k = slot_bucket(image, g, slot, BUCKETS);
    table[k] = one_more(table[k]);
}

// Counts each slot of sector n.
fn tally_sector(image: &[u8], g: Geometry, n: SectorNo, table: &mut [u8; BUCKETS])
    requires { Image g image.now × (n.0 < g.sectors) }
    ensures { table.new ≡ tallied 16384 table.old (in_use (slots_from (sectors_of g image.now) n.0 0)) }
{
    for index in 0..slots::SLOTS {
        tally_slot(image, g, SlotNo { sector: n, index }, table);
    }
}

// Counts the entries of the directory.
fn tally_names(image: &[u8], g: Geometry, table: &mut [u8; BUCKETS])
    requires { Image g image.now }
    ensures { table.new ≡ tallied 16384 table.old (entries (geo g) (sectors_of g image.now)) }
{
    for n in directory::sectors(image, g) {
        tally_sector(image, g, n, table);
    }
}

// ---- a name against the later ones

// Whether the other slot is in use, with the name of this one. Most slots differ in the first byte of the name, so the names are
// compared first.
fn slot_repeats(image: &[u8], g: Geometry, slot: SlotNo, other: SlotNo) -> bool
    requires { Image g image.now × (slot.sector.0 < g.sectors) × (other.sector.0 < g.sectors) }
    ensures { let d = sectors_of g image.now in
        result ≡ named (slot_of d slot) (in_use (slot_of d other ∷ [])) }
{
    slots::same_names(image, g, slot, other) && !slots::slot_free(image, g, other)
}

// The same for one of the slots of sector m from slot first on.
fn sector_repeats(image: &[u8], g: Geometry, slot: SlotNo, m: SectorNo, first: usize) -> bool
    requires { Image g image.now × (slot.sector.0 < g.sectors) × (m.0 < g.sectors) × (first ≤ slots_each) }
    ensures { let d = sectors_of g image.now in
        result ≡ named (slot_of d slot) (in_use (slots_from d m.0 first)) }
{
    for index in first..slots::SLOTS {
        if slot_repeats(image, g, slot, SlotNo { sector: m, index }) {
            return true;
        }
    }
    false
}

// The same for one of the directory sectors that a walk still meets.
fn later_repeats(image: &[u8], g: Geometry, slot: SlotNo, rest: &Sectors) -> bool
    requires { Image g image.now × (slot.sector.0 < g.sectors) × MeetsDisc g rest.now }
    ensures { let d = sectors_of g image.now in
        result ≡ named (slot_of d slot) (entries_left g image.now rest.now) }
{
    for m in *rest {
        if sector_repeats(image, g, slot, m, 0) {
            return true;
        }
    }
    false
}

// ---- all names, with a table that covers those that are left

// Whether a slot is free, or no later entry has its name; `rest` is the walk after its sector.
fn slot_differs(image: &[u8], g: Geometry, slot: SlotNo, rest: &Sectors, table: &[u8]) -> bool
    requires { let d = sectors_of g image.now in
        let later = in_use (slots_from d slot.sector.0 (slot.index + 1)) ++ entries_left g image.now rest.now in
        Image g image.now × (slot.sector.0 < g.sectors) × MeetsDisc g rest.now × Covers table.now (in_use (slot_of d slot ∷ []) ++ later) }
    ensures { let d = sectors_of g image.now in
        let later = in_use (slots_from d slot.sector.0 (slot.index + 1)) ++ entries_left g image.now rest.now in
        result ≡ apart (in_use (slot_of d slot ∷ [])) later }
{
    if slots::slot_free(image, g, slot) {
        return true;
    }
    let k = slot_bucket(image, g, slot, table.len());
    let is_lone = table[k] < 2;
    if is_lone {
        return true;
    }
    if sector_repeats(image, g, slot, slot.sector, slot.index + 1) {
        return false;
    }
    !later_repeats(image, g, slot, rest)
}

// The same for each slot of sector n.
fn sector_differs(image: &[u8], g: Geometry, n: SectorNo, rest: &Sectors, table: &[u8]) -> bool
    requires { let here = in_use (slots_from (sectors_of g image.now) n.0 0) in
        Image g image.now × (n.0 < g.sectors) × MeetsDisc g rest.now × Covers table.now (here ++ entries_left g image.now rest.now) }
    ensures { let here = in_use (slots_from (sectors_of g image.now) n.0 0) in
        result ≡ apart here (entries_left g image.now rest.now) }
{
    for index in 0..slots::SLOTS {
        let slot = SlotNo { sector: n, index };
        if !slot_differs(image, g, slot, rest, table) {
            return false;
        }
    }
    true
}

// The same for each directory sector.
fn directory_differs(image: &[u8], g: Geometry, table: &[u8]) -> bool
    requires { Image g image.now × Covers table.now (entries (geo g) (sectors_of g image.now)) }
    ensures { result ≡ rule4 (geo g) (sectors_of g image.now) }
{
    let mut walk = directory::sectors(image, g);
    while let Some(n) = walk.next() {
        if !sector_differs(image, g, n, &walk, table) {
            return false;
        }
    }
    true
}

// ---- rule 4

// With no count of names: the table's one bucket counts as shared by all.
fn short_differs(image: &[u8], g: Geometry) -> bool
    requires { Image g image.now }
    ensures { result ≡ rule4 (geo g) (sectors_of g image.now) }
{
    let table = [2u8];
    directory_differs(image, g, &table)
}

fn long_differs(image: &[u8], g: Geometry) -> bool
    requires { Image g image.now }
    ensures { result ≡ rule4 (geo g) (sectors_of g image.now) }
{
    let mut table = [0u8; BUCKETS];
    tally_names(image, g, &mut table);
    directory_differs(image, g, &table)
}

// Whether the directory has more than one sector. Only the time hangs on it.
fn is_long(image: &[u8], g: Geometry) -> bool
    requires { Image g image.now }
{
    directory::sectors(image, g).nth(1).is_some()
}

// Rule 4.
pub fn names_differ(image: &[u8], g: Geometry) -> bool
    requires { Image g image.now }
    ensures { result ≡ rule4 (geo g) (sectors_of g image.now) }
{
    if is_long(image, g) {
        long_differs(image, g)
    } else {
        short_differs(image, g)
    }
}
