// Rule 3 of the check: the entries of the directory.
#![tactic(auto)]

ghost use Rattle.std.specs.Prelude.{◌≡◌, ◌+◌, ◌≤◌, ◌<◌, length, take, drop, eqb};
ghost use Rattle.std.proofs.Math.Seq.{slice};
ghost use Rattle.lists.specs.Lists.{all};
ghost use Rattle.format.specs.Names.{space, spaced, legal_stored};
ghost use Rattle.format.specs.Check.{good_entry, rule3};
ghost use Rattle.geometry.specs.Meaning.{geo, sectors_of, Image};
ghost use Rattle.slots.specs.Meaning.{slot_of};
ghost use Rattle.fsck_entries.specs.Good.{good_sector};

use geometry::{Geometry, SectorNo};
use slots::SlotNo;

// The first of the bytes from at to end that is no letter, or end. By index: `skip_while` would keep a flag, and the check would take a tenth
// longer on a disc of many files.
fn letters_end(image: &[u8], at: usize, end: usize) -> usize
    requires { (at ≤ end) × (end ≤ length image.now) }
    ensures { (result ≤ end) × (spaced (slice at end image.now) ≡ all (eqb space) (slice result end image.now)) }
{
    for i in at..end {
        if !names::is_letter(image[i]) {
            return i;
        }
    }
    end
}

// Whether the bytes from at to end are letters, then spaces.
fn is_padded(image: &[u8], at: usize, end: usize) -> bool
    requires { (at ≤ end) × (end ≤ length image.now) }
    ensures { result ≡ spaced (slice at end image.now) }
{
    byte_loops::are_all(image, letters_end(image, at, end), end, b' ')
}

// Whether the nine bytes from at on are a padded legal name.
fn is_legal(image: &[u8], at: usize) -> bool
    requires { at + 9 ≤ length image.now }
    ensures { result ≡ legal_stored (take 9 (drop at image.now)) }
{
    names::is_letter(image[at]) && is_padded(image, at, at + 6) && is_padded(image, at + 6, at + 9)
}

// Whether the entry in a slot has a legal name, a length and an attribute.
fn entry_good(image: &[u8], g: Geometry, slot: SlotNo) -> bool
    requires { Image g image.now × (slot.sector.0 < g.sectors) }
    ensures { result ≡ good_entry (slot_of (sectors_of g image.now) slot) }
{
    let at = geometry::start_of(g, slot.sector) + slots::slot_start(slot.index);
    let is_empty = slots::length_of(image, g, slot) == 0;
    is_legal(image, at) && !is_empty && slots::is_attribute(slots::attribute_of(image, g, slot))
}

// Whether directory sector n counts its entries, and each is good.
fn sector_good(image: &[u8], g: Geometry, n: SectorNo) -> bool
    requires { Image g image.now × (n.0 < g.sectors) }
    ensures { result ≡ good_sector (geo g) (sectors_of g image.now) n.0 }
{
    let mut used: u8 = 0;
    for index in 0..slots::SLOTS {
        let slot = SlotNo { sector: n, index };
        if slots::slot_free(image, g, slot) {
            continue;
        }
        if !entry_good(image, g, slot) {
            return false;
        }
        used += 1;
    }
    slots::in_use_of(image, g, n) == used
}

// Rule 3.
pub fn entries_good(image: &[u8], g: Geometry) -> bool
    requires { Image g image.now }
    ensures { result ≡ rule3 (geo g) (sectors_of g image.now) }
{
    directory::sectors(image, g).all(|n| sector_good(image, g, n))
}
