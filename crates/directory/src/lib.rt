// The directory of a disc image: the walk along its sectors, the entry of a name, the first free slot. All of it is read as it stands, on
// unsound images too.
#![tactic(auto)]

ghost use Rattle.std.specs.Prelude.{◌≡◌, true, ◌<◌, Bool};
ghost use Rattle.lists.specs.Lists.{last_or};
ghost use Rattle.format.specs.Names.{legal_stored};
ghost use Rattle.format.specs.Geometry.{Disc};
ghost use Rattle.format.specs.Layout.{Slot, slots_at, slots, directory, find, open_slot};
ghost use Rattle.geometry.specs.Meaning.{geo, sectors_of, Image};
ghost use Rattle.directory.specs.Walk.{Started};
ghost use Rattle.directory.specs.Meaning.{MayAsk, Answers, first_that, found_of, Within, Finds};

mod walk;

use geometry::{Geometry, SectorNo};
use names::Name;
use slots::SlotNo;
pub use walk::Sectors;

// The sectors of the directory, in the order of its chain: no more than the disc has.
pub fn sectors<'a>(image: &'a [u8], g: Geometry) -> Sectors<'a>
    requires { Image g image.now }
    ensures { Started g image.now result }
{
    Sectors {
        image,
        g,
        at: system::directory_pointer(image, g),
        left: g.sectors,
    }
}

// The first slot of sector n that passes a test.
fn search_sector<F: Fn(SlotNo) -> bool>(n: SectorNo, test: &F) -> Option<SlotNo>
    requires { MayAsk (λ k. k ≡ n.0) (F.pre test.now) }
    ensures first { (d : Disc) (p : Slot → Bool) → Answers (λ k. k ≡ n.0) d (F.post test.now) p
        → found_of d result ≡ first_that p (slots_at d n.0) }
    ensures within { Within (λ k. k ≡ n.0) result }
{
    for index in 0..slots::SLOTS {
        let slot = SlotNo { sector: n, index };
        if test(slot) {
            return Some(slot);
        }
    }
    None
}

// The first slot of the directory that passes a test.
fn search<F: Fn(SlotNo) -> bool>(image: &[u8], g: Geometry, test: F) -> Option<SlotNo>
    requires { Image g image.now × MayAsk (λ k. k < g.sectors) (F.pre test) }
    ensures first { let d = sectors_of g image.now in
        (p : Slot → Bool) → Answers (λ k. k < g.sectors) d (F.post test) p → found_of d result ≡ first_that p (slots (geo g) d) }
    ensures within { Within (λ k. k < g.sectors) result }
{
    for n in sectors(image, g) {
        let found = search_sector(n, &test);
        if found.is_some() {
            return found;
        }
    }
    None
}

// The entry of a stored name. No free slot has a legal name, so the search need not tell which slots are free.
pub fn find(image: &[u8], g: Geometry, name: Name) -> Option<SlotNo>
    requires { Image g image.now × (legal_stored name.bytes ≡ true) }
    ensures { Finds g image.now result (find (geo g) (sectors_of g image.now) name.bytes) }
{
    search(image, g, |slot| slots::slot_named(image, g, slot, name))
}

// The first free slot.
pub fn open_slot(image: &[u8], g: Geometry) -> Option<SlotNo>
    requires { Image g image.now }
    ensures { Finds g image.now result (open_slot (geo g) (sectors_of g image.now)) }
{
    search(image, g, |slot| slots::slot_free(image, g, slot))
}

// The last sector of the directory, or sector 0 where the directory has none.
pub fn last_sector(image: &[u8], g: Geometry) -> SectorNo
    requires { Image g image.now }
    ensures { (result.0 ≡ last_or 0 (directory (geo g) (sectors_of g image.now))) × (result.0 < g.sectors) }
{
    let mut last = system::SYSTEM;
    for n in sectors(image, g) {
        last = n;
    }
    last
}
