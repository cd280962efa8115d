// Rule 5 of the check: the chain of each file is as its entry says, over sectors without a mark.
#![tactic(auto)]

ghost use Rattle.std.specs.Prelude.{◌≡◌, [], ◌∷◌, ◌<◌};
ghost use Rattle.format.specs.Layout.{in_use, entries};
ghost use Rattle.format.specs.Check.{at?};
ghost use Rattle.geometry.specs.Meaning.{geo, sectors_of, Image};
ghost use Rattle.disc.specs.Meaning.{meaning};
ghost use Rattle.slots.specs.Meaning.{slot_of};
ghost use Rattle.slots.specs.InOrder.{slots_from};
ghost use Rattle.fsck_files.specs.Files.{FilesMet};

use disc::Link;
use geometry::{Geometry, SectorNo};
use slots::SlotNo;

// Whether a link leads to sector n.
fn leads_to(link: Link<SectorNo>, n: SectorNo) -> bool
    ensures { result ≡ at? (meaning link) n.0 }
{
    matches!(link, Link::To(m) if m.0 == n.0)
}

// The file of the entry in a slot, and how many sectors it has: its chain is walked to its end, whatever the entry's length.
fn file_of(image: &[u8], g: Geometry, slot: SlotNo, marks: &mut [u8; 800]) -> Option<usize>
    requires { Image g image.now × (slot.sector.0 < g.sectors) }
    ensures { let d = sectors_of g image.now in
        FilesMet (geo g) d (slot_of d slot ∷ []) 800 marks.old result marks.new }
{
    let first = slots::first_step(image, g, slot);
    let chain = fsck_chains::follow(image, g, first, marks)?;
    let count = chain.count;
    if count != slots::length_of(image, g, slot) as usize {
        return None;
    }
    if !leads_to(slots::last_of(image, g, slot), chain.last) {
        return None;
    }
    Some(count)
}

// The files of directory sector n.
fn sector_files(image: &[u8], g: Geometry, n: SectorNo, marks: &mut [u8; 800]) -> Option<usize>
    requires { Image g image.now × (n.0 < g.sectors) }
    ensures { let d = sectors_of g image.now in
        FilesMet (geo g) d (in_use (slots_from d n.0 0)) 12000 marks.old result marks.new }
{
    let mut sum: usize = 0;
    for index in 0..slots::SLOTS {
        let slot = SlotNo { sector: n, index };
        if slots::slot_free(image, g, slot) {
            continue;
        }
        sum += file_of(image, g, slot, marks)?;
    }
    Some(sum)
}

// The files of the directory: how many sectors they have, if each has the chain that its entry says.
pub fn all_files(image: &[u8], g: Geometry, marks: &mut [u8; 800]) -> Option<usize>
    requires { Image g image.now }
    ensures { let d = sectors_of g image.now in
        FilesMet (geo g) d (entries (geo g) d) 9600000 marks.old result marks.new }
{
    let mut sum: usize = 0;
    for n in directory::sectors(image, g) {
        let more = sector_files(image, g, n, marks)?;
        sum += more;
    }
    Some(sum)
}
