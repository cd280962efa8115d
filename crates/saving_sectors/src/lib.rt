// The sector writes of a save: the module goes into the first sectors of the free chain, its entry into the first free slot or into a new
// directory sector, and the free pointer and the counts follow.
#![tactic(auto)]

ghost use Rattle.std.specs.Prelude.{◌≡◌, false, cond, [], ◌∷◌, ◌++◌, ◌+◌, ◌<◌, ltb, length, replicate, set};
ghost use Rattle.std.proofs.Math.Option.{none, some};
ghost use Rattle.lists.specs.Lists.{word};
ghost use Rattle.format.specs.Geometry.{stop, go, written};
ghost use Rattle.format.specs.Layout.{link_offset, attribute, link_bytes, pair_bytes, free_pointer, open_slot};
ghost use Rattle.format.specs.Modules.{sectors_for};
ghost use Rattle.format.specs.Effects.{with_slot, save_writes};
ghost use Rattle.geometry.specs.Meaning.{geo, sectors_of, Valid, Image};
ghost use Rattle.disc.specs.Meaning.{meaning, stored_at, Inside};
ghost use Rattle.modules.specs.Meaning.{module_of};
ghost use Rattle.slots.specs.Meaning.{slot_of};
ghost use Rattle.saving_sectors.specs.Meaning.{Ready, ModulePut, NewFileAs, GrownBy};

use disc::Link;
use geometry::{Geometry, SectorNo};
use modules::Numbers;
use names::Name;
use slots::SlotNo;

// The link of sector j of a file of `count` sectors.
fn link_in_file(next: Link<SectorNo>, j: usize, count: usize) -> Link<SectorNo>
    requires { j < count }
    ensures { meaning result ≡ cond (ltb (j + 1) count) (meaning next) stop }
{
    if j + 1 < count {
        return next;
    }
    Link::End
}

// The last sector that was taken from the free chain, and the link found in it.
#[derive(Clone, Copy)]
pub struct Taken {
    pub last: SectorNo,
    pub next: Link<SectorNo>,
}

// Writes a module of `count` sectors into the first ones of the free chain. Each link is read before its sector is written.
fn put_module(
    image: &mut [u8],
    g: Geometry,
    pointer: Link<SectorNo>,
    m: Numbers,
    sheet: &[u8],
    count: usize,
) -> Taken
    requires { Ready g image.old (module_of m sheet.now) × (count ≡ sectors_for (length sheet.now))
        × (meaning pointer ≡ free_pointer (geo g) (sectors_of g image.old)) }
    ensures { ModulePut g image.old image.new (module_of m sheet.now) result }
{
    let mut at = pointer;
    let mut last = system::SYSTEM;
    for j in 0..count {
        let Link::To(n) = at else {
            unreachable!();
        };
        let next = disc::link_of(image, g, n);
        let link = link_in_file(next, j, count);
        modules::put_nth(image, g, n, link, m, sheet, j);
        last = n;
        at = next;
    }
    Taken { last, next: at }
}

// A new entry. The file is unprotected.
fn entry_bytes(
    g: Geometry,
    name: Name,
    count: usize,
    first: Link<SectorNo>,
    last: SectorNo,
) -> [u8; 16]
    requires { Valid g × Inside g first × (last.0 < g.sectors) }
    ensures { result ≡ name.bytes ++ word count ++ pair_bytes (geo g) (meaning first) ++ pair_bytes (geo g) (go last.0) ++ attribute false ∷ [] }
{
    let counted = byte_loops::word_bytes(count);
    let from = disc::address_of(g, first);
    let to = disc::address_of(g, Link::To(last));
    let rest = [
        counted[0],
        counted[1],
        from.sector,
        from.track,
        to.sector,
        to.track,
        slots::UNPROTECTED,
    ];
    let mut entry = [0; 16];
    entry[..9].copy_from_slice(&name.bytes);
    entry[9..].copy_from_slice(&rest);
    entry
}

// The entry of a module that was written, and the link found in its last sector.
#[derive(Clone, Copy)]
pub struct NewFile {
    pub entry: [u8; 16],
    pub next: Link<SectorNo>,
}

// Writes a module's sectors, and makes its entry.
fn put_file(
    image: &mut [u8],
    g: Geometry,
    pointer: Link<SectorNo>,
    name: Name,
    m: Numbers,
    sheet: &[u8],
    count: usize,
) -> NewFile
    requires { Ready g image.old (module_of m sheet.now) × (count ≡ sectors_for (length sheet.now))
        × (meaning pointer ≡ free_pointer (geo g) (sectors_of g image.old)) }
    ensures { NewFileAs g image.old image.new name.bytes (module_of m sheet.now) result }
{
    let taken = put_module(image, g, pointer, m, sheet, count);
    NewFile {
        entry: entry_bytes(g, name, count, pointer, taken.last),
        next: taken.next,
    }
}

// Saves into a slot, which is free.
pub fn save_in_slot(
    image: &mut [u8],
    g: Geometry,
    slot: SlotNo,
    name: Name,
    m: Numbers,
    sheet: &[u8],
)
    requires { let d = sectors_of g image.old in
        Ready g image.old (module_of m sheet.now) × (open_slot (geo g) d ≡ some (slot_of d slot)) × (slot.sector.0 < g.sectors) }
    ensures { let d = sectors_of g image.old in
        sectors_of g image.new ≡ written (save_writes (geo g) d name.bytes (module_of m sheet.now)) d }
{
    let sys = system::system_of(image, g);
    let free = sys.free as usize;
    let used = sys.used as usize;
    let in_use = slots::in_use_of(image, g, slot.sector);
    let count = modules::sectors_for(sheet.len());
    let file = put_file(image, g, sys.pointer, name, m, sheet, count);
    slots::put_slot(image, g, slot, in_use + 1, &file.entry);
    system::put_system(image, g, file.next, free - count, used + count);
}

// Writes a new directory sector with its first entry, and links it from the last one.
fn grow(image: &mut [u8], g: Geometry, last: SectorNo, new: SectorNo, entry: &[u8; 16])
    requires { Image g image.old × (last.0 < g.sectors) × (new.0 < g.sectors) }
    ensures { let d = set (sectors_of g image.old) new.0 (with_slot (replicate 256 0) 0 1 entry.now) in
        sectors_of g image.new ≡ stored_at d last.0 link_offset (link_bytes (geo g) (go new.0)) }
{
    let in_use = [1u8];
    modules::put_body(image, g, new, Link::End, &in_use, entry);
    disc::put_link(image, g, last, Link::To(new));
}

// The directory's new sector, and the one that links to it.
#[derive(Clone, Copy)]
pub struct Grown {
    pub new: SectorNo,
    pub last: SectorNo,
}

// Saves where no slot is free: the directory takes the sector after those of the module.
pub fn save_and_grow(image: &mut [u8], g: Geometry, name: Name, m: Numbers, sheet: &[u8]) -> Grown
    requires { Ready g image.old (module_of m sheet.now) × (open_slot (geo g) (sectors_of g image.old) ≡ none) }
    ensures { GrownBy g image.old image.new name.bytes (module_of m sheet.now) result }
{
    let sys = system::system_of(image, g);
    let free = sys.free as usize;
    let used = sys.used as usize;
    let last = directory::last_sector(image, g);
    let count = modules::sectors_for(sheet.len());
    let file = put_file(image, g, sys.pointer, name, m, sheet, count);
    let Link::To(new) = file.next else {
        unreachable!();
    };
    let rest = disc::link_of(image, g, new);
    grow(image, g, last, new, &file.entry);
    system::put_system(image, g, rest, free - (count + 1), used + count);
    Grown { new, last }
}
