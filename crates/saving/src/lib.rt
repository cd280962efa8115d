// Save: judging, which gives its refusals in order; then its sector writes and the list of them.
#![tactic(auto)]

ghost use Rattle.std.specs.Prelude.{◌≡◌, true, cond, ◌+◌, ◌≤◌, leb, length, is_some};
ghost use Rattle.format.specs.Names.{legal_stored};
ghost use Rattle.format.specs.Layout.{free_count, free, open_slot};
ghost use Rattle.format.specs.Check.{sound};
ghost use Rattle.format.specs.ModuleLaws.{IsModule};
ghost use Rattle.format.specs.Effects.{growth};
ghost use Rattle.format.specs.Calls.{save_on, after_save};
ghost use Rattle.geometry.specs.Meaning.{kind_of, geo, sectors_of, Image};
ghost use Rattle.modules.specs.Meaning.{module_of};
ghost use Rattle.directory.specs.Meaning.{Finds};
ghost use Rattle.lookup.specs.Meaning.{Names};
ghost use Rattle.answers.specs.Meaning.{Lists, filled, change_answer};
ghost use Rattle.saving.specs.Meaning.{handed, save_name_on, vacancy_on, Offers, save_as};

use geometry::{Geometry, Stated};
use modules::Numbers;
use names::Name;
use refusals::Refusal;
use slots::SlotNo;

// ---- judging

// The refusals 2, 7 and 3. The transfer address is not asked.
pub fn save_name_on(
    image: &[u8],
    g: Geometry,
    name: &[u8],
    page: u32,
    start: u16,
    sheet: &[u8],
) -> Result<Name, Refusal>
    requires { Image g image.now }
    ensures { let d = sectors_of g image.now in
        Names result (save_name_on (geo g) d name.now (handed page start 0 sheet.now)) }
{
    let stored = names::file_name(name)?;
    if !modules::is_module(page, start, sheet.len()) {
        return Err(Refusal::Module);
    }
    if !fsck::is_sound(image, g) {
        return Err(Refusal::Unsound);
    }
    Ok(stored)
}

// Whether the free chain has the sectors of a file of `count` sectors, and one more where no slot is free. `slot` is what
// `directory::open_slot` found.
fn has_room(image: &[u8], g: Geometry, slot: Option<SlotNo>, count: usize) -> bool
    requires { let d = sectors_of g image.now in
        Image g image.now × Finds g image.now slot (open_slot (geo g) d) × (free_count d ≡ length (free (geo g) d)) }
    ensures { let d = sectors_of g image.now in
        result ≡ leb (count + growth (geo g) d) (length (free (geo g) d)) }
{
    let free = system::free_count(image, g) as usize;
    match slot {
        Some(_) => count <= free,
        None => count < free,
    }
}

// The refusals 5 and 8, for a module of so many bytes: the slot that its entry takes, or none where the directory takes a new sector.
pub fn vacancy_for(
    image: &[u8],
    g: Geometry,
    name: Name,
    size: usize,
) -> Result<Option<SlotNo>, Refusal>
    requires { Image g image.now × (sound (geo g) (sectors_of g image.now) ≡ true) × (legal_stored name.bytes ≡ true) × (size ≤ 65536) }
    ensures { Offers g image.now result (vacancy_on (geo g) (sectors_of g image.now) name.bytes size) }
{
    if directory::find(image, g, name).is_some() {
        return Err(Refusal::Taken);
    }
    let slot = directory::open_slot(image, g);
    if !has_room(image, g, slot, modules::sectors_for(size)) {
        return Err(Refusal::Room);
    }
    Ok(slot)
}

// ---- writing

// How many sectors a save writes: those of its module, the system sector, and one of the directory or, where it grows, two.
fn write_count(count: usize, to: Option<SlotNo>) -> usize
    requires { count ≤ 300 }
    ensures { result ≡ count + cond (is_some to) 2 3 }
{
    match to {
        Some(_) => count + 2,
        None => count + 3,
    }
}

// The refusal 10, then the writes and their list.
#[tactic(auto, using(crate::specs::Listing::few_sectors, crate::specs::Listing::few_others))]
fn save_into(
    image: &mut [u8],
    g: Geometry,
    to: Option<SlotNo>,
    name: Name,
    m: Numbers,
    sheet: &[u8],
    list: &mut [u8],
) -> Result<u32, Refusal>
    requires { let d = sectors_of g image.old in
        Image g image.old × (sound (geo g) d ≡ true) × IsModule (module_of m sheet.now)
        × Offers g image.old (Ok to) (vacancy_on (geo g) d name.bytes (length sheet.now)) }
    ensures { let d = sectors_of g image.old in
        Lists g image.old image.new list.old list.new result
        (save_as (geo g) d name.bytes (module_of m sheet.now)) }
{
    let count = modules::sectors_for(sheet.len());
    if list.len() < writes::list_size(write_count(count, to)) {
        return Err(Refusal::Short);
    }
    let first = system::system_of(image, g).pointer;
    match to {
        Some(slot) => {
            saving_sectors::save_in_slot(image, g, slot, name, m, sheet);
            Ok(writes::put_saved(image, g, first, count, slot.sector, list))
        }
        None => {
            let grown = saving_sectors::save_and_grow(image, g, name, m, sheet);
            Ok(writes::put_grown(image, g, first, count, grown.new, grown.last, list))
        }
    }
}

// The same where `to` is what `vacancy_for` gave; its refusal stands.
pub fn put_save(
    image: &mut [u8],
    g: Geometry,
    to: Result<Option<SlotNo>, Refusal>,
    name: Name,
    m: Numbers,
    sheet: &[u8],
    list: &mut [u8],
) -> Result<u32, Refusal>
    requires { let d = sectors_of g image.old in
        Image g image.old × (sound (geo g) d ≡ true) × IsModule (module_of m sheet.now)
        × Offers g image.old to (vacancy_on (geo g) d name.bytes (length sheet.now)) }
    ensures { let d = sectors_of g image.old in
        Lists g image.old image.new list.old list.new result
        (save_as (geo g) d name.bytes (module_of m sheet.now)) }
{
    let vacancy = to?;
    save_into(image, g, vacancy, name, m, sheet, list)
}

fn save_on(
    image: &mut [u8],
    g: Geometry,
    name: &[u8],
    page: u32,
    start: u16,
    transfer: u16,
    sheet: &[u8],
    list: &mut [u8],
) -> Result<u32, Refusal>
    requires { Image g image.old }
    ensures { let d = sectors_of g image.old in
        Lists g image.old image.new list.old list.new result
        (save_on (geo g) d name.now (handed page start transfer sheet.now)) }
{
    let stored = save_name_on(image, g, name, page, start, sheet)?;
    let m = Numbers {
        page: page as u8,
        start,
        transfer,
    };
    let to = vacancy_for(image, g, stored, sheet.len());
    put_save(image, g, to, stored, m, sheet, list)
}

pub fn save(
    image: &mut [u8],
    stated: Stated,
    name: &[u8],
    page: u32,
    start: u16,
    transfer: u16,
    sheet: &[u8],
    list: &mut [u8],
) -> Result<u32, Refusal>
    ensures { change_answer (filled result) image.new list.new ≡ after_save (kind_of stated) image.old
        name.now (handed page start transfer sheet.now) list.old }
{
    let g = geometry::geometry_of(stated, image.len())?;
    save_on(image, g, name, page, start, transfer, sheet, list)
}
