// The calls as C sees them (include/tandos.h), for Rattle; the crate tandos_c exports them. Each is thin: its contract is the equation
// of document 01's call, and the work is done below.
#![tactic(auto)]

ghost use Rattle.std.specs.Prelude.{◌≡◌};
ghost use Rattle.format.specs.Geometry.{stated};
ghost use Rattle.format.specs.Calls.{answered, after_check, after_list, after_read, view_number, view_part};
ghost use Rattle.format.specs.Calls.{after_save, after_delete, after_rename, after_protect, after_replay, after_repair, after_blank};
ghost use Rattle.answers.specs.Meaning.{change_answer};
ghost use Rattle.listing.specs.Meaning.{list_answer};
ghost use Rattle.reading.specs.Answer.{read_answer};
ghost use Rattle.saving.specs.Meaning.{handed};
ghost use Rattle.totals.specs.Totals.{after_sheet};
ghost use Rattle.tandos.specs.Meaning.{check_answer};

use answers::Filled;
use geometry::Stated;
use reading::Reading;

// The answer of the check: the number, and the lowest broken rule, 0 for a sound image.
#[repr(C)]
#[derive(Clone, Copy)]
pub struct CheckNumbers {
    pub number: u32,
    pub rule: u32,
}

pub fn tandos_check(image: &[u8], sectors: u32, arrangement: u32) -> CheckNumbers
    ensures { check_answer result ≡ after_check (stated sectors arrangement) image.now }
{
    let kind = Stated {
        sectors,
        arrangement,
    };
    match fsck::check(image, kind) {
        Ok(Ok(())) => CheckNumbers {
            number: refusals::DONE,
            rule: 0,
        },
        Ok(Err(rule)) => CheckNumbers {
            number: refusals::DONE,
            rule: u32::from(rule),
        },
        Err(refusal) => CheckNumbers {
            number: u32::from(refusal),
            rule: 0,
        },
    }
}

pub fn tandos_list(image: &[u8], sectors: u32, arrangement: u32, buffer: &mut [u8]) -> Filled
    ensures { list_answer result buffer.new ≡ after_list (stated sectors arrangement) image.now buffer.old }
{
    let kind = Stated {
        sectors,
        arrangement,
    };
    Filled::from(listing::list(image, kind, buffer))
}

pub fn tandos_read(
    image: &[u8],
    sectors: u32,
    arrangement: u32,
    name: &[u8],
    buffer: &mut [u8],
) -> Reading
    ensures { read_answer result buffer.new ≡ after_read (stated sectors arrangement) image.now
        name.now buffer.old }
{
    let kind = Stated {
        sectors,
        arrangement,
    };
    Reading::from(reading::read(image, kind, name, buffer))
}

pub fn tandos_save(
    image: &mut [u8],
    sectors: u32,
    arrangement: u32,
    name: &[u8],
    page: u32,
    start: u16,
    transfer: u16,
    sheet: &[u8],
    writes: &mut [u8],
) -> Filled
    ensures { change_answer result image.new writes.new ≡ after_save (stated sectors arrangement) image.old
        name.now (handed page start transfer sheet.now) writes.old }
{
    let kind = Stated {
        sectors,
        arrangement,
    };
    Filled::from(saving::save(image, kind, name, page, start, transfer, sheet, writes))
}

pub fn tandos_delete(
    image: &mut [u8],
    sectors: u32,
    arrangement: u32,
    name: &[u8],
    writes: &mut [u8],
) -> Filled
    ensures { change_answer result image.new writes.new ≡ after_delete (stated sectors arrangement) image.old
        name.now writes.old }
{
    let kind = Stated {
        sectors,
        arrangement,
    };
    Filled::from(deleting::delete(image, kind, name, writes))
}

pub fn tandos_rename(
    image: &mut [u8],
    sectors: u32,
    arrangement: u32,
    old: &[u8],
    new: &[u8],
    writes: &mut [u8],
) -> Filled
    ensures { change_answer result image.new writes.new ≡ after_rename (stated sectors arrangement) image.old
        old.now new.now writes.old }
{
    let kind = Stated {
        sectors,
        arrangement,
    };
    Filled::from(renaming::rename(image, kind, old, new, writes))
}

pub fn tandos_protect(
    image: &mut [u8],
    sectors: u32,
    arrangement: u32,
    name: &[u8],
    on: u32,
    writes: &mut [u8],
) -> Filled
    ensures { change_answer result image.new writes.new ≡ after_protect (stated sectors arrangement) image.old
        name.now on writes.old }
{
    let kind = Stated {
        sectors,
        arrangement,
    };
    Filled::from(protecting::protect(image, kind, name, on, writes))
}

// Writes the sectors of a list of writes.
pub fn tandos_replay(image: &mut [u8], sectors: u32, arrangement: u32, writes: &[u8]) -> u32
    ensures { answered result image.new ≡ after_replay (stated sectors arrangement) image.old writes.now }
{
    let kind = Stated {
        sectors,
        arrangement,
    };
    refusals::number(replaying::replay(image, kind, writes))
}

// Threads every sector that neither the directory nor a file meets into a new free chain.
pub fn tandos_repair(image: &mut [u8], sectors: u32, arrangement: u32) -> u32
    ensures { answered result image.new ≡ after_repair (stated sectors arrangement) image.old }
{
    let kind = Stated {
        sectors,
        arrangement,
    };
    refusals::number(repairing::repair(image, kind))
}

pub fn tandos_blank(image: &mut [u8], sectors: u32, arrangement: u32, name: &[u8]) -> u32
    ensures { answered result image.new ≡ after_blank (stated sectors arrangement) image.old name.now }
{
    let kind = Stated {
        sectors,
        arrangement,
    };
    refusals::number(blank::blank(image, kind, name))
}

// The number of a view with these arguments.
pub fn tandos_view_number(
    image: &[u8],
    sectors: u32,
    arrangement: u32,
    track: u32,
    sector: u32,
) -> u32
    ensures { result ≡ view_number (stated sectors arrangement) image.now track sector }
{
    let kind = Stated {
        sectors,
        arrangement,
    };
    view::view_number(image, kind, track, sector)
}

// Where a view with these arguments starts in the image; C adds it to the image's address.
pub fn tandos_view_start(
    image: &[u8],
    sectors: u32,
    arrangement: u32,
    track: u32,
    sector: u32,
) -> u32
    ensures { result ≡ (view_part (stated sectors arrangement) image.now track sector).at }
{
    let kind = Stated {
        sectors,
        arrangement,
    };
    view::view_start(image, kind, track, sector)
}

// Adds a sheet to running totals.
pub fn tandos_add_sheet(totals: &mut [u32], sheet: &[u8]) -> u32
    ensures { record { number = result; totals = totals.new } ≡ after_sheet totals.old sheet.now }
{
    refusals::number(totals::add_sheet(totals, sheet))
}
