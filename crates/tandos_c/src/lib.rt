// The exports: each call of the crate tandos under its own name, for C (include/tandos.h), with the same clauses. A slice is a pointer
// and a length.
#![tactic(auto)]

ghost use Rattle.std.specs.Prelude.{◌≡◌};
ghost use Rattle.format.specs.Geometry.{stated};
ghost use Rattle.format.specs.Calls.{answered, after_check, after_list, after_read, view_number, view_part};
ghost use Rattle.format.specs.Calls.{after_save, after_delete, after_rename, after_protect, after_replay, after_repair, after_blank};
ghost use Rattle.answers.specs.Meaning.{change_answer};
ghost use Rattle.listing.specs.Meaning.{list_answer};
ghost use Rattle.reading.specs.Answer.{read_answer};
ghost use Rattle.saving.specs.Meaning.{handed};
ghost use Rattle.totals.specs.Totals.{after_sheet};
ghost use Rattle.tandos.specs.Meaning.{check_answer};

use answers::Filled;
use reading::Reading;
use tandos::CheckNumbers;

#[unsafe(no_mangle)]
pub extern "C" fn tandos_check(image: &[u8], sectors: u32, arrangement: u32) -> CheckNumbers
    ensures { check_answer result ≡ after_check (stated sectors arrangement) image.now }
{
    tandos::tandos_check(image, sectors, arrangement)
}

#[unsafe(no_mangle)]
pub extern "C" fn tandos_list(
    image: &[u8],
    sectors: u32,
    arrangement: u32,
    buffer: &mut [u8],
) -> Filled
    ensures { list_answer result buffer.new ≡ after_list (stated sectors arrangement) image.now buffer.old }
{
    tandos::tandos_list(image, sectors, arrangement, buffer)
}

#[unsafe(no_mangle)]
pub extern "C" fn tandos_read(
    image: &[u8],
    sectors: u32,
    arrangement: u32,
    name: &[u8],
    buffer: &mut [u8],
) -> Reading
    ensures { read_answer result buffer.new ≡ after_read (stated sectors arrangement) image.now
        name.now buffer.old }
{
    tandos::tandos_read(image, sectors, arrangement, name, buffer)
}

#[unsafe(no_mangle)]
pub extern "C" fn tandos_save(
    image: &mut [u8],
    sectors: u32,
    arrangement: u32,
    name: &[u8],
    page: u32,
    start: u16,
    transfer: u16,
    sheet: &[u8],
    writes: &mut [u8],
) -> Filled
    ensures { change_answer result image.new writes.new ≡ after_save (stated sectors arrangement) image.old
        name.now (handed page start transfer sheet.now) writes.old }
{
    tandos::tandos_save(
        image,
        sectors,
        arrangement,
        name,
        page,
        start,
        transfer,
        sheet,
        writes,
    )
}

#[unsafe(no_mangle)]
pub extern "C" fn tandos_delete(
    image: &mut [u8],
    sectors: u32,
    arrangement: u32,
    name: &[u8],
    writes: &mut [u8],
) -> Filled
    ensures { change_answer result image.new writes.new ≡ after_delete (stated sectors arrangement) image.old
        name.now writes.old }
{
    tandos::tandos_delete(image, sectors, arrangement, name, writes)
}

#[unsafe(no_mangle)]
pub extern "C" fn tandos_rename(
    image: &mut [u8],
    sectors: u32,
    arrangement: u32,
    old: &[u8],
    new: &[u8],
    writes: &mut [u8],
) -> Filled
    ensures { change_answer result image.new writes.new ≡ after_rename (stated sectors arrangement) image.old
        old.now new.now writes.old }
{
    tandos::tandos_rename(image, sectors, arrangement, old, new, writes)
}

#[unsafe(no_mangle)]
pub extern "C" fn tandos_protect(
    image: &mut [u8],
    sectors: u32,
    arrangement: u32,
    name: &[u8],
    on: u32,
    writes: &mut [u8],
) -> Filled
    ensures { change_answer result image.new writes.new ≡ after_protect (stated sectors arrangement) image.old
        name.now on writes.old }
{
    tandos::tandos_protect(image, sectors, arrangement, name, on, writes)
}

#[unsafe(no_mangle)]
pub extern "C" fn tandos_replay(
    image: &mut [u8],
    sectors: u32,
    arrangement: u32,
    writes: &[u8],
) -> u32
    ensures { answered result image.new ≡ after_replay (stated sectors arrangement) image.old writes.now }
{
    tandos::tandos_replay(image, sectors, arrangement, writes)
}

#[unsafe(no_mangle)]
pub extern "C" fn tandos_repair(image: &mut [u8], sectors: u32, arrangement: u32) -> u32
    ensures { answered result image.new ≡ after_repair (stated sectors arrangement) image.old }
{
    tandos::tandos_repair(image, sectors, arrangement)
}

#[unsafe(no_mangle)]
pub extern "C" fn tandos_blank(image: &mut [u8], sectors: u32, arrangement: u32, name: &[u8]) -> u32
    ensures { answered result image.new ≡ after_blank (stated sectors arrangement) image.old name.now }
{
    tandos::tandos_blank(image, sectors, arrangement, name)
}

#[unsafe(no_mangle)]
pub extern "C" fn tandos_view_number(
    image: &[u8],
    sectors: u32,
    arrangement: u32,
    track: u32,
    sector: u32,
) -> u32
    ensures { result ≡ view_number (stated sectors arrangement) image.now track sector }
{
    tandos::tandos_view_number(image, sectors, arrangement, track, sector)
}

#[unsafe(no_mangle)]
pub extern "C" fn tandos_view_start(
    image: &[u8],
    sectors: u32,
    arrangement: u32,
    track: u32,
    sector: u32,
) -> u32
    ensures { result ≡ (view_part (stated sectors arrangement) image.now track sector).at }
{
    tandos::tandos_view_start(image, sectors, arrangement, track, sector)
}

#[unsafe(no_mangle)]
pub extern "C" fn tandos_add_sheet(totals: &mut [u32], sheet: &[u8]) -> u32
    ensures { record { number = result; totals = totals.new } ≡ after_sheet totals.old sheet.now }
{
    tandos::tandos_add_sheet(totals, sheet)
}
