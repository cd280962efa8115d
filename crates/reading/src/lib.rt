// Reading a load module back: whether a file's sectors hold one, its numbers, and its bytes; and read, the public call.
#![tactic(auto)]

ghost use Rattle.std.specs.Prelude.{◌≡◌, ◌+◌, ◌-◌, ◌≤◌, ◌<◌, true, ◌&&◌, cond, length, drop, eqb, leb};
ghost use Rattle.lists.specs.Lists.{all, front};
ghost use Rattle.format.specs.Geometry.{go, sector};
ghost use Rattle.format.specs.Layout.{length_of, link_of};
ghost use Rattle.format.specs.Modules.{plain};
ghost use Rattle.format.specs.Effects.{reading};
ghost use Rattle.format.specs.Calls.{read_on, read_answer_by, after_read};
ghost use Rattle.format.specs.RuleLaws.{GoodChain};
ghost use Rattle.geometry.specs.Meaning.{kind_of, geo, sectors_of, Image};
ghost use Rattle.disc.specs.Meaning.{Lies};
ghost use Rattle.slots.specs.Meaning.{slot_of};
ghost use Rattle.reading.specs.Plain.{filled, numbered, headed, later_filled};
ghost use Rattle.reading.specs.Meaning.{header_of, bytes_in, numbers_in, leads, body_of, file_bodies, bodies_after, File, Copied};
ghost use Rattle.reading.specs.Answer.{reading_of, read_answer, file_on};

mod answer;

pub use answer::{Header, Reading};
use disc::{Link, Sector};
use geometry::{Geometry, SectorNo, Stated};
use refusals::Refusal;
use slots::SlotNo;

// Whether the bytes of sector s from offset k on are zero.
fn zero_from(image: &[u8], g: Geometry, s: Sector, k: usize) -> bool
    requires { Image g image.now × Lies g s × (k ≤ 256) }
    ensures { result ≡ all (eqb 0) (drop k (sector (sectors_of g image.now) s.number.0)) }
{
    let start = s.start;
    byte_loops::are_all(image, start + k, start + 256, 0)
}

// Whether sector s is filled from its length byte at offset k on, where so many bytes are left.
fn filled_at(image: &[u8], g: Geometry, s: Sector, k: usize, left: usize) -> bool
    requires { Image g image.now × Lies g s × (k < 256) }
    ensures { result ≡ filled left (drop k (sector (sectors_of g image.now) s.number.0)) }
{
    let size = left.min(255 - k);
    if disc::byte_in(image, g, s, k) as usize != size {
        return false;
    }
    zero_from(image, g, s, k + 1 + size)
}

// Whether a first sector can begin with $FF in place of `mark` and these numbers.
fn numbers_ok(mark: u8, page: u8, start: u16, end: u16) -> bool
    ensures { result ≡ eqb mark 0xFF && leb page 7 && leb start end }
{
    mark == modules::MODULE && modules::is_page(page as u32) && start <= end
}

// The numbers in sector n, if they can be those of the first sector of a module.
fn numbers_of(image: &[u8], g: Geometry, n: SectorNo) -> Option<Header>
    requires { Image g image.now × (n.0 < g.sectors) }
    ensures { let b = body_of g image.now n.0 in
        result ≡ cond (numbered b) (Some (numbers_in b)) None }
{
    let mark = disc::byte_of(image, g, n, modules::BEGINNING);
    let page = disc::byte_of(image, g, n, modules::PAGE);
    let start = disc::word_of(image, g, n, modules::START);
    let end = disc::word_of(image, g, n, modules::END);
    if !numbers_ok(mark, page, start, end) {
        return None;
    }
    let length = (end as usize + 1).saturating_sub(start as usize);
    Some(Header {
        page,
        start,
        end,
        transfer: disc::word_of(image, g, n, modules::TRANSFER),
        length: length as u32,
    })
}

// The header in sector s, if it is the first of a module that takes `count` sectors.
fn first_header(image: &[u8], g: Geometry, s: Sector, count: usize) -> Option<Header>
    requires { Image g image.now × Lies g s }
    ensures { let b = body_of g image.now s.number.0 in
        result ≡ cond (headed b count) (Some (numbers_in b)) None }
{
    let header = numbers_of(image, g, s.number)?;
    let length = header.length as usize;
    if modules::sectors_for(length) != count {
        return None;
    }
    if !filled_at(image, g, s, modules::FIRST_LENGTH, length) {
        return None;
    }
    Some(header)
}

// The sector that the link of sector s leads to. The caller knows that it leads to one, so the link is not tested.
fn next_of(image: &[u8], g: Geometry, s: Sector) -> Sector
    requires { Image g image.now × Lies g s × (leads (link_of (geo g) (sector (sectors_of g image.now) s.number.0)) ≡ true) }
    ensures { (go result.number.0 ≡ link_of (geo g) (sector (sectors_of g image.now) s.number.0)) × Lies g result }
{
    let track = disc::byte_in(image, g, s, 0);
    let sector = disc::byte_in(image, g, s, 1);
    disc::sector_at(g, track as usize, sector as usize)
}

// Whether the sectors after the first of a file are filled with what is left of a module of so many bytes.
fn later_filled(image: &[u8], g: Geometry, first: Sector, count: usize, length: usize) -> bool
    requires { File g image.now first.number.0 count × Lies g first }
    ensures { result ≡ later_filled (length - 245) (bodies_after g image.now first.number.0 (count - 1)) }
{
    let mut left = length.saturating_sub(modules::FIRST_ROOM);
    let mut s = first;
    for j in 1..count {
        s = next_of(image, g, s);
        if !filled_at(image, g, s, modules::LATER_LENGTH, left) {
            return false;
        }
        left = left.saturating_sub(modules::LATER_ROOM);
    }
    true
}

// The header of the module in a file of `count` sectors from `first` on.
fn plain_header(image: &[u8], g: Geometry, first: Sector, count: usize) -> Option<Header>
    requires { File g image.now first.number.0 count × Lies g first }
    ensures { result ≡ header_of (plain (file_bodies g image.now first.number.0 count)) }
{
    let header = first_header(image, g, first, count)?;
    if !later_filled(image, g, first, count, header.length as usize) {
        return None;
    }
    Some(header)
}

// Copies the bytes of sector s from offset k on into the buffer from position `at` on, up to `end`. Gives the position after them.
fn copy_part(
    image: &[u8],
    g: Geometry,
    s: Sector,
    k: usize,
    buffer: &mut [u8],
    at: usize,
    end: usize,
) -> usize
    requires { Image g image.now × Lies g s × (k ≤ 256) × (at ≤ end) × (end ≤ length buffer.old) }
    ensures { Copied (sector (sectors_of g image.now) s.number.0) k buffer.old buffer.new at end result }
{
    let start = s.start + k;
    let size = (end - at).min(256 - k);
    let stop = start + size;
    byte_loops::copy(buffer, at, &image[start..stop]);
    at + size
}

// The bytes of a sector after the file's first. A sector that is copied whole is a case of its own: its copy has a fixed length, which is
// quicker.
fn copy_later(
    image: &[u8],
    g: Geometry,
    s: Sector,
    buffer: &mut [u8],
    at: usize,
    end: usize,
) -> usize
    requires { Image g image.now × Lies g s × (at ≤ end) × (end ≤ length buffer.old) }
    ensures { Copied (sector (sectors_of g image.now) s.number.0) 3 buffer.old buffer.new at end result }
{
    if modules::LATER_ROOM <= end - at {
        return copy_part(
            image,
            g,
            s,
            modules::LATER_BYTES,
            buffer,
            at,
            at + modules::LATER_ROOM,
        );
    }
    copy_part(image, g, s, modules::LATER_BYTES, buffer, at, end)
}

// Copies the bytes of the module in a file of `count` sectors from `first` on to the front of the buffer; `size` is how many they are.
fn copy_module(
    image: &[u8],
    g: Geometry,
    first: Sector,
    count: usize,
    size: usize,
    buffer: &mut [u8],
)
    requires { File g image.now first.number.0 count
        × (size ≡ length (bytes_in (plain (file_bodies g image.now first.number.0 count)))) × (size ≤ length buffer.old) × Lies g first }
    ensures { buffer.new ≡ front (bytes_in (plain (file_bodies g image.now first.number.0 count))) buffer.old }
{
    let mut at = copy_part(image, g, first, modules::FIRST_BYTES, buffer, 0, size);
    let mut s = first;
    for j in 1..count {
        s = next_of(image, g, s);
        at = copy_later(image, g, s, buffer, at, size);
    }
}

// The refusals 9 and 10, then the module in a file of `count` sectors from `first` on.
fn read_module(
    image: &[u8],
    g: Geometry,
    first: SectorNo,
    count: usize,
    buffer: &mut [u8],
) -> Result<Header, Refusal>
    requires { File g image.now first.0 count }
    ensures { let b = buffer.old in
        read_answer (reading_of result) buffer.new ≡ read_answer_by b (file_on (plain (file_bodies g image.now first.0 count)) (length b)) }
{
    let at = disc::sector_of(g, first);
    let Some(header) = plain_header(image, g, at, count) else {
        return Err(Refusal::NotPlain);
    };
    let size = header.length as usize;
    if buffer.len() < size {
        return Err(Refusal::Short);
    }
    copy_module(image, g, at, count, size, buffer);
    Ok(header)
}

// The same for the file of the entry in a slot. The caller knows that the disc is sound, so the entry leads to a sector.
fn read_file(image: &[u8], g: Geometry, slot: SlotNo, buffer: &mut [u8]) -> Result<Header, Refusal>
    requires { let d = sectors_of g image.now in
        let s = slot_of d slot in
        Image g image.now × (slot.sector.0 < g.sectors) × GoodChain (geo g) d s × (1 ≤ length_of s) }
    ensures { let d = sectors_of g image.now in
        let b = buffer.old in
        read_answer (reading_of result) buffer.new ≡ read_answer_by b (file_on (reading (geo g) d (slot_of d slot)) (length b)) }
{
    let entry = slots::entry_of(image, g, slot);
    let Link::To(first) = entry.first else {
        unreachable!();
    };
    read_module(image, g, first, entry.length as usize, buffer)
}

fn read_on(image: &[u8], g: Geometry, name: &[u8], buffer: &mut [u8]) -> Result<Header, Refusal>
    requires { Image g image.now }
    ensures { let b = buffer.old in
        read_answer (reading_of result) buffer.new ≡ read_answer_by b (read_on (geo g) (sectors_of g image.now) name.now (length b)) }
{
    let slot = lookup::entry_on(image, g, name)?;
    read_file(image, g, slot, buffer)
}

pub fn read(image: &[u8], stated: Stated, name: &[u8], buffer: &mut [u8]) -> Result<Header, Refusal>
    ensures { read_answer (reading_of result) buffer.new ≡ after_read (kind_of stated) image.now name.now buffer.old }
{
    let g = geometry::geometry_of(stated, image.len())?;
    read_on(image, g, name, buffer)
}

impl From<Result<Header, Refusal>> for Reading {
    ghost from_gives = { λ answer r. r ≡ reading_of answer };

    // With a refusal every other number is 0.
    fn from(answer: Result<Header, Refusal>) -> Reading {
        match answer {
            Ok(header) => Reading {
                number: refusals::DONE,
                page: header.page as u32,
                start: header.start as u32,
                end: header.end as u32,
                transfer: header.transfer as u32,
                length: header.length,
            },
            Err(refusal) => Reading {
                number: u32::from(refusal),
                page: 0,
                start: 0,
                end: 0,
                transfer: 0,
                length: 0,
            },
        }
    }
}
