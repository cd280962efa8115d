// Load modules: what one can be, how many sectors it takes, and writing each of them with its link.
#![tactic(auto)]

ghost use Rattle.std.specs.Prelude.{◌≡◌, ◌&&◌, ◌+◌, ◌-◌, ◌≤◌, ◌<◌, [], ◌++◌, leb, length, get_or, set, take, drop, replicate};
ghost use Rattle.lists.specs.Lists.{padded};
ghost use Rattle.format.specs.Layout.{link_bytes};
ghost use Rattle.format.specs.Modules.{sectors_for, first_body, later_body, bodies};
ghost use Rattle.format.specs.ModuleLaws.{IsModule};
ghost use Rattle.geometry.specs.Meaning.{geo, sectors_of, Image};
ghost use Rattle.disc.specs.Meaning.{meaning, stored_at, Inside};
ghost use Rattle.modules.specs.Meaning.{module_of, PartLength};

use disc::Link;
use geometry::{Geometry, SectorNo};

// ---- where things stand in a module's sectors

// Offsets in the first sector: of the byte that it begins with, of its numbers, of its length byte, and of the module's bytes.
pub const BEGINNING: usize = 2;

pub const PAGE: usize = 3;

pub const START: usize = 4;

pub const END: usize = 6;

pub const TRANSFER: usize = 8;

pub const FIRST_LENGTH: usize = 10;

pub const FIRST_BYTES: usize = 11;

// Offsets in a later sector.
pub const LATER_LENGTH: usize = 2;

pub const LATER_BYTES: usize = 3;

// How many of a module's bytes the first sector has room for, and each later one.
pub const FIRST_ROOM: usize = 245;

pub const LATER_ROOM: usize = 253;

// What a first sector begins with.
pub const MODULE: u8 = 0xFF;

// ---- what a module can be

// Whether a module can have this page.
pub fn is_page(page: u32) -> bool
    ensures { result ≡ leb page 7 }
{
    page <= 7
}

// Whether a module can have this page and start address and so many bytes.
pub fn is_module(page: u32, start: u16, size: usize) -> bool
    ensures { result ≡ leb page 7 && leb 1 size && leb (start + size) 65536 }
{
    is_page(page) && 1 <= size && size <= 65536 - start as usize
}

// How many sectors a module of so many bytes takes.
pub fn sectors_for(size: usize) -> usize
    requires { size ≤ 65536 }
    ensures { result ≡ sectors_for size }
{
    if size <= FIRST_ROOM {
        return 1;
    }
    1 + (size - FIRST_ROOM + 252) / LATER_ROOM
}

// ---- its sectors written

// Stores zeros in sector n from offset k on.
fn clear_from(image: &mut [u8], g: Geometry, n: SectorNo, k: usize)
    requires { Image g image.old × (n.0 < g.sectors) × (k ≤ 256) }
    ensures { sectors_of g image.new ≡ stored_at (sectors_of g image.old) n.0 k (replicate (256 - k) 0) }
{
    let start = geometry::start_of(g, n);
    byte_loops::fill(image, start + k, start + 256, 0);
}

// Writes the whole of sector n: its link, and after it the bytes of `head` and of `part`, then zeros.
pub fn put_body(
    image: &mut [u8],
    g: Geometry,
    n: SectorNo,
    next: Link<SectorNo>,
    head: &[u8],
    part: &[u8],
)
    requires { Image g image.old × (n.0 < g.sectors) × Inside g next × (length head.now + length part.now ≤ 254) }
    ensures { sectors_of g image.new ≡ set (sectors_of g image.old) n.0
        (link_bytes (geo g) (meaning next) ++ padded 254 0 (head.now ++ part.now)) }
{
    disc::put_link(image, g, n, next);
    disc::put(image, g, n, 2, head);
    disc::put(image, g, n, 2 + head.len(), part);
    clear_from(image, g, n, 2 + head.len() + part.len());
}

// How many bytes there are from offset `at` on, at most `most`.
fn part_len(bytes: &[u8], at: usize, most: usize) -> usize
    requires { at ≤ length bytes.now }
    ensures { PartLength bytes.now at most result }
{
    most.min(bytes.len() - at)
}

// A module's numbers; its bytes are lent beside them.
#[derive(Clone, Copy)]
pub struct Numbers {
    pub page: u8,
    pub start: u16,
    pub transfer: u16,
}

// Writes sector n as the first of a module.
fn put_first(
    image: &mut [u8],
    g: Geometry,
    n: SectorNo,
    next: Link<SectorNo>,
    m: Numbers,
    bytes: &[u8],
)
    requires { Image g image.old × (n.0 < g.sectors) × Inside g next × IsModule (module_of m bytes.now) }
    ensures { sectors_of g image.new ≡ set (sectors_of g image.old) n.0
        (link_bytes (geo g) (meaning next) ++ first_body (module_of m bytes.now)) }
{
    let end = m.start as usize + bytes.len() - 1;
    let starts = byte_loops::word_bytes(m.start as usize);
    let ends = byte_loops::word_bytes(end);
    let transfers = byte_loops::word_bytes(m.transfer as usize);
    let at: usize = 0;
    let size = part_len(bytes, at, FIRST_ROOM);
    let head = [
        MODULE,
        m.page,
        starts[0],
        starts[1],
        ends[0],
        ends[1],
        transfers[0],
        transfers[1],
        size as u8,
    ];
    put_body(image, g, n, next, &head, &bytes[at..size]);
}

// Writes sector n as a later one of a module, with its bytes from offset `at` on.
fn put_later(
    image: &mut [u8],
    g: Geometry,
    n: SectorNo,
    next: Link<SectorNo>,
    bytes: &[u8],
    at: usize,
)
    requires { Image g image.old × (n.0 < g.sectors) × Inside g next × (at ≤ length bytes.now) }
    ensures { sectors_of g image.new ≡ set (sectors_of g image.old) n.0
        (link_bytes (geo g) (meaning next) ++ later_body (take 253 (drop at bytes.now))) }
{
    let size = part_len(bytes, at, LATER_ROOM);
    let head = [size as u8];
    let end = at + size;
    put_body(image, g, n, next, &head, &bytes[at..end]);
}

// Writes sector n as sector j, from 0 on, of a module.
pub fn put_nth(
    image: &mut [u8],
    g: Geometry,
    n: SectorNo,
    next: Link<SectorNo>,
    m: Numbers,
    bytes: &[u8],
    j: usize,
)
    requires { Image g image.old × (n.0 < g.sectors) × Inside g next × IsModule (module_of m bytes.now) × (j < sectors_for (length bytes.now)) }
    ensures { sectors_of g image.new ≡ set (sectors_of g image.old) n.0
        (link_bytes (geo g) (meaning next) ++ get_or (bodies (module_of m bytes.now)) j []) }
{
    if j == 0 {
        put_first(image, g, n, next, m, bytes);
    } else {
        put_later(image, g, n, next, bytes, FIRST_ROOM + LATER_ROOM * (j - 1));
    }
}
