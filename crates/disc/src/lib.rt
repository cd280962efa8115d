// The sectors of a disc image: their bytes, words, links and pairs, read and written where they lie.
#![tactic(auto)]

ghost use Rattle.std.specs.Prelude.{◌≡◌, ◌+◌, ◌*◌, ◌%◌, ◌≤◌, ◌<◌, true, length, set};
ghost use Rattle.lists.specs.Lists.{byte, word_at};
ghost use Rattle.format.specs.Geometry.{on_disc, sector_number, pointed, sector, track_of, sector_of};
ghost use Rattle.format.specs.Layout.{link_offset, link_of, pair_at, track_byte, sector_byte, link_bytes};
ghost use Rattle.geometry.specs.Meaning.{geo, sectors_of, Valid, Image};
ghost use Rattle.disc.specs.Meaning.{meaning, stored_at, Inside, Lies, led, Reaches};

use geometry::{Geometry, SectorNo};

// A sector, and where it starts in the image: for several bytes of one sector, and for the way along a chain.
#[derive(Clone, Copy)]
pub struct Sector {
    pub number: SectorNo,
    pub start: usize,
}

pub fn sector_of(g: Geometry, n: SectorNo) -> Sector
    requires { Valid g × (n.0 < g.sectors) }
    ensures { (result.number.0 ≡ n.0) × Lies g result }
{
    Sector {
        number: n,
        start: geometry::start_of(g, n),
    }
}

// Sector s of track t. Number and start share one product, for which a walk along a chain waits at each step.
pub fn sector_at(g: Geometry, track: usize, sector: usize) -> Sector
    requires { Valid g × (on_disc (geo g) track sector ≡ true) }
    ensures { (result.number.0 ≡ sector_number (geo g) track sector) × Lies g result }
{
    let number = geometry::number_of(g, track, sector);
    let per_track = g.per_track;
    let offset = geometry::offset_of(g, sector);
    Sector {
        number,
        start: 256 * (per_track * track) + offset,
    }
}

// What a track and a sector byte lead to: the end of a chain, a sector of the disc, which T names, or no sector of the disc.
#[derive(Clone, Copy)]
pub enum Link<T> {
    End,
    To(T),
    Off,
}

fn step_at(g: Geometry, track: u8, sector: u8) -> Link<Sector>
    requires { Valid g }
    ensures { (led result ≡ pointed (geo g) track sector) × Reaches g result }
{
    if sector == 0 {
        return Link::End;
    }
    let t = track as usize;
    let s = sector as usize;
    if geometry::on_disc(g, t, s) {
        return Link::To(sector_at(g, t, s));
    }
    Link::Off
}

// The same by the sector's number alone.
pub fn pointed_at(g: Geometry, track: u8, sector: u8) -> Link<SectorNo>
    requires { Valid g }
    ensures { meaning result ≡ pointed (geo g) track sector }
{
    match step_at(g, track, sector) {
        Link::End => Link::End,
        Link::Off => Link::Off,
        Link::To(s) => {
            let n = s.number;
            Link::To(n)
        }
    }
}

// The step to where a link leads.
pub fn step_to(g: Geometry, to: Link<SectorNo>) -> Link<Sector>
    requires { Valid g × Inside g to }
    ensures { (led result ≡ meaning to) × Reaches g result }
{
    match to {
        Link::End => Link::End,
        Link::Off => Link::Off,
        Link::To(n) => Link::To(sector_of(g, n)),
    }
}

// Where the pair at offset k of sector n leads.
pub fn step_of(image: &[u8], g: Geometry, n: SectorNo, k: usize) -> Link<Sector>
    requires { Image g image.now × (n.0 < g.sectors) × (k + 1 < 256) }
    ensures { (led result ≡ pair_at (geo g) (sector (sectors_of g image.now) n.0) k) × Reaches g result }
{
    let at = geometry::start_of(g, n) + k;
    step_at(g, image[at + 1], image[at])
}

// Where the link of a sector leads.
pub fn step_from(image: &[u8], g: Geometry, s: Sector) -> Link<Sector>
    requires { Image g image.now × Lies g s }
    ensures { (led result ≡ link_of (geo g) (sector (sectors_of g image.now) s.number.0)) × Reaches g result }
{
    let start = s.start;
    step_at(g, image[start], image[start + 1])
}

// Byte k of sector n.
pub fn byte_of(image: &[u8], g: Geometry, n: SectorNo, k: usize) -> u8
    requires { Image g image.now × (n.0 < g.sectors) × (k < 256) }
    ensures { result ≡ byte (sector (sectors_of g image.now) n.0) k }
{
    image[geometry::start_of(g, n) + k]
}

// Byte k of a sector whose start is known.
pub fn byte_in(image: &[u8], g: Geometry, s: Sector, k: usize) -> u8
    requires { Image g image.now × Lies g s × (k < 256) }
    ensures { result ≡ byte (sector (sectors_of g image.now) s.number.0) k }
{
    let start = s.start;
    image[start + k]
}

// The sixteen bits at offset k of sector n, low byte first.
pub fn word_of(image: &[u8], g: Geometry, n: SectorNo, k: usize) -> u16
    requires { Image g image.now × (n.0 < g.sectors) × (k + 1 < 256) }
    ensures { result ≡ word_at (sector (sectors_of g image.now) n.0) k }
{
    let at = geometry::start_of(g, n) + k;
    byte_loops::word(image[at], image[at + 1])
}

// Where the link of sector n leads.
pub fn link_of(image: &[u8], g: Geometry, n: SectorNo) -> Link<SectorNo>
    requires { Image g image.now × (n.0 < g.sectors) }
    ensures { meaning result ≡ link_of (geo g) (sector (sectors_of g image.now) n.0) }
{
    let start = geometry::start_of(g, n);
    pointed_at(g, image[start], image[start + 1])
}

// Where the pair at offset k of sector n leads.
pub fn pair_of(image: &[u8], g: Geometry, n: SectorNo, k: usize) -> Link<SectorNo>
    requires { Image g image.now × (n.0 < g.sectors) × (k + 1 < 256) }
    ensures { meaning result ≡ pair_at (geo g) (sector (sectors_of g image.now) n.0) k }
{
    let at = geometry::start_of(g, n) + k;
    pointed_at(g, image[at + 1], image[at])
}

// Stores the bytes of `from` in sector n, from offset k on.
pub fn put(image: &mut [u8], g: Geometry, n: SectorNo, k: usize, from: &[u8])
    requires { Image g image.old × (n.0 < g.sectors) × (k + length from.now ≤ 256) }
    ensures { sectors_of g image.new ≡ stored_at (sectors_of g image.old) n.0 k from.now }
{
    put_in(image, g, sector_of(g, n), k, from);
}

// The same in a sector whose start is known.
pub fn put_in(image: &mut [u8], g: Geometry, s: Sector, k: usize, from: &[u8])
    requires { Image g image.old × Lies g s × (k + length from.now ≤ 256) }
    ensures { sectors_of g image.new ≡ stored_at (sectors_of g image.old) s.number.0 k from.now }
{
    byte_loops::copy(image, s.start + k, from);
}

// Writes the whole of sector n.
pub fn put_sector(image: &mut [u8], g: Geometry, n: SectorNo, from: &[u8])
    requires { Image g image.old × (n.0 < g.sectors) × (length from.now ≡ 256) }
    ensures { sectors_of g image.new ≡ set (sectors_of g image.old) n.0 from.now }
{
    put(image, g, n, 0, from);
}

// A track and a sector byte; both are zero where there is no sector.
#[derive(Clone, Copy)]
pub struct Address {
    pub track: u8,
    pub sector: u8,
}

// Track and sector of sector n.
fn address_at(g: Geometry, n: SectorNo) -> Address
    requires { Valid g × (n.0 < g.sectors) }
    ensures { (result.track ≡ track_of (geo g) n.0) × (result.sector ≡ sector_of (geo g) n.0) }
{
    Address {
        track: (n.0 / g.per_track) as u8,
        sector: (n.0 % g.per_track + 1) as u8,
    }
}

// What is written for the end of a chain, and for a pointer to none.
pub const NOWHERE: Address = Address {
    track: 0,
    sector: 0,
};

pub fn address_of(g: Geometry, to: Link<SectorNo>) -> Address
    requires { Valid g × Inside g to }
    ensures { (result.track ≡ track_byte (geo g) (meaning to)) × (result.sector ≡ sector_byte (geo g) (meaning to)) }
{
    match to {
        Link::To(n) => address_at(g, n),
        Link::End | Link::Off => NOWHERE,
    }
}

// Writes the link of sector n.
pub fn put_link(image: &mut [u8], g: Geometry, n: SectorNo, to: Link<SectorNo>)
    requires { Image g image.old × (n.0 < g.sectors) × Inside g to }
    ensures { sectors_of g image.new ≡ stored_at (sectors_of g image.old) n.0 link_offset (link_bytes (geo g) (meaning to)) }
{
    let address = address_of(g, to);
    let link = [address.track, address.sector];
    put(image, g, n, 0, &link);
}
