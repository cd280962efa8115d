// The blank disc.
#![tactic(auto)]

ghost use Rattle.std.specs.Prelude.{◌≡◌, ◌+◌, ◌*◌, ◌%◌, ◌-◌, ◌≤◌, ◌<◌, ◌∷◌, ◌++◌, set, replicate};
ghost use Rattle.format.specs.Geometry.{sectors, sector_number, go, sector, written};
ghost use Rattle.format.specs.Layout.{version_offset, pair_bytes};
ghost use Rattle.format.specs.Effects.{body, head_of, chained, version, blank_directory, blank_free, blank_system, blank_disc};
ghost use Rattle.format.specs.Calls.{answered, after_blank};
ghost use Rattle.geometry.specs.Meaning.{kind_of, geo, sectors_of, Valid, Image};
ghost use Rattle.refusals.specs.Meaning.{number_of_answer};
ghost use Rattle.disc.specs.Meaning.{stored_at};
ghost use Rattle.passing.specs.Meaning.{Stop, Stops, Passed};
ghost use Rattle.blank.specs.Meaning.{Bare};
ghost use Rattle.blank.specs.Links.{Linked};

use disc::{Address, Link};
use geometry::{Geometry, Stated};
use names::Name;
use refusals::Refusal;

// 0/1 and 0/4, which the chain passes first, are taken.
const TAKEN: usize = 2;

// Writes the link of a sector that has zeros after it.
fn link_to(image: &mut [u8], g: Geometry, track: usize, from: u16, to: Address)
    requires { Image g image.old × (track < g.tracks) × Stop g (from % 256) from
        × (body (sector (sectors_of g image.old) (sector_number (geo g) track (from % 256))) ≡ replicate 254 0) }
    ensures { sectors_of g image.new ≡
        set (sectors_of g image.old) (sector_number (geo g) track (from % 256)) (to.track ∷ to.sector ∷ replicate 254 0) }
{
    let link = [to.track, to.sector];
    disc::put_in(image, g, passing::stop_on(g, track, from), 0, &link);
}

// What the chain passes after a track: the first sector of the next one, or nothing.
fn after_track(g: Geometry, stops: &[u16], track: usize) -> Address
    requires { Valid g × Stops g stops.now × (track < g.tracks) }
    ensures { Passed g ((geo g).per_track * (track + 1)) result }
{
    if track + 1 < g.tracks {
        return Address {
            track: (track + 1) as u8,
            sector: passing::sector_of_stop(stops[0]),
        };
    }
    disc::NOWHERE
}

// Writes the links of a track, from position `first` on, into sectors of zeros.
fn put_track(image: &mut [u8], g: Geometry, stops: &[u16], track: usize, first: usize)
    requires { Image g image.old × Stops g stops.now × (track < g.tracks) × (first < (geo g).per_track)
        × (2 ≤ (geo g).per_track * track + first) × Bare (sectors_of g image.old) }
    ensures { Linked g ((geo g).per_track * track + first) ((geo g).per_track * (track + 1)) image.old image.new }
{
    let mut here = stops[first];
    for i in first..g.per_track - 1 {
        let next = stops[i + 1];
        let to = Address {
            track: track as u8,
            sector: passing::sector_of_stop(next),
        };
        link_to(image, g, track, here, to);
        here = next;
    }
    link_to(image, g, track, here, after_track(g, stops, track));
}

// Writes the links of the free chain into sectors of zeros.
fn put_chain(image: &mut [u8], g: Geometry, stops: &[u16])
    requires { Image g image.old × Stops g stops.now × Bare (sectors_of g image.old) }
    ensures { sectors_of g image.new ≡
        written (chained (geo g) (blank_free (geo g)) (replicate (sectors (geo g) - 2) (replicate 254 0))) (sectors_of g image.old) }
{
    put_track(image, g, stops, 0, TAKEN);
    for track in 1..g.tracks {
        put_track(image, g, stops, track, 0);
    }
}

// The free pointer, at the first sector that is free, and the directory pointer.
fn pointers(g: Geometry, stops: &[u16]) -> [u8; 4]
    requires { Valid g × Stops g stops.now }
    ensures { result ≡ pair_bytes (geo g) (head_of (blank_free (geo g))) ++ pair_bytes (geo g) (go (blank_directory (geo g))) }
{
    let directory = disc::address_of(g, Link::To(geometry::number_of(g, 0, 4)));
    [
        passing::sector_of_stop(stops[TAKEN]),
        0,
        directory.sector,
        directory.track,
    ]
}

// Writes the version into the system sector.
#[tactic(auto, unfolding(format::specs::Effects::version))]
fn put_version(image: &mut [u8], g: Geometry)
    requires { Image g image.old }
    ensures { sectors_of g image.new ≡ stored_at (sectors_of g image.old) 0 version_offset version }
{
    disc::put(
        image,
        g,
        system::SYSTEM,
        system::VERSION,
        b"TANDOS 65 IMAGE 1",
    );
}

// Writes the system sector of a blank disc over zeros.
fn put_blank_system(image: &mut [u8], g: Geometry, stops: &[u16], name: Name)
    requires { Image g image.old × Stops g stops.now × (sector (sectors_of g image.old) 0 ≡ replicate 256 0) }
    ensures { sectors_of g image.new ≡ set (sectors_of g image.old) 0 (blank_system (geo g) name.bytes) }
{
    let pairs = pointers(g, stops);
    disc::put(image, g, system::SYSTEM, system::FREE_POINTER, &pairs);
    let free = byte_loops::word_bytes(g.sectors - TAKEN);
    let counts = [free[0], free[1], 0, 0];
    disc::put(image, g, system::SYSTEM, system::FREE_COUNT, &counts);
    let nine = name.bytes;
    disc::put(image, g, system::SYSTEM, system::DISC_NAME, &nine);
    put_version(image, g);
}

// Makes the whole image a blank disc.
fn blank_on(image: &mut [u8], g: Geometry, name: Name)
    requires { Image g image.old }
    ensures { sectors_of g image.new ≡ blank_disc (geo g) name.bytes }
{
    let stops = passing::stops(g);
    image.fill(0);
    put_blank_system(image, g, &stops, name);
    put_chain(image, g, &stops);
}

pub fn blank(image: &mut [u8], stated: Stated, name: &[u8]) -> Result<(), Refusal>
    ensures { answered (number_of_answer result) image.new ≡ after_blank (kind_of stated) image.old name.now }
{
    let g = geometry::geometry_of(stated, image.len())?;
    let stored = names::disc_name(name)?;
    blank_on(image, g, stored);
    Ok(())
}
