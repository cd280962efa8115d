// The geometry of a disc image: what a caller states and the image's length make it, once; and where a sector starts. Only `geometry_of` and the
// functions between (track, sector) and number know how many sectors a track has, and only `offset_of` where a track has a sector; everything
// else is bounded by the number of all sectors.
#![tactic(auto)]

ghost use Rattle.std.specs.Prelude.{◌≡◌, ◌+◌, ◌*◌, ◌%◌, ◌≤◌, ◌<◌, true, length};
ghost use Rattle.format.specs.Geometry.{on_disc, sector_number, sector};
ghost use Rattle.geometry.specs.Meaning.{known, whole_tracks, geo, places_of, place_in, sized_as, Valid, Starts};

use refusals::Refusal;

// A sector's number on the disc: not a byte position, and not a pair of track and sector.
#[derive(Clone, Copy)]
pub struct SectorNo(pub usize);

// What a caller states of an image: the sectors of a track, 9 or 10, and the arrangement, 0 for plain or 1 for moved.
#[derive(Clone, Copy)]
pub struct Stated {
    pub sectors: u32,
    pub arrangement: u32,
}

// One side of a disc: its tracks, the sectors of a track, the sectors in all, and the arrangement of its image: the number stated, and
// the places of a track's sectors 1 to 10, four bits each from the thirteenth bit on. So a sector's start takes no branch and no search.
#[derive(Clone, Copy)]
pub struct Geometry {
    pub tracks: usize,
    pub per_track: usize,
    pub sectors: usize,
    pub arrangement: u32,
    pub places: u64,
}

// Sectors of a track, and of a track of the early discs.
const TEN: usize = 10;

pub const NINE: usize = 9;

const MOST_TRACKS: usize = 80;

// The sectors of a track in the order in which the chain of a blank disc passes them.
pub const ORDER: [u8; 10] = [1, 4, 7, 10, 3, 6, 9, 2, 5, 8];

// The places of sectors in the order of their numbers.
const PLAIN_PLACES: u64 = 0x9876543210000;

// The places of sectors in passing order.
fn moved_places() -> u64
    ensures { result ≡ places_of 1 }
{
    let mut places: u64 = 0;
    for i in 0..TEN {
        places += (i as u64) << (4 * ORDER[i] as u64 + 8);
    }
    places
}

fn places_of(arrangement: u32) -> u64
    requires { arrangement ≤ 1 }
    ensures { result ≡ places_of arrangement }
{
    if arrangement == 1 {
        return moved_places();
    }
    PLAIN_PLACES
}

// There are discs of ten sectors a track, plain and moved, and of nine, plain alone.
fn is_known(stated: Stated) -> bool
    ensures { result ≡ known stated }
{
    match stated.sectors {
        10 => stated.arrangement <= 1,
        9 => stated.arrangement == 0,
        _ => false,
    }
}

// The tracks of K sectors in a length, or 0 where it is not one of whole tracks. K is a constant, since dividing by the number stated would
// cost as much as the rest.
fn tracks_of<const K: usize>(length: usize) -> usize
    requires { (9 ≤ K) × (K ≤ 10) }
    ensures { result ≡ whole_tracks K length }
{
    if length % (256 * K) != 0 {
        return 0;
    }
    length / (256 * K)
}

fn tracks_in(length: usize, sectors: usize) -> usize
    requires { (9 ≤ sectors) × (sectors ≤ 10) }
    ensures { result ≡ whole_tracks sectors length }
{
    if sectors == NINE {
        return tracks_of::<NINE>(length);
    }
    tracks_of::<TEN>(length)
}

// The geometry of an image, or the refusal 1 where there is no such disc.
pub fn geometry_of(stated: Stated, length: usize) -> Result<Geometry, Refusal>
    ensures { result ≡ sized_as stated length }
{
    if !is_known(stated) {
        return Err(Refusal::Size);
    }
    let per_track = stated.sectors as usize;
    let tracks = tracks_in(length, per_track);
    if tracks < 1 || MOST_TRACKS < tracks {
        return Err(Refusal::Size);
    }
    let arrangement = stated.arrangement;
    Ok(Geometry {
        tracks,
        per_track,
        sectors: per_track * tracks,
        arrangement,
        places: places_of(arrangement),
    })
}

pub fn on_disc(g: Geometry, track: usize, sector: usize) -> bool
    ensures { result ≡ on_disc (geo g) track sector }
{
    track < g.tracks && 1 <= sector && sector <= g.per_track
}

pub fn number_of(g: Geometry, track: usize, sector: usize) -> SectorNo
    requires { Valid g × (on_disc (geo g) track sector ≡ true) }
    ensures { result.0 ≡ sector_number (geo g) track sector }
{
    SectorNo(g.per_track * track + sector - 1)
}

// Where a sector starts on its track. Of the bits shifted down, those above the lowest eight are its place: they stand where 256 times the
// place has them.
pub fn offset_of(g: Geometry, sector: usize) -> usize
    requires { Valid g × (1 ≤ sector) × (sector ≤ 10) }
    ensures { (result ≡ 256 * place_in g.arrangement sector) × (result < 2560) }
{
    ((g.places >> (4 * sector as u64)) / 256 % 16 * 256) as usize
}

// The byte position of a sector in its image. By a constant, since dividing by the geometry's number would cost as much as the rest; it
// serves nine sectors a track as well, whose places are their numbers.
pub fn start_of(g: Geometry, n: SectorNo) -> usize
    requires { Valid g × (n.0 < g.sectors) }
    ensures { Starts g n.0 result }
{
    let number = n.0;
    256 * TEN * (number / TEN) + offset_of(g, number % TEN + 1)
}
