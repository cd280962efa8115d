// The passing order: the order in which the chain of a blank disc passes the sectors.
#![tactic(auto)]

ghost use Rattle.std.specs.Prelude.{◌≡◌, ◌%◌, ◌<◌, get_or};
ghost use Rattle.format.specs.Geometry.{sector_number};
ghost use Rattle.geometry.specs.Meaning.{geo, Valid};
ghost use Rattle.disc.specs.Meaning.{Lies};
ghost use Rattle.passing.specs.Meaning.{Stop, Stops};

use disc::Sector;
use geometry::Geometry;

// The order on a track of the early discs; that of ten sectors is the disc's, whose arrangement goes by it too.
const ORDER_OF_NINE: [u8; 9] = [1, 4, 7, 2, 5, 8, 3, 6, 9];

// The sector at position i of the order on a track.
fn order_at(g: Geometry, i: usize) -> u8
    requires { Valid g × (i < (geo g).per_track) }
    ensures { result ≡ get_or (geo g).order i 0 }
{
    if g.per_track == geometry::NINE {
        return ORDER_OF_NINE[i];
    }
    geometry::ORDER[i]
}

// A stop of a blank disc's chain: a sector of a track by its number there, plus 256 times its place. It is one number so that the loop along
// the chain takes one load for each link.
fn stop_at(g: Geometry, i: usize) -> u16
    requires { Valid g × (i < (geo g).per_track) }
    ensures { Stop g (get_or (geo g).order i 0) result }
{
    let sector = order_at(g, i);
    geometry::offset_of(g, sector as usize) as u16 + sector as u16
}

// The stops of a track, in the order in which the chain passes them; of nine the last is none.
pub fn stops(g: Geometry) -> [u16; 10]
    requires { Valid g }
    ensures { Stops g result }
{
    let mut stops = [0; 10];
    for i in 0..g.per_track {
        stops[i] = stop_at(g, i);
    }
    stops
}

// Its sector's number.
pub fn sector_of_stop(stop: u16) -> u8
    ensures { result ≡ stop % 256 }
{
    (stop % 256) as u8
}

// Its sector on a track.
pub fn stop_on(g: Geometry, track: usize, stop: u16) -> Sector
    requires { Valid g × (track < g.tracks) × Stop g (stop % 256) stop }
    ensures { (result.number.0 ≡ sector_number (geo g) track (stop % 256)) × Lies g result }
{
    let number = geometry::number_of(g, track, (stop % 256) as usize);
    let per_track = g.per_track;
    Sector {
        number,
        start: 256 * (per_track * track) + (stop / 256 * 256) as usize,
    }
}
