// The repair of a disc whose rules 1 to 5 hold: every sector that neither the directory nor a file meets goes into a new free chain.
#![tactic(auto)]

ghost use Rattle.std.specs.Prelude.{◌≡◌, ◌+◌, ◌*◌, ◌≤◌, ◌<◌};
ghost use Rattle.format.specs.Calls.{answered, repair_on, after_repair};
ghost use Rattle.geometry.specs.Meaning.{kind_of, geo, sectors_of, Image};
ghost use Rattle.passing.specs.Meaning.{Stops};
ghost use Rattle.refusals.specs.Meaning.{number_of_answer};
ghost use Rattle.answers.specs.Meaning.{Leaves};
ghost use Rattle.repairing.specs.Meaning.{Threaded, Extends};

use disc::Address;
use geometry::{Geometry, Stated};
use refusals::Refusal;

// A chain so far: where it begins, as track and sector byte (zeros: nowhere), and how many sectors it has.
#[derive(Clone, Copy)]
struct Chain {
    first: Address,
    count: usize,
}

// Threads the sectors of a track that have no mark before a chain, from the last that the passing order passes to the first.
fn thread_track(
    image: &mut [u8],
    g: Geometry,
    marks: &[u8; 800],
    stops: &[u16],
    track: usize,
    after: Chain,
) -> Chain
    requires { Image g image.old × Stops g stops.now × (track < g.tracks) × (after.count + (geo g).per_track * (track + 1) ≤ g.sectors) }
    ensures { Extends g marks.now ((geo g).per_track * (track + 1)) after.first after.count image.old
        ((geo g).per_track * track) result.first result.count image.new }
{
    // As one number, since its two bytes are stored together: apart, they are put together at each sector, a sixth of a repair of an empty disc.
    let mut link = byte_loops::word(after.first.track, after.first.sector);
    let mut count = after.count;
    for i in (0..g.per_track).rev() {
        let stop = stops[i];
        let sector = passing::stop_on(g, track, stop);
        let is_met = marks[sector.number.0] != 0;
        if is_met {
            continue;
        }
        disc::put_in(image, g, sector, 0, &link.to_le_bytes());
        link = byte_loops::word(track as u8, passing::sector_of_stop(stop));
        count += 1;
    }
    let [track, sector] = link.to_le_bytes();
    let first = Address { track, sector };
    Chain { first, count }
}

// Threads all sectors without a mark into a chain, in passing order, from its end on.
fn thread(image: &mut [u8], g: Geometry, marks: &[u8; 800]) -> Chain
    requires { Image g image.old }
    ensures { Threaded g marks.now image.old 0 result.first result.count image.new }
{
    let stops = passing::stops(g);
    let mut chain = Chain {
        first: disc::NOWHERE,
        count: 0,
    };
    for track in (0..g.tracks).rev() {
        chain = thread_track(image, g, marks, &stops, track, chain);
    }
    chain
}

fn repair_on(image: &mut [u8], g: Geometry) -> Result<(), Refusal>
    requires { Image g image.old }
    ensures { Leaves g image.old image.new result (repair_on (geo g) (sectors_of g image.old)) }
{
    let mut marks = [0; 800];
    let Ok(used) = fsck::files_stand(image, g, &mut marks) else {
        return Err(Refusal::Unsound);
    };
    let chain = thread(image, g, &marks);
    let first = chain.first;
    let pointer = disc::pointed_at(g, first.track, first.sector);
    system::put_system(image, g, pointer, chain.count, used);
    Ok(())
}

pub fn repair(image: &mut [u8], stated: Stated) -> Result<(), Refusal>
    ensures { answered (number_of_answer result) image.new ≡ after_repair (kind_of stated) image.old }
{
    let g = geometry::geometry_of(stated, image.len())?;
    repair_on(image, g)
}
