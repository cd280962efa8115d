// Request e's replayer: writes the sectors of a list to an image, or refuses the whole list and writes nothing.
#![tactic(auto)]

ghost use Rattle.std.specs.Prelude.{◌≡◌, true, [], ◌∷◌};
ghost use Rattle.lists.specs.Lists.{is_some};
ghost use Rattle.format.specs.Geometry.{written};
ghost use Rattle.format.specs.Writes.{held};
ghost use Rattle.format.specs.Calls.{answered, replay_on, after_replay};
ghost use Rattle.geometry.specs.Meaning.{kind_of, geo, sectors_of, Image};
ghost use Rattle.refusals.specs.Meaning.{number_of_answer};
ghost use Rattle.answers.specs.Meaning.{Leaves};
ghost use Rattle.replaying.specs.Meaning.{is_record, write_of, replayed};

use geometry::{Geometry, Stated};
use refusals::Refusal;

// A record of a list: its kind, its track and its sector, and from BYTES on the bytes of the sector.
type Record = [u8; records::WRITE_SIZE];

const KIND: usize = 0;

const TRACK: usize = 1;

const SECTOR: usize = 2;

const BYTES: usize = 3;

// Whether a list may have this record.
#[tactic(auto, unfolding(crate::specs::Meaning::is_record))]
fn is_record(bytes: &Record, g: Geometry) -> bool
    ensures { result ≡ is_record (geo g) bytes.now }
{
    bytes[KIND] == records::WRITE
        && geometry::on_disc(g, bytes[TRACK] as usize, bytes[SECTOR] as usize)
}

fn is_list(list: &[u8], g: Geometry) -> bool
    ensures { result ≡ is_some (held (geo g) list.now) }
{
    let mut left = list;
    while let Some((first, rest)) = left.split_first_chunk() {
        if !is_record(first, g) {
            return false;
        }
        left = rest;
    }
    let alone = left.len() == 1;
    alone && left[0] == 0
}

// Writes the sector of a record.
fn replay_record(image: &mut [u8], g: Geometry, bytes: &Record)
    requires { Image g image.old × (is_record (geo g) bytes.now ≡ true) }
    ensures { sectors_of g image.new ≡ written (write_of (geo g) bytes.now ∷ []) (sectors_of g image.old) }
{
    let n = geometry::number_of(g, bytes[TRACK] as usize, bytes[SECTOR] as usize);
    disc::put_sector(image, g, n, &bytes[BYTES..]);
}

// Writes the sectors of a list.
fn replay_records(image: &mut [u8], g: Geometry, list: &[u8])
    requires { Image g image.old × (is_some (held (geo g) list.now) ≡ true) }
    ensures { sectors_of g image.new ≡ replayed (geo g) list.now (sectors_of g image.old) }
{
    let mut unwritten = list;
    while let Some((first, rest)) = unwritten.split_first_chunk() {
        replay_record(image, g, first);
        unwritten = rest;
    }
}

// The whole list is judged before the first write.
fn replay_on(image: &mut [u8], g: Geometry, list: &[u8]) -> Result<(), Refusal>
    requires { Image g image.old }
    ensures { Leaves g image.old image.new result (replay_on (geo g) (sectors_of g image.old) list.now) }
{
    if !is_list(list, g) {
        return Err(Refusal::BadList);
    }
    replay_records(image, g, list);
    Ok(())
}

pub fn replay(image: &mut [u8], stated: Stated, list: &[u8]) -> Result<(), Refusal>
    ensures { answered (number_of_answer result) image.new ≡ after_replay (kind_of stated) image.old list.now }
{
    let g = geometry::geometry_of(stated, image.len())?;
    replay_on(image, g, list)
}
