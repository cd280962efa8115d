// The list of what a command wrote, copied out of the new image to the front of a lent buffer: the order in which the command's code
// writes sectors is its own affair.
#![tactic(auto)]

ghost use Rattle.std.specs.Prelude.{◌≡◌, [], ◌∷◌, ◌++◌, ◌+◌, ◌*◌, ◌≤◌, ◌<◌, length};
ghost use Rattle.format.specs.Layout.{met};
ghost use Rattle.format.specs.Writes.{record_of, list_size};
ghost use Rattle.soundness.specs.CopiedOut.{standing, records_at};
ghost use Rattle.geometry.specs.Meaning.{geo, sectors_of, Image};
ghost use Rattle.disc.specs.Meaning.{meaning, Inside, Lies};
ghost use Rattle.records.specs.Storing.{Stored};
ghost use Rattle.writes.specs.Meaning.{front_of, Walks, Copied};

use disc::{Link, Sector};
use geometry::{Geometry, SectorNo};

// The length of the list of so many writes.
pub fn list_size(count: usize) -> usize
    requires { count ≤ 1000 }
    ensures { result ≡ list_size count }
{
    records::WRITE_SIZE * count + 1
}

// Stores the record of a sector as it stands, and gives the position after it.
fn put_write(image: &[u8], g: Geometry, s: Sector, buffer: &mut [u8], at: usize) -> usize
    requires { Image g image.now × Lies g s × (at + 259 ≤ length buffer.old) }
    ensures { Stored buffer.old at
        (record_of (geo g) (standing (sectors_of g image.now) s.number.0)) buffer.new result × (result ≡ at + 259) }
{
    let n = s.number;
    let start = s.start;
    let end = start + 256;
    let address = disc::address_of(g, Link::To(n));
    let head = [address.track, address.sector];
    records::put_record(buffer, at, records::WRITE, &head, &image[start..end])
}

// The same of a sector by its number.
fn put_numbered(image: &[u8], g: Geometry, n: SectorNo, buffer: &mut [u8], at: usize) -> usize
    requires { Image g image.now × (n.0 < g.sectors) × (at + 259 ≤ length buffer.old) }
    ensures { Stored buffer.old at
        (record_of (geo g) (standing (sectors_of g image.now) n.0)) buffer.new result × (result ≡ at + 259) }
{
    put_write(image, g, disc::sector_of(g, n), buffer, at)
}

// Stores the records of the sectors of a chain, at most `count` of them, and gives the position after them.
fn put_chain(
    image: &[u8],
    g: Geometry,
    first: Link<SectorNo>,
    count: usize,
    buffer: &mut [u8],
    at: usize,
) -> usize
    requires { Image g image.now × Inside g first × (count ≤ 1000) × (at + 259 * count ≤ length buffer.old) }
    ensures { let d = sectors_of g image.now in
        Stored buffer.old at (records_at (geo g) d (met (geo g) d count (meaning first))) buffer.new result }
{
    let mut step = disc::step_to(g, first);
    let mut position = at;
    for i in 0..count {
        let Link::To(s) = step else {
            return position;
        };
        position = put_write(image, g, s, buffer, position);
        step = disc::step_from(image, g, s);
    }
    position
}

// Ends a list with kind 0, and gives its length.
fn end_list(buffer: &mut [u8], at: usize) -> u32
    requires { (at < length buffer.old) × (at < 1000000) }
    ensures { Stored buffer.old at (0 ∷ []) buffer.new result }
{
    buffer[at] = 0;
    (at + 1) as u32
}

// The list of one sector; this and those below give its length.
pub fn put_one(image: &[u8], g: Geometry, n: SectorNo, buffer: &mut [u8]) -> u32
    requires { Image g image.now × (n.0 < g.sectors) × (list_size 1 ≤ length buffer.old) }
    ensures { Copied g image.now (n.0 ∷ []) buffer.old buffer.new result }
{
    let at = put_numbered(image, g, n, buffer, 0);
    end_list(buffer, at)
}

// The list of a delete: the directory sector, the file's last sector, the system sector.
pub fn put_deleted(
    image: &[u8],
    g: Geometry,
    home: SectorNo,
    last: SectorNo,
    buffer: &mut [u8],
) -> u32
    requires { Image g image.now × (home.0 < g.sectors) × (last.0 < g.sectors) × (list_size 3 ≤ length buffer.old) }
    ensures { Copied g image.now (home.0 ∷ last.0 ∷ 0 ∷ []) buffer.old buffer.new result }
{
    let one = put_numbered(image, g, home, buffer, 0);
    let two = put_numbered(image, g, last, buffer, one);
    let three = put_numbered(image, g, system::SYSTEM, buffer, two);
    end_list(buffer, three)
}

// Stores the records with which the list of a save begins: the system sector, and the file's sectors in chain order.
fn put_front(
    image: &[u8],
    g: Geometry,
    first: Link<SectorNo>,
    count: usize,
    buffer: &mut [u8],
) -> usize
    requires { Image g image.now × Walks g image.now first count × (259 * (count + 1) ≤ length buffer.old) }
    ensures { Stored buffer.old 0
        (records_at (geo g) (sectors_of g image.now) (front_of g image.now first count)) buffer.new result × (result ≡ 259 * (count + 1)) }
{
    let at = put_numbered(image, g, system::SYSTEM, buffer, 0);
    put_chain(image, g, first, count, buffer, at)
}

// The list of a save into a free slot of the directory sector `home`.
pub fn put_saved(
    image: &[u8],
    g: Geometry,
    first: Link<SectorNo>,
    count: usize,
    home: SectorNo,
    buffer: &mut [u8],
) -> u32
    requires { Image g image.now × Walks g image.now first count × (home.0 < g.sectors) × (list_size (count + 2) ≤ length buffer.old) }
    ensures { Copied g image.now (front_of g image.now first count ++ home.0 ∷ []) buffer.old buffer.new result }
{
    let front = put_front(image, g, first, count, buffer);
    let at = put_numbered(image, g, home, buffer, front);
    end_list(buffer, at)
}

// The list of a save where the directory grows: its new sector, and then the one that links to it.
pub fn put_grown(
    image: &[u8],
    g: Geometry,
    first: Link<SectorNo>,
    count: usize,
    new: SectorNo,
    last: SectorNo,
    buffer: &mut [u8],
) -> u32
    requires { Image g image.now × Walks g image.now first count × (new.0 < g.sectors) × (last.0 < g.sectors)
        × (list_size (count + 3) ≤ length buffer.old) }
    ensures { Copied g image.now (front_of g image.now first count ++ new.0 ∷ last.0 ∷ [])
        buffer.old buffer.new result }
{
    let front = put_front(image, g, first, count, buffer);
    let one = put_numbered(image, g, new, buffer, front);
    let two = put_numbered(image, g, last, buffer, one);
    end_list(buffer, two)
}
