// The system sector, 0/1: where its fields stand, the pointers and counts read, and the free pointer and counts written.
#![tactic(auto)]

ghost use Rattle.std.specs.Prelude.{◌≡◌, [], ◌∷◌};
ghost use Rattle.format.specs.Geometry.{written};
ghost use Rattle.format.specs.Layout.{free_pointer, directory_pointer, free_count, used_count};
ghost use Rattle.format.specs.Effects.{system_write};
ghost use Rattle.geometry.specs.Meaning.{geo, sectors_of, Image};
ghost use Rattle.disc.specs.Meaning.{meaning, Inside, led, Reaches};
ghost use Rattle.system.specs.Meaning.{SystemOf};

use disc::{Link, Sector};
use geometry::{Geometry, SectorNo};

pub const SYSTEM: SectorNo = SectorNo(0);

// Offsets in the system sector. The directory pointer stands behind the free pointer, the used count behind the free count.
pub const FREE_POINTER: usize = 0x10;

const DIRECTORY_POINTER: usize = 0x12;

pub const FREE_COUNT: usize = 0x14;

const USED_COUNT: usize = 0x16;

pub const DISC_NAME: usize = 0x18;

pub const VERSION: usize = 0x40;

// Where the directory pointer leads.
pub fn directory_pointer(image: &[u8], g: Geometry) -> Link<SectorNo>
    requires { Image g image.now }
    ensures { (meaning result ≡ directory_pointer (geo g) (sectors_of g image.now)) × Inside g result }
{
    disc::pair_of(image, g, SYSTEM, DIRECTORY_POINTER)
}

// Where the free pointer leads: a step, for the walk along the free chain.
pub fn free_step(image: &[u8], g: Geometry) -> Link<Sector>
    requires { Image g image.now }
    ensures { (led result ≡ free_pointer (geo g) (sectors_of g image.now)) × Reaches g result }
{
    disc::step_of(image, g, SYSTEM, FREE_POINTER)
}

pub fn free_count(image: &[u8], g: Geometry) -> u16
    requires { Image g image.now }
    ensures { result ≡ free_count (sectors_of g image.now) }
{
    disc::word_of(image, g, SYSTEM, FREE_COUNT)
}

pub fn used_count(image: &[u8], g: Geometry) -> u16
    requires { Image g image.now }
    ensures { result ≡ used_count (sectors_of g image.now) }
{
    disc::word_of(image, g, SYSTEM, USED_COUNT)
}

#[derive(Clone, Copy)]
pub struct System {
    pub pointer: Link<SectorNo>,
    pub free: u16,
    pub used: u16,
}

// The free pointer and both counts.
pub fn system_of(image: &[u8], g: Geometry) -> System
    requires { Image g image.now }
    ensures { SystemOf g image.now result }
{
    let pointer = disc::pair_of(image, g, SYSTEM, FREE_POINTER);
    let free = free_count(image, g);
    let used = used_count(image, g);
    System {
        pointer,
        free,
        used,
    }
}

// Writes another free pointer and other counts.
pub fn put_system(image: &mut [u8], g: Geometry, pointer: Link<SectorNo>, free: usize, used: usize)
    requires { Image g image.old × Inside g pointer }
    ensures { let d = sectors_of g image.old in
        sectors_of g image.new ≡ written (system_write (geo g) d (meaning pointer) free used ∷ []) d }
{
    let address = disc::address_of(g, pointer);
    let pair = [address.sector, address.track];
    disc::put(image, g, SYSTEM, FREE_POINTER, &pair);
    let free_bytes = byte_loops::word_bytes(free);
    let used_bytes = byte_loops::word_bytes(used);
    let counts = [free_bytes[0], free_bytes[1], used_bytes[0], used_bytes[1]];
    disc::put(image, g, SYSTEM, FREE_COUNT, &counts);
}
