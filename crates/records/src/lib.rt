// Records in a lent buffer, one after the other: each a byte of kind and a body.
#![tactic(auto)]

ghost use Rattle.std.specs.Prelude.{◌∷◌, ◌++◌, ◌+◌, ◌≤◌, length};
ghost use Rattle.records.specs.Storing.{Stored};

// A record of a list of writes: its kind, and its size with track, sector and the bytes of the sector.
pub const WRITE: u8 = 3;

pub const WRITE_SIZE: usize = 259;

// Stores a record, its kind and its body in two parts, and gives the position after it.
pub fn put_record(buffer: &mut [u8], at: usize, kind: u8, first: &[u8], second: &[u8]) -> usize
    requires { at + (1 + length first.now + length second.now) ≤ length buffer.old }
    ensures { Stored buffer.old at (kind ∷ first.now ++ second.now) buffer.new result }
{
    buffer[at] = kind;
    byte_loops::copy(buffer, at + 1, first);
    let next = at + 1 + first.len();
    byte_loops::copy(buffer, next, second);
    next + second.len()
}
