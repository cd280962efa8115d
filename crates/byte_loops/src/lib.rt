// Bytes: sixteen bits as two of them, and bytes copied, filled and compared.
#![tactic(auto)]

ghost use Rattle.std.specs.Prelude.{◌≡◌, ◌+◌, ◌*◌, ◌-◌, ◌%◌, ◌≤◌, length, take, drop, replicate, eqb};
ghost use Rattle.std.proofs.lemmas.List.Edits.{sets};
ghost use Rattle.std.proofs.Math.Seq.{slice};
ghost use Rattle.lists.specs.Lists.{all, same, word};

// Sixteen bits, low byte first.
pub fn word(low: u8, high: u8) -> u16
    ensures { result ≡ low + 256 * high }
{
    u16::from_le_bytes([low, high])
}

// The lowest sixteen bits of a number as two bytes.
pub fn word_bytes(n: usize) -> [u8; 2]
    ensures { result ≡ word n }
{
    ((n % 65536) as u16).to_le_bytes()
}

// Stores the bytes of `from` in `to`, from position `at` on. A loop: with `copy_from_slice` the archive for C would need memmove from the C
// library.
pub fn copy(to: &mut [u8], at: usize, from: &[u8])
    requires { at + length from.now ≤ length to.old }
    ensures { to.new ≡ sets to.old at from.now }
{
    for i in 0..from.len() {
        to[at + i] = from[i];
    }
}

// Stores one value in the positions from `at` to `end`.
#[tactic(auto, using(crate::specs::Laws::put_mid_sets))]
pub fn fill(to: &mut [u8], at: usize, end: usize, value: u8)
    requires { (at ≤ end) × (end ≤ length to.old) }
    ensures { to.new ≡ sets to.old at (replicate (end - at) value) }
{
    to[at..end].fill(value);
}

// Whether these bytes stand from position `at` on. A loop: `==` on slices compares four bytes in place and, where they are equal, all of them
// again by a call.
pub fn same_at(bytes: &[u8], at: usize, these: &[u8]) -> bool
    requires { at + length these.now ≤ length bytes.now }
    ensures { result ≡ same (take (length these.now) (drop at bytes.now)) these.now }
{
    for i in 0..these.len() {
        if bytes[at + i] != these[i] {
            return false;
        }
    }
    true
}

// Whether the bytes from position `at` to `end` all have one value.
pub fn are_all(bytes: &[u8], at: usize, end: usize, value: u8) -> bool
    requires { (at ≤ end) × (end ≤ length bytes.now) }
    ensures { result ≡ all (eqb value) (slice at end bytes.now) }
{
    bytes[at..end].iter().all(|b| *b == value)
}

// Whether the `count` bytes from position `at` on are zero. All of them are read: with no branch, many are taken at once.
pub fn are_zero(bytes: &[u8], at: usize, count: usize) -> bool
    requires { at + count ≤ length bytes.now }
    ensures { result ≡ all (eqb 0) (slice at (at + count) bytes.now) }
{
    let mut seen: u8 = 0;
    for i in 0..count {
        seen |= bytes[at + i];
    }
    seen == 0
}
