// Names as typed, and the nine bytes that they are stored as.
#![tactic(auto)]

ghost use Rattle.std.specs.Prelude.{◌≡◌, cond, ◌+◌, ◌≤◌, ◌==◌, length, position};
ghost use Rattle.std.proofs.Math.Option.{none, some};
ghost use Rattle.lists.specs.Lists.{padded};
ghost use Rattle.format.specs.Names.{letter, letters, dot, space, with_extension, stored, disc_name};
ghost use Rattle.names.specs.Answer.{parsed};

use refusals::Refusal;

// A name as stored: padded with spaces, and without the dot.
#[derive(Clone, Copy)]
pub struct Name {
    pub bytes: [u8; 9],
}

// A-Z or 0-9.
#[tactic(auto, using(std::proofs::lemmas::Bool::Decides::nat_tests), unfolding(format::specs::Names::letter))]
pub fn is_letter(b: u8) -> bool
    ensures { result ≡ letter b }
{
    matches!(b, b'A'..=b'Z' | b'0'..=b'9')
}

// Whether the text is 1 to most letters. The length decides first, so a long text is not read.
#[tactic(auto, using(std::proofs::lemmas::Bool::Decides::nat_tests), unfolding(format::specs::Names::letters))]
fn are_letters(text: &[u8], most: usize) -> bool
    ensures { result ≡ letters 1 most text.now }
{
    (1..=most).contains(&text.len()) && text.iter().all(|b| is_letter(*b))
}

// The index of the first dot.
fn dot_index(typed: &[u8]) -> Option<usize>
    ensures { result ≡ position (λ b. b == dot) typed.now }
{
    typed.iter().position(|b| *b == b'.')
}

// The text and spaces after it.
fn pad(text: &[u8]) -> [u8; 9]
    requires { length text.now ≤ 9 }
    ensures { result ≡ padded 9 space text.now }
{
    let mut nine = [b' '; 9];
    nine[..text.len()].copy_from_slice(text);
    nine
}

// A text of 1 to most letters, padded to nine bytes.
#[tactic(auto, using(crate::specs::Laws::letters_few))]
fn padded_letters(text: &[u8], most: usize) -> Result<Name, Refusal>
    requires { most ≤ 9 }
    ensures { result ≡ parsed (cond (letters 1 most text.now) (some (padded 9 space text.now)) none) }
{
    if !are_letters(text, most) {
        return Err(Refusal::Name);
    }
    Ok(Name { bytes: pad(text) })
}

// A name and what stands after its dot.
#[tactic(auto, using(crate::specs::Laws::extensions), unfolding(format::specs::Names::with_extension))]
fn with_extension(name: &[u8], extension: &[u8]) -> Result<Name, Refusal>
    ensures { result ≡ parsed (with_extension name.now (some extension.now)) }
{
    let mut stored = padded_letters(name, 6)?;
    if !are_letters(extension, 3) {
        return Err(Refusal::Name);
    }
    stored.bytes[6..6 + extension.len()].copy_from_slice(extension);
    Ok(stored)
}

#[tactic(auto, using(crate::specs::Laws::parts, std::proofs::lemmas::List::take_rest))]
pub fn file_name(typed: &[u8]) -> Result<Name, Refusal>
    ensures { result ≡ parsed (stored typed.now) }
{
    // 6, the dot and 3: no dot is looked for in a longer text.
    if 10 < typed.len() {
        return Err(Refusal::Name);
    }
    match dot_index(typed) {
        Some(dot) => with_extension(&typed[..dot], &typed[dot + 1..]),
        None => padded_letters(typed, 6),
    }
}

#[tactic(auto, unfolding(format::specs::Names::disc_name))]
pub fn disc_name(typed: &[u8]) -> Result<Name, Refusal>
    ensures { result ≡ parsed (disc_name typed.now) }
{
    padded_letters(typed, 9)
}
