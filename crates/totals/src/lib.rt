// Request d: weekly totals from the sheets.
#![tactic(auto)]

ghost use Rattle.std.specs.Prelude.{◌≡◌, [], ◌∷◌, true};
ghost use Rattle.std.proofs.Math.Option.{some};
ghost use Rattle.totals.specs.Totals.{credits_of, is_worker, within, after_sheet};
ghost use Rattle.totals.specs.Meaning.{said, record_of, end_of, sheet_check, Running, tallied, too_many, told};
ghost use Rattle.refusals.specs.Meaning.{number_of_answer};

use refusals::Refusal;

const WORKERS: usize = 500;

// The most that a total may be.
const MOST: u32 = 1_000_000_000;

// A sheet's records are a kind and four bytes; its end is a kind alone.
const RECORD: usize = 5;

const END: u8 = 0;

const CREDIT: u8 = 1;

const DATE: u8 = 2;

// What a kind 1 record says; its worker is 1 to 500.
#[derive(Clone, Copy)]
struct Credit {
    worker: usize,
    pieces: u16,
}

// What a record adds: nothing, if it is a date.
fn read_record(bytes: &[u8; RECORD]) -> Result<Option<Credit>, Refusal>
    ensures { result ≡ record_of bytes.now }
{
    let [kind, a, b, c, d] = *bytes;
    match kind {
        CREDIT => {
            let worker = usize::from(u16::from_le_bytes([a, b]));
            if !(1..=WORKERS).contains(&worker) {
                return Err(Refusal::BadSheet);
            }
            let pieces = u16::from_le_bytes([c, d]);
            Ok(Some(Credit { worker, pieces }))
        }
        DATE => Ok(None),
        _ => Err(Refusal::BadSheet),
    }
}

// Refuses what is no end of a sheet: that is its last byte.
fn check_end(bytes: &[u8]) -> Result<(), Refusal>
    ensures { result ≡ end_of bytes.now }
{
    match bytes {
        [END] => Ok(()),
        _ => Err(Refusal::BadSheet),
    }
}

// Refuses what is no sheet, or no rest of one. Not inlined: so its loop is there once, and its time does not hang on where each caller has it.
#[inline(never)]
#[tactic(auto, using(crate::proofs::Laws::checking))]
fn check_sheet(sheet: &[u8]) -> Result<(), Refusal>
    ensures { result ≡ sheet_check (credits_of sheet.now) }
{
    let mut rest = sheet;
    while let Some((record, after)) = rest.split_first_chunk::<RECORD>() {
        read_record(record)?;
        rest = after;
    }
    check_end(rest)
}

// The answer where a total is too large: a bad sheet comes before that.
fn too_large(sheet: &[u8]) -> Result<(), Refusal>
    ensures { result ≡ too_many (credits_of sheet.now) }
{
    check_sheet(sheet)?;
    Err(Refusal::Total)
}

// Whether no total is too large.
fn are_within(totals: &[u32]) -> bool
    ensures { result ≡ within totals.now }
{
    totals.iter().all(|t| *t <= MOST)
}

// Adds to a worker's sum, where it does not become too large.
#[tactic(auto, using(crate::proofs::Laws::crediting), unfolding(crate::specs::Totals::add_credit))]
fn add_credit(sums: &mut [u32], credit: Credit) -> Result<(), Refusal>
    requires { Running sums.old × (is_worker credit.worker ≡ true) }
    ensures { told result sums.new ≡ tallied (some (said credit ∷ [])) sums.old }
{
    let i = credit.worker - 1;
    let sum = sums[i] + u32::from(credit.pieces);
    if sum > MOST {
        return Err(Refusal::Total);
    }
    sums[i] = sum;
    Ok(())
}

// Adds a sheet to the sums, as far as it can be read.
#[tactic(auto, using(crate::proofs::Laws::tallying))]
fn tally(sums: &mut [u32], sheet: &[u8]) -> Result<(), Refusal>
    requires { Running sums.old }
    ensures { told result sums.new ≡ tallied (credits_of sheet.now) sums.old }
{
    let mut left = sheet;
    while let Some((record, after)) = left.split_first_chunk::<RECORD>() {
        if let Some(credit) = read_record(record)? {
            if add_credit(sums, credit).is_err() {
                return too_large(after);
            }
        }
        left = after;
    }
    check_end(left)
}

// Adds a sheet to the running totals: one pass over the sheet judges it, by sums of its own; the totals are written after it.
#[tactic(auto, using(crate::proofs::Laws::adding))]
pub fn add_sheet(totals: &mut [u32], sheet: &[u8]) -> Result<(), Refusal>
    ensures { record { number = number_of_answer result; totals = totals.new } ≡ after_sheet totals.old sheet.now }
{
    if totals.len() != WORKERS {
        return Err(Refusal::BadSheet);
    }
    if !are_within(totals) {
        return too_large(sheet);
    }
    let mut sums = [0u32; WORKERS];
    sums.copy_from_slice(totals);
    tally(&mut sums, sheet)?;
    totals.copy_from_slice(&sums);
    Ok(())
}
