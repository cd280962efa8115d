// The check of a disc image: the rules in their order, each by the part that asks it, and the free chain's rules 6 to 8.
#![tactic(auto)]

ghost use Rattle.std.specs.Prelude.{◌≡◌, [], not, ◌-◌, ◌≤◌};
ghost use Rattle.lists.specs.Lists.{all, range};
ghost use Rattle.format.specs.Check.{elsewhere, broken, sound};
ghost use Rattle.format.specs.Calls.{after_check};
ghost use Rattle.geometry.specs.Meaning.{kind_of, geo, sectors_of, Image};
ghost use Rattle.disc.specs.Meaning.{meaning};
ghost use Rattle.fsck_chains.specs.Marks.{no_marks, clear};
ghost use Rattle.fsck.specs.Meaning.{number_of_rule, rule_of, answer_of};
ghost use Rattle.fsck.specs.Free.{FreeGood};
ghost use Rattle.fsck.specs.Rules.{marks_of, DirectoryChecked, Stood, Stands};

use disc::Link;
use geometry::{Geometry, SectorNo, Stated};
use refusals::Refusal;

// The rules, each with its number.
#[derive(Clone, Copy, PartialEq, Eq)]
pub enum Rule {
    // The directory pointer is on the disc, and not 0/1.
    DirectoryPointer = 1,
    // The directory chain ends, and meets no sector twice, nor 0/1.
    DirectoryChain = 2,
    // The directory's entries are good, and counted.
    Entries = 3,
    // No two entries have the same name.
    Names = 4,
    // Each file's chain is as its entry says, over sectors of its own.
    Files = 5,
    // The free chain ends, over sectors of its own, and has its length.
    FreeChain = 6,
    // The used count is the sum of the files' lengths.
    UsedCount = 7,
    // Every sector but 0/1 is met.
    EverySector = 8,
}

impl From<Rule> for u32 {
    ghost from_gives = { λ r k. k ≡ number_of_rule r };

    fn from(rule: Rule) -> u32 {
        rule as u32
    }
}

// Rule 6: the free chain, and its length.
fn free_good(image: &[u8], g: Geometry, marks: &mut [u8; 800]) -> bool
    requires { Image g image.now }
    ensures { FreeGood (geo g) (sectors_of g image.now) marks.old result marks.new }
{
    let first = system::free_step(image, g);
    let Some(chain) = fsck_chains::follow(image, g, first, marks) else {
        return false;
    };
    chain.count == system::free_count(image, g) as usize
}

// Rule 8: whether each of `total` sectors but 0/1 has a mark. All marks are read: with no branch, many are taken at once.
fn all_marked(marks: &[u8; 800], total: usize) -> bool
    requires { (1 ≤ total) × (total ≤ 800) }
    ensures { result ≡ all (λ n. not (clear marks.now n)) (range 1 (total - 1)) }
{
    let least = marks[1..total]
        .iter()
        .fold(1u8, |least, mark| least.min(*mark));
    least != 0
}

// Whether a link leads to a sector that isn't 0/1.
fn is_elsewhere(link: Link<SectorNo>) -> bool
    ensures { result ≡ elsewhere (meaning link) }
{
    matches!(link, Link::To(n) if n.0 != 0)
}

// The lowest broken one of rules 1 to 4. Marks the directory.
fn directory_broken(image: &[u8], g: Geometry, marks: &mut [u8; 800]) -> Result<(), Rule>
    requires { Image g image.now × (marks.old ≡ marks_of []) }
    ensures { DirectoryChecked (geo g) (sectors_of g image.now) result marks.new }
{
    let first = system::directory_pointer(image, g);
    if !is_elsewhere(first) {
        return Err(Rule::DirectoryPointer);
    }
    let from = disc::step_to(g, first);
    fsck_chains::follow(image, g, from, marks).ok_or(Rule::DirectoryChain)?;
    if !fsck_entries::entries_good(image, g) {
        return Err(Rule::Entries);
    }
    if !fsck_names::names_differ(image, g) {
        return Err(Rule::Names);
    }
    Ok(())
}

// Rules 1 to 5: the lowest broken one, or how many sectors the files have. Where they hold, 0/1 and the sectors of the directory and the files
// are marked.
#[tactic(auto, using(crate::specs::Rules::files_stood))]
pub fn files_stand(image: &[u8], g: Geometry, marks: &mut [u8; 800]) -> Result<usize, Rule>
    requires { Image g image.now × (marks.old ≡ no_marks) }
    ensures { Stands (geo g) (sectors_of g image.now) result marks.new }
{
    marks[0] = 1;
    directory_broken(image, g, marks)?;
    fsck_files::all_files(image, g, marks).ok_or(Rule::Files)
}

// The lowest broken one of rules 6 to 8, where rules 1 to 5 hold.
fn free_broken(image: &[u8], g: Geometry, marks: &mut [u8; 800], used: usize) -> Result<(), Rule>
    requires { Image g image.now × Stood (geo g) (sectors_of g image.now) used marks.old }
    ensures { rule_of result ≡ broken (geo g) (sectors_of g image.now) }
{
    if !free_good(image, g, marks) {
        return Err(Rule::FreeChain);
    }
    let is_counted = system::used_count(image, g) as usize == used;
    if !is_counted {
        return Err(Rule::UsedCount);
    }
    if !all_marked(marks, g.sectors) {
        return Err(Rule::EverySector);
    }
    Ok(())
}

// The lowest-numbered rule that is broken.
pub fn lowest_broken(image: &[u8], g: Geometry) -> Result<(), Rule>
    requires { Image g image.now }
    ensures { rule_of result ≡ broken (geo g) (sectors_of g image.now) }
{
    let mut marks = [0; 800];
    let used = files_stand(image, g, &mut marks)?;
    free_broken(image, g, &mut marks, used)
}

pub fn is_sound(image: &[u8], g: Geometry) -> bool
    requires { Image g image.now }
    ensures { result ≡ sound (geo g) (sectors_of g image.now) }
{
    lowest_broken(image, g).is_ok()
}

// Refused for an image of a wrong size; otherwise the verdict, sound or the rule that is broken.
pub fn check(image: &[u8], stated: Stated) -> Result<Result<(), Rule>, Refusal>
    ensures { answer_of result ≡ after_check (kind_of stated) image.now }
{
    let g = geometry::geometry_of(stated, image.len())?;
    let verdict = lowest_broken(image, g);
    Ok(verdict)
}
