// A chain followed over marks, one for each sector: what rules 2, 5 and 6 of the check ask of the directory, of a file and of the free chain.
#![tactic(auto)]

ghost use Rattle.format.specs.Geometry.{go};
ghost use Rattle.geometry.specs.Meaning.{geo, sectors_of, Image};
ghost use Rattle.disc.specs.Meaning.{Lies, led, Reaches};
ghost use Rattle.fsck_chains.specs.Walks.{Walked};

use disc::{Link, Sector};
use geometry::{Geometry, SectorNo};

// A chain that came to an end link: the number of sectors met, and the last of them.
#[derive(Clone, Copy)]
pub struct Chain {
    pub count: usize,
    pub last: SectorNo,
}

// Walks along a chain from a sector on, and marks each sector met. A sector with a mark breaks the walk, and so does a link off the disc.
fn follow_from(image: &[u8], g: Geometry, first: Sector, marks: &mut [u8; 800]) -> Option<Chain>
    requires { Image g image.now × Lies g first }
    ensures { Walked (geo g) (sectors_of g image.now) (go first.number.0) marks.old result marks.new }
{
    let most = g.sectors;
    let mut at = first;
    let mut count: usize = 0;
    loop {
        if count == most {
            return None;
        }
        let last = at.number;
        let n = last.0;
        let is_met = marks[n] != 0;
        if is_met {
            return None;
        }
        marks[n] = 1;
        count += 1;
        match disc::step_from(image, g, at) {
            Link::End => return Some(Chain { count, last }),
            Link::Off => return None,
            Link::To(s) => at = s,
        }
    }
}

// The same from where a pointer or a link leads.
pub fn follow(image: &[u8], g: Geometry, from: Link<Sector>, marks: &mut [u8; 800]) -> Option<Chain>
    requires { Image g image.now × Reaches g from }
    ensures { Walked (geo g) (sectors_of g image.now) (led from) marks.old result marks.new }
{
    match from {
        Link::End => Some(Chain {
            count: 0,
            last: SectorNo(0),
        }),
        Link::Off => None,
        Link::To(s) => follow_from(image, g, s, marks),
    }
}
