// The walk along the directory's sectors. Apart, since the definitions that the contracts cite name it.

ghost use Rattle.std.specs.Prelude.{◌≡◌, ◌<◌, ℕ};
ghost use Rattle.format.specs.Geometry.{go};
ghost use Rattle.geometry.specs.Meaning.{Image};
ghost use Rattle.disc.specs.Meaning.{meaning};

use disc::Link;
use geometry::{Geometry, SectorNo};

// The sectors that a walk along the directory still meets, in order: the link to follow, and how many sectors it may still meet.
#[derive(Clone, Copy)]
pub struct Sectors<'a> {
    pub image: &'a [u8],
    pub g: Geometry,
    pub at: Link<SectorNo>,
    pub left: usize,
    pub ghost on_image: { Image g image.now },
    pub ghost inside: { (n : ℕ) → meaning at ≡ go n → n < g.sectors },
}

impl<'a> Sectors<'a> {
    ghost use Rattle.std.specs.Prelude.{IfSome};
    ghost use Rattle.std.specs.Iterator.{YieldsFirstBy};
    ghost use Rattle.geometry.specs.declared.SectorNo.{SectorNo};
    ghost use Rattle.directory.specs.Walk.{rest_of, Kept};

    // Goes to the next sector, as `next` does, which calls it; its contract says besides that the walk stays on its disc.
    pub fn advance(&mut self) -> Option<SectorNo>
        ensures steps { YieldsFirstBy (λ (n : SectorNo). n.0) rest_of self.old result self.new }
        ensures on_disc { IfSome result (λ (n : SectorNo). n.0 < self.old.g.sectors) }
        ensures keeps { Kept self.old self.new }
    {
        let is_over = self.left == 0;
        if is_over {
            return None;
        }
        let Link::To(n) = self.at else {
            return None;
        };
        self.at = disc::link_of(self.image, self.g, n);
        self.left -= 1;
        Some(n)
    }
}

impl<'a> Iterator for Sectors<'a> {
    type Item = SectorNo;

    ghost use Rattle.geometry.specs.declared.SectorNo.{SectorNo};
    ghost use Rattle.std.specs.Iterator.{YieldsFirstBy, item_count};
    ghost use Rattle.directory.specs.Walk.{rest_of};

    ghost next_gives = { YieldsFirstBy (λ (n : SectorNo). n.0) rest_of };

    ghost remaining = { item_count rest_of };

    fn next(&mut self) -> Option<SectorNo> {
        self.advance()
    }
}
