// Protect: its refusals in document 01's order, then the attribute and the list of that write.
#![tactic(auto)]

ghost use Rattle.std.specs.Prelude.{◌≡◌};
ghost use Rattle.format.specs.Layout.{attribute};
ghost use Rattle.format.specs.Calls.{after_protect, protect_on};
ghost use Rattle.geometry.specs.Meaning.{kind_of, geo, sectors_of, Image};
ghost use Rattle.answers.specs.Meaning.{filled, Lists, change_answer};

use geometry::{Geometry, Stated};
use refusals::Refusal;

fn protect_on(
    image: &mut [u8],
    g: Geometry,
    name: &[u8],
    on: u32,
    list: &mut [u8],
) -> Result<u32, Refusal>
    requires { Image g image.old }
    ensures { Lists g image.old image.new list.old list.new result
        (protect_on (geo g) (sectors_of g image.old) name.now on) }
{
    let slot = lookup::entry_on(image, g, name)?;
    let attribute = slots::with_protection(slots::attribute_of(image, g, slot), on != 0);
    entry_write::put_listed(image, g, slot, slots::ATTRIBUTE, &[attribute], list)
}

pub fn protect(
    image: &mut [u8],
    stated: Stated,
    name: &[u8],
    on: u32,
    list: &mut [u8],
) -> Result<u32, Refusal>
    ensures { change_answer (filled result) image.new list.new ≡ after_protect (kind_of stated)
        image.old name.now on list.old }
{
    let g = geometry::geometry_of(stated, image.len())?;
    protect_on(image, g, name, on, list)
}
