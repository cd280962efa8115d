// The sector view: the bytes of one sector after its link, where they lie in the lent image.
#![tactic(auto)]

ghost use Rattle.std.specs.Prelude.{◌≡◌};
ghost use Rattle.geometry.specs.Meaning.{kind_of};
ghost use Rattle.format.specs.Calls as calls;
ghost use Rattle.format.specs.Calls.{view_part, view_number};
ghost use Rattle.view.specs.Meaning.{shown, PartOf};

use geometry::Stated;
use refusals::Refusal;

// Where a view starts in its image.
fn start_of_view(image: &[u8], stated: Stated, track: u32, sector: u32) -> Result<u32, Refusal>
    ensures { shown result ≡ calls.view (kind_of stated) image.now track sector }
{
    let g = geometry::geometry_of(stated, image.len())?;
    let t = track as usize;
    let s = sector as usize;
    if !geometry::on_disc(g, t, s) {
        return Err(Refusal::NoSector);
    }
    let at = disc::sector_at(g, t, s).start;
    Ok((at + 2) as u32)
}

// A part of the image itself; an empty one with a refusal.
pub fn view<'a>(image: &'a [u8], stated: Stated, track: u32, sector: u32) -> &'a [u8]
    ensures { PartOf image.entry result (view_part (kind_of stated) image.now track sector) }
{
    match start_of_view(image, stated, track, sector) {
        Ok(at) => {
            let start = at as usize;
            &image[start..start + 254]
        }
        Err(_) => &image[0..0],
    }
}

// The number of the refusal, 0 where the view is shown.
pub fn view_number(image: &[u8], stated: Stated, track: u32, sector: u32) -> u32
    ensures { result ≡ view_number (kind_of stated) image.now track sector }
{
    match start_of_view(image, stated, track, sector) {
        Ok(_) => refusals::DONE,
        Err(refusal) => u32::from(refusal),
    }
}

// Where the part starts in the image, 0 with a refusal.
#[tactic(auto, using(crate::specs::Laws::start_is), unfolding(format::specs::Calls::view_part))]
pub fn view_start(image: &[u8], stated: Stated, track: u32, sector: u32) -> u32
    ensures { result ≡ (view_part (kind_of stated) image.now track sector).at }
{
    start_of_view(image, stated, track, sector).unwrap_or(0)
}
