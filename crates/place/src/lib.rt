// A directory at a place of a lent image, checked again at each call without the EFS: its entries and their bytes; and what a view of a level holds.
#![tactic(auto)]

ghost use Rattle.std.specs.Prelude.{◌≡◌};
ghost use Rattle.reply.specs.Reply.{told};
ghost use Rattle.entries.specs.Part.{bytes_of, begin_of};
ghost use Rattle.efs.specs.Rules.{rules_of};
ghost use Rattle.place.specs.Place.{check_at, entry_at, part_at, view_image, view_place};

use directory::Directory;
use efs::Rules;
use entries::{Entry, Part};
use reply::{Fault, Refusal};
use window::Offset;

// The directory at a place, its level by its cookie.
pub fn check_at(image: &[u8], place: Offset) -> Result<Directory, Fault>
    ensures { told result ≡ check_at (rules_of image.now) image.now place.0 }
{
    check_by(image, efs::rules_of(image), place)
}

// The same by these rules.
#[tactic(auto, unfolding(crate::specs::Place::check_at))]
fn check_by(image: &[u8], rules: Rules, place: Offset) -> Result<Directory, Fault>
    ensures { told result ≡ check_at rules image.now place.0 }
{
    if !window::length_allowed(image) {
        return Err(Refusal::Image.into());
    }
    let at = place.within(image)?;
    directory::directory_by_cookie(image, rules.kind, rules.limit, at)
}

// Entry i of the directory at a place.
pub fn entry_at(image: &[u8], place: Offset, i: usize) -> Result<Entry, Fault>
    ensures { told result ≡ entry_at (rules_of image.now) image.now place.0 i }
{
    let rules = efs::rules_of(image);
    let d = check_by(image, rules, place)?;
    entries::entry_in(image, rules.kind, d, i)
}

// Where the bytes of entry i of the directory at a place lie, or why there are none.
pub fn part_at(image: &[u8], place: Offset, i: usize) -> Result<Part, Fault>
    ensures { told result ≡ part_at (rules_of image.now) image.now place.0 i }
{
    let rules = efs::rules_of(image);
    let d = check_by(image, rules, place)?;
    entries::part_in(image, rules.kind, rules.window, d, i)
}

// The bytes of entry i of the directory at a place: that part of the caller's image. Where refused there are none, and `part_at` gives the number.
pub fn bytes_at<'a>(image: &'a [u8], place: Offset, i: usize) -> &'a [u8]
    ensures { (result.now ≡ bytes_of image.now (part_at (rules_of image.now) image.now place.0 i)) × (result.ref_ptr ≡ begin_of image.entry.ref_ptr (part_at (rules_of image.now) image.now place.0 i)) }
{
    let rules = efs::rules_of(image);
    match check_by(image, rules, place) {
        Ok(d) => entries::bytes_in(image, rules.kind, rules.window, d, i),
        Err(_) => &image[0..0],
    }
}

// What a view of the directory of a level holds: the lent image. Where refused it holds no bytes, and `flash::directory` gives the number.
pub fn held<'a>(image: &'a [u8], level: u32) -> &'a [u8]
    ensures { (result.now ≡ view_image (rules_of image.now) level image.now) × (result.ref_ptr ≡ image.entry.ref_ptr) }
{
    match flash::directory(image, level) {
        Ok(_) => image,
        Err(_) => &image[0..0],
    }
}

// The place that it keeps: where the directory begins, or 0 where refused.
pub fn held_place(image: &[u8], level: u32) -> Offset
    ensures { result ≡ view_place (rules_of image.now) level image.now }
{
    flash::directory(image, level).map_or(Offset(0), |d| d.place())
}
