// A view of a directory: it holds the lent image and keeps the directory's place, and is checked again each time it is asked.
// Each method calls the function of crate `place` on the image and the place.
#![tactic(auto)]

ghost use Rattle.std.specs.Prelude.{◌≡◌};
ghost use Rattle.reply.specs.Reply.{told};
ghost use Rattle.entries.specs.Part.{bytes_of, begin_of};
ghost use Rattle.view.specs.View.{view_holds, view_keeps, view_check, view_entry, view_part};

use directory::Directory;
use entries::{Entry, Part};
use reply::Fault;
use window::Offset;

// The lent image, and where in it the directory begins. A caller may make one of any image and any place.
#[derive(Clone, Copy, Debug)]
pub struct View<'a> {
    pub image: &'a [u8],
    pub place: Offset,
}

impl<'a> View<'a> {
    // A view of the directory of a level. Where refused it holds no bytes and place 0, and `flash::directory` gives the number.
    pub fn of_level(image: &'a [u8], level: u32) -> View<'a>
        ensures { (result.image.now ≡ view_holds level image.now) × (result.image.ref_ptr ≡ image.entry.ref_ptr) × (result.place ≡ view_keeps level image.now) }
    {
        View {
            image: place::held(image, level),
            place: place::held_place(image, level),
        }
    }

    // The view that holds this image and keeps this place, whatever stands there.
    pub fn at(image: &'a [u8], place: Offset) -> View<'a>
        ensures { (result.image ≡ image.entry) × (result.place ≡ place) }
    {
        View { image, place }
    }

    // The view's directory, its level by its cookie: the number beside, of a view.
    pub fn check(self) -> Result<Directory, Fault>
        ensures { told result ≡ view_check self.entry.image.now self.entry.place }
    {
        place::check_at(self.image, self.place)
    }

    // Entry i of the view's directory.
    pub fn entry(self, i: usize) -> Result<Entry, Fault>
        ensures { told result ≡ view_entry self.entry.image.now self.entry.place i }
    {
        place::entry_at(self.image, self.place, i)
    }

    // Where the bytes of entry i lie in the view's image, or why there are none.
    pub fn part(self, i: usize) -> Result<Part, Fault>
        ensures { told result ≡ view_part self.entry.image.now self.entry.place i }
    {
        place::part_at(self.image, self.place, i)
    }

    // The bytes of entry i: that part of the caller's image. Where refused there are none, and `part` gives the number.
    pub fn bytes(self, i: usize) -> &'a [u8]
        ensures { (result.now ≡ bytes_of self.entry.image.now (view_part self.entry.image.now self.entry.place i)) × (result.ref_ptr ≡ begin_of self.entry.image.ref_ptr (view_part self.entry.image.now self.entry.place i)) }
    {
        place::bytes_at(self.image, self.place, i)
    }
}
