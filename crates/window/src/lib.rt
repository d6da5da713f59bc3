// A flash offset and an x86 physical address are different kinds of number, and the window is the only way from one to the other.
// Every place in an image is told by an offset.
#![tactic(auto)]

ghost use Rattle.std.specs.Prelude.{◌≡◌};
ghost use Rattle.reply.specs.Reply.{given, told_alone};
ghost use Rattle.window.specs.Window.{window_start, offset_in, nearest_to, within};
ghost use Rattle.window.specs.Length.{length_allowed};

mod image;

pub use image::Image;
use reply::Refusal;

// A place in a flash image, counted from its first byte.
#[derive(Clone, Copy, Debug, PartialEq, Eq, PartialOrd, Ord)]
pub struct Offset(pub u32);

// A place in the x86 physical address space.
#[derive(Clone, Copy, Debug, PartialEq, Eq, PartialOrd, Ord)]
pub struct Physical(pub u64);

impl Offset {
    // The bytes of the longest image.
    pub const LONGEST: usize = 16_777_216;

    // The offset nearest to a place that a caller names. A place that no offset can tell lies beyond every image, and so does the last offset.
    pub fn nearest(place: usize) -> Offset
        ensures { result ≡ nearest_to place }
    {
        Offset(u32::try_from(place).unwrap_or(u32::MAX))
    }

    // The offset, where it does not lie beyond an image.
    pub fn within(self, image: &[u8]) -> Result<Offset, Refusal>
        ensures { told_alone result ≡ within image.now self.0 (given self) }
    {
        if (self.0 as usize) <= image.len() {
            Ok(self)
        } else {
            Err(Refusal::Outside)
        }
    }
}

// Has an image a length that is allowed?
pub fn length_allowed(image: &[u8]) -> bool
    ensures { result ≡ length_allowed image.now }
{
    1 <= image.len() && image.len() <= Offset::LONGEST
}

// Where a window of so many bytes begins: each ends at 4 GiB, and none begins below 0.
fn window_start(window: usize) -> u64
    ensures { result ≡ window_start window }
{
    0x1_0000_0000_u64.saturating_sub(window as u64)
}

impl Physical {
    // The flash offset that a window of so many bytes below 4 GiB gives this address.
    #[tactic(auto, using(crate::proofs::Cases::below, crate::proofs::Cases::above, crate::proofs::Cases::shown))]
    pub fn offset(self, window: usize) -> Result<Offset, Refusal>
        ensures { told_alone result ≡ offset_in window self.0 }
    {
        let first = window_start(window);
        if self.0 < first || 0xFFFF_FFFF < self.0 {
            return Err(Refusal::Outside);
        }
        Ok(Offset((self.0 - first) as u32))
    }
}
