// From a flash image to its EFS and its directory pointer, and the rules that every call on an image goes by.
#![tactic(auto)]

ghost use Rattle.std.specs.Prelude.{◌≡◌};
ghost use Rattle.reply.specs.Reply.{told_alone};
ghost use Rattle.efs.specs.Rules.{rules_of};
ghost use Rattle.efs.specs.Efs.{counts, candidate_at, efs_place, efs_at, efs_in, absent, pointer_to, pointer_from, pointer_of, pointer_in, flash_efs, flash_pointer};

use directory::Kind;
use reply::Refusal;
use window::{Offset, Physical};

// What the calls on a flash image go by: the kind of directory, the largest total of one, the bytes of the window,
// and the physical addresses where an EFS may be, in the order to try.
#[derive(Clone, Copy, Debug, PartialEq, Eq)]
pub struct Rules {
    pub kind: Kind,
    pub limit: u32,
    pub window: usize,
    pub candidates: [u64; 6],
}

impl Rules {
    // The largest total of a directory.
    pub const LIMIT: u32 = 512;
}

// An EFS: its place, and its two directory pointers as they stand.
#[derive(Clone, Copy, Debug, PartialEq, Eq)]
pub struct Efs {
    pub place: Offset,
    pub early: u32,
    pub late: u32,
}

impl Efs {
    // Where its fields begin, and its bytes.
    pub const SIGNATURE: usize = 0;

    pub const EARLY: usize = 0x10;

    pub const LATE: usize = 0x14;

    pub const BYTES: usize = 0x24;
}

// The directory pointer: the offset of its field in the EFS, its value as it stands there, and the place where it leads.
#[derive(Clone, Copy, Debug, PartialEq, Eq)]
pub struct Pointer {
    pub field: u32,
    pub value: u32,
    pub place: Offset,
}

// The rules for an image: its window is as long as the image.
pub fn rules_of(image: &[u8]) -> Rules
    ensures { result ≡ rules_of image.now }
{
    Rules {
        kind: directory::psp_kind(),
        limit: Rules::LIMIT,
        window: image.len(),
        candidates: [
            0xFFFA0000, 0xFFF20000, 0xFFE20000, 0xFFC20000, 0xFF820000, 0xFF020000,
        ],
    }
}

// The EFS: its place and its two directory pointers.
pub fn flash_efs(image: &[u8]) -> Result<Efs, Refusal>
    ensures { told_alone result ≡ flash_efs (rules_of image.now) image.now }
{
    if !window::length_allowed(image) {
        return Err(Refusal::Image);
    }
    efs_in(image, rules_of(image))
}

// The directory pointer: the field that holds it, its value, and the place where it leads.
pub fn flash_pointer(image: &[u8]) -> Result<Pointer, Refusal>
    ensures { told_alone result ≡ flash_pointer (rules_of image.now) image.now }
{
    if !window::length_allowed(image) {
        return Err(Refusal::Image);
    }
    pointer_in(image, rules_of(image))
}

// The directory pointer of an image of any length, by these rules.
pub fn pointer_in(image: &[u8], rules: Rules) -> Result<Pointer, Refusal>
    ensures { told_alone result ≡ pointer_in rules image.now }
{
    pointer_of(image, rules.window, efs_in(image, rules)?)
}

// The EFS of an image of any length, by these rules.
fn efs_in(image: &[u8], rules: Rules) -> Result<Efs, Refusal>
    ensures { told_alone result ≡ efs_in rules image.now }
{
    let at = efs_place(image, rules.window, &rules.candidates)?;
    Ok(efs_at(image, at))
}

// Where the EFS is: the first candidate that counts.
fn efs_place(image: &[u8], window: usize, candidates: &[u64]) -> Result<Offset, Refusal>
    ensures { told_alone result ≡ efs_place window candidates.now image.now }
{
    for &candidate in candidates {
        if let Ok(at) = candidate_at(image, window, candidate) {
            return Ok(at);
        }
    }
    Err(Refusal::Signature)
}

// The EFS at a physical address, if it counts.
#[tactic(auto, unfolding(crate::specs::Efs::candidate_at))]
fn candidate_at(image: &[u8], window: usize, address: u64) -> Result<Offset, Refusal>
    ensures { told_alone result ≡ candidate_at window image.now address }
{
    let at = Physical(address).offset(window)?;
    if !counts(image, at) {
        return Err(Refusal::Signature);
    }
    Ok(at)
}

// Does an EFS at an offset count?
fn counts(image: &[u8], at: Offset) -> bool
    ensures { result ≡ counts image.now at.0 }
{
    let o = at.0 as usize;
    o + Efs::BYTES <= image.len() && le::u32_at(image, o + Efs::SIGNATURE) == 0x55AA55AA
}

// The EFS at an offset.
fn efs_at(image: &[u8], at: Offset) -> Efs
    ensures { result ≡ efs_at image.now at }
{
    let o = at.0 as usize;
    Efs {
        place: at,
        early: le::u32_at(image, o + Efs::EARLY),
        late: le::u32_at(image, o + Efs::LATE),
    }
}

// The directory pointer of an EFS.
#[tactic(auto, unfolding(crate::specs::Efs::pointer_of))]
fn pointer_of(image: &[u8], window: usize, efs: Efs) -> Result<Pointer, Refusal>
    ensures { told_alone result ≡ pointer_of window image.now efs }
{
    if !absent(efs.late) {
        return pointer_from(image, window, Efs::LATE as u32, efs.late);
    }
    if absent(efs.early) {
        return Err(Refusal::Absent);
    }
    pointer_from(image, window, Efs::EARLY as u32, efs.early)
}

// Is there no such pointer?
fn absent(p: u32) -> bool
    ensures { result ≡ absent p }
{
    p == 0 || p == 0xFFFFFFFF
}

// A pointer that stands in a field of the EFS, and where it leads.
fn pointer_from(image: &[u8], window: usize, field: u32, value: u32) -> Result<Pointer, Refusal>
    ensures { told_alone result ≡ pointer_from window image.now field value }
{
    let place = pointer_to(image, window, value)?;
    Ok(Pointer {
        field,
        value,
        place,
    })
}

// Where a pointer leads: by the window, where that shows it, else as an offset.
fn pointer_to(image: &[u8], window: usize, p: u32) -> Result<Offset, Refusal>
    ensures { told_alone result ≡ pointer_to window image.now p }
{
    match Physical(p as u64).offset(window) {
        Ok(at) => at.within(image),
        Err(_) if (p as usize) < window => Offset(p).within(image),
        Err(_) => Err(Refusal::Outside),
    }
}
