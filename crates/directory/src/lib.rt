// A directory at an offset of an image: its checks, and which of its entries repeat.
#![tactic(auto)]

ghost use Rattle.std.specs.Prelude.{◌≡◌, ◌<◌, ◌≤◌, ◌^◌, ◌+◌, ◌*◌, ◌/◌, ◌%◌, length, get_or, eqb, ltb, false, ◌||◌};
ghost use Rattle.le.specs.Le.{Bytes, bits_from};
ghost use Rattle.le.specs.Field.{get};
ghost use Rattle.reply.specs.Reply.{in_header, check, told};
ghost use Rattle.reply.specs.Some.{some_below, first_below};
ghost use Rattle.directory.specs.Header as header;
ghost use Rattle.directory.specs.Directory.{psp_kind, cookie_of, entry_place, checksum_at, may_stand, same_entry, repeats_earlier, entries_at, directory_checks, directory_at, directory_by_cookie};
ghost use Rattle.directory.specs.Repeat.{earlier_of, repeat_in, repeated_at};
ghost use Rattle.directory.specs.Looks.{head_at, flags_used, clear_below, faulty_head, faulty_at, bad_at, ended_at};

use reply::{Fault, Met, Refusal};
use window::Offset;

// What kinds of directory differ in: the cookies of the two levels, an entry's bytes, the type that leads to level two,
// the type that holds a value, how many of an entry's flags are used, from the lowest up, and whether an entry may repeat an earlier type and subprogram.
#[derive(Clone, Copy, Debug, PartialEq, Eq)]
pub struct Kind {
    pub one: u32,
    pub two: u32,
    pub entry: u8,
    pub lead: u8,
    pub value: u16,
    pub used: u8,
    pub repeats: bool,
}

impl Kind {
    // Where the fields of an entry begin, in every kind.
    pub const CLASS: usize = 0;

    pub const SUBPROGRAM: usize = 1;

    pub const FLAGS: usize = 2;

    pub const SIZE: usize = 4;

    pub const LOCATION: usize = 8;
}

// PSP directories.
pub fn psp_kind() -> Kind
    ensures { result ≡ psp_kind }
{
    Kind {
        one: 0x50535024,
        two: 0x324C5024,
        entry: 16,
        lead: 0x40,
        value: 0x0B,
        used: 0,
        repeats: false,
    }
}

// A directory that was checked: where it begins, its level, and how many entries it has. Its fields are this crate's own, so that no caller can
// make one by hand: the checks below give the only ones there are.
#[derive(Clone, Copy, Debug, PartialEq, Eq)]
pub struct Directory {
    place: Offset,
    level: u32,
    total: u32,
}

impl Directory {
    pub fn place(self) -> Offset
        ensures { result ≡ self.place }
    {
        self.place
    }

    pub fn level(self) -> u32
        ensures { result ≡ self.level }
    {
        self.level
    }

    pub fn total(self) -> u32
        ensures { result ≡ self.total }
    {
        self.total
    }

    // Where the fields of its header begin, and the header's bytes.
    pub const COOKIE: usize = 0;

    pub const CHECKSUM: usize = 4;

    pub const TOTAL: usize = 8;

    pub const RESERVED: usize = 12;

    pub const HEADER: usize = 16;
}

// The cookie of a level.
pub fn cookie_of(kind: Kind, level: u32) -> u32
    ensures { result ≡ cookie_of kind level }
{
    if level == 1 { kind.one } else { kind.two }
}

// Where entry i begins.
pub fn entry_place(kind: Kind, at: Offset, i: u32) -> usize
    ensures value { result ≡ entry_place kind at.0 i }
    ensures upper_bound { result < 2 ^ 48 }
{
    (at.0 as usize) + Directory::HEADER + (i as usize) * (kind.entry as usize)
}

// How many of an entry's sixteen flags are used.
fn flags_used(used: u8) -> u8
    ensures { result ≡ flags_used used }
{
    used.min(16)
}

// What the first four bytes of an entry, as a number, are below where its reserved bits are zero. A loop that asks it has one number to compare with.
fn clear_below(used: u8) -> u64
    ensures { result ≡ clear_below used }
{
    65536u64 << flags_used(used)
}

// Are the reserved bits of an entry that begins like this zero?
#[tactic(auto, using(crate::proofs::Steps::reserved_test))]
fn reserved_zero(kind: Kind, head: u32) -> bool
    ensures { result ≡ eqb (bits_from kind.used (head / 65536)) 0 }
{
    (head as u64) < clear_below(kind.used)
}

// May an entry of this type stand in a directory of this level?
pub fn may_stand(kind: Kind, level: u32, class: u8) -> bool
    ensures { result ≡ may_stand kind level class }
{
    level == 1 || class != kind.lead
}

// Is an entry that begins like this at fault by itself: reserved bits that are not zero, or a lead that is misplaced?
fn faulty_head(kind: Kind, level: u32, head: u32) -> bool
    ensures { result ≡ faulty_head kind level head }
{
    !reserved_zero(kind, head) || !may_stand(kind, level, (head % 256) as u8)
}

// Is one of the two true? A loop that asks this has no branch to make.
fn either(a: bool, b: bool) -> bool
    ensures { result ≡ (a || b) }
{
    if a { true } else { b }
}

// The entries of a directory of a level, all of which lie in the image.
#[derive(Clone, Copy)]
struct Entries<'a> {
    image: &'a [u8],
    kind: Kind,
    level: u32,
    at: Offset,
    total: u32,
    ghost inside: { entry_place kind at.0 total ≤ length image.now },
    // This is known of a slice that is lent to a function, but not of one in a struct.
    ghost bytes: { Bytes image.now },
}

impl Entries<'_> {
    // The first four bytes of entry i as a number: its type, its subprogram, and its 16 bits at 2.
    #[tactic(auto, using(le::proofs::Part::le_own))]
    fn head_at(&self, i: u32) -> u32
        requires { i < self.now.total }
        ensures { result ≡ head_at self.now.kind self.now.image.now self.now.at.0 i }
    {
        let e = entry_place(self.kind, self.at, i);
        // No kind has entries as short as that; the test is made once, and the reads of a loop need none.
        if self.kind.entry < 4 {
            return le::u32_at(self.image, e);
        }
        le::u32_at(&self.image[e..e + 4], 0)
    }

    // The first that is at fault by itself, or their number.
    fn first_fault(&self) -> u32
        ensures value { result ≡ first_below (faulty_at self.now.kind self.now.level self.now.image.now self.now.at.0) self.now.total }
        ensures within { result ≤ self.now.total }
    {
        (0..self.total)
            .find(
                |&i|
                    requires { i < self.now.total }
                { faulty_head(self.kind, self.level, self.head_at(i)) },
            )
            .unwrap_or(self.total)
    }

    // Is some entry at fault, by itself or since it repeats an earlier one? Each type and subprogram that was seen has a mark.
    fn bad_by_marks(&self) -> bool
        ensures { result ≡ some_below (bad_at self.now.kind self.now.level self.now.image.now self.now.at.0) self.now.total }
    {
        let mut seen = [1u64; 1024];
        let mut bad = false;
        for i in 0..self.total {
            let head = self.head_at(i);
            let pair = (head % 65536) as u16;
            let w = marks::cell(pair);
            let word = seen[w];
            let fault = faulty_head(self.kind, self.level, head);
            bad = either(either(fault, marks::marked(word, pair)), bad);
            seen[w] = marks::with_mark(word, pair);
        }
        bad
    }

    // The same with 64 words of marks, which are sooner ready: enough where every subprogram is below 16. One that is not makes the answer yes.
    fn bad_by_few_marks(&self) -> bool
        ensures { result ≡ false → some_below (bad_at self.now.kind self.now.level self.now.image.now self.now.at.0) self.now.total ≡ false }
    {
        // Copies, since read through `self` these two would be one more instruction in each pass.
        let kind = self.kind;
        let level = self.level;
        let mut seen = [1u64; 64];
        let mut bad = false;
        for i in 0..self.total {
            let head = self.head_at(i);
            let pair = (head % 65536) as u16;
            let w = marks::cell(pair) % 64;
            let word = seen[w];
            let again = either(4096 <= pair, marks::marked(word, pair));
            bad = either(either(faulty_head(kind, level, head), again), bad);
            seen[w] = marks::with_mark(word, pair);
        }
        bad
    }

    // Is some entry at fault? Where they are few, few marks tell it of most directories.
    fn some_bad(&self) -> bool
        ensures { result ≡ some_below (bad_at self.now.kind self.now.level self.now.image.now self.now.at.0) self.now.total }
    {
        if self.total <= 64 && !self.bad_by_few_marks() {
            return false;
        }
        self.bad_by_marks()
    }

    // The answer where the first that is at fault by itself is `end`, or none is and `end` is their number, and none before it repeats where it may not.
    #[tactic(auto, using(crate::proofs::Steps::ended_misplaced, crate::proofs::Steps::ended_field))]
    fn ended_at(&self, end: u32) -> Result<Directory, Fault>
        ensures { told result ≡ ended_at self.now.kind self.now.level self.now.image.now self.now.at.0 self.now.total end }
    {
        if end < self.total {
            let met = Met::Entry {
                level: self.level,
                index: end,
                directory: self.at.0,
            };
            if reserved_zero(self.kind, self.head_at(end)) {
                return Err(Fault {
                    refusal: Refusal::Misplaced,
                    met,
                });
            }
            return Err(Fault {
                refusal: Refusal::Field,
                met,
            });
        }
        Ok(Directory {
            place: self.at,
            level: self.level,
            total: self.total,
        })
    }

    // The first refusal among them, or the directory. Most directories are good, and one pass tells; else the order is found out.
    #[tactic(auto, using(crate::proofs::Steps::ends_any, crate::proofs::Steps::ends_first, crate::proofs::Steps::ends_good, crate::proofs::Steps::ends_repeated))]
    fn answer(&self) -> Result<Directory, Fault>
        ensures { told result ≡ entries_at self.now.kind self.now.level self.now.image.now self.now.at.0 self.now.total }
    {
        if self.kind.repeats {
            return self.ended_at(self.first_fault());
        }
        if self.some_bad() {
            let end = self.first_fault();
            let before = Entries {
                image: self.image,
                kind: self.kind,
                level: self.level,
                at: self.at,
                total: end,
            };
            if before.some_bad() {
                let met = Met::Entry {
                    level: self.level,
                    index: before.first_repeat(),
                    directory: self.at.0,
                };
                return Err(Fault {
                    refusal: Refusal::Repeated,
                    met,
                });
            }
            return self.ended_at(end);
        }
        self.ended_at(self.total)
    }

    // The checks of the directory that has them: checksum, header reserved, entries.
    fn sealed(&self) -> Result<Directory, Fault>
        ensures { told result ≡ check (eqb (get header.checksum self.now.image.now self.now.at.0) (checksum_at self.now.kind self.now.image.now self.now.at.0 self.now.total)) 4 (in_header self.now.level self.now.at.0) (check (eqb (get header.reserved self.now.image.now self.now.at.0) 0) 5 (in_header self.now.level self.now.at.0) (entries_at self.now.kind self.now.level self.now.image.now self.now.at.0 self.now.total)) }
    {
        let met = Met::Header {
            level: self.level,
            directory: self.at.0,
        };
        let o = self.at.0 as usize;
        let end = entry_place(self.kind, self.at, self.total);
        let sum = fletcher::fletcher(&self.image[o + Directory::TOTAL..end]);
        if le::u32_at(self.image, o + Directory::CHECKSUM) != sum {
            return Err(Fault {
                refusal: Refusal::Checksum,
                met,
            });
        }
        if le::u32_at(self.image, o + Directory::RESERVED) != 0 {
            return Err(Fault {
                refusal: Refusal::Field,
                met,
            });
        }
        self.answer()
    }

    // The first that repeats an earlier one, or their number. Each type and subprogram that was seen has a mark.
    #[tactic(auto, using(crate::proofs::Steps::comes_to))]
    fn first_repeat(&self) -> u32
        ensures { result ≡ first_below (repeats_earlier self.now.kind self.now.image.now self.now.at.0) self.now.total }
    {
        let mut seen = [1u64; 1024];
        // No `find`: each pass leaves a mark.
        for i in 0..self.total {
            let pair = (self.head_at(i) % 65536) as u16;
            let w = marks::cell(pair);
            let word = seen[w];
            if marks::marked(word, pair) {
                return i;
            }
            seen[w] = marks::with_mark(word, pair);
        }
        self.total
    }

    // The first that repeats an earlier one, and that one.
    fn repeat(&self) -> Repeat
        ensures { result ≡ repeat_in self.now.kind self.now.image.now self.now.at.0 self.now.total }
    {
        let i = self.first_repeat();
        let e = entry_place(self.kind, self.at, i);
        Repeat {
            entry: i,
            earlier: earlier_of(self.image, self.kind, self.at, i),
            class: le::u8_at(self.image, e + Kind::CLASS),
            subprogram: le::u8_at(self.image, e + Kind::SUBPROGRAM),
        }
    }
}

// All checks of a directory of a level, of at most so many entries. A level that there is not is refused.
#[tactic(auto, using(crate::proofs::Cases::level_above))]
pub fn directory_at(
    image: &[u8],
    kind: Kind,
    limit: u32,
    level: u32,
    at: Offset,
) -> Result<Directory, Fault>
    ensures { told result ≡ directory_at kind limit level image.now at.0 }
{
    if level < 1 || 2 < level {
        return Err(Refusal::Range.into());
    }
    checked(image, kind, limit, level, at)
}

// The checks of a directory of level one or two.
#[tactic(auto, using(std::proofs::lemmas::Bool::Decides::nat_tests), unfolding(crate::specs::Directory::directory_checks))]
fn checked(image: &[u8], kind: Kind, limit: u32, level: u32, at: Offset) -> Result<Directory, Fault>
    ensures { told result ≡ directory_checks kind limit level image.now at.0 }
{
    let met = Met::Header {
        level,
        directory: at.0,
    };
    let o = at.0 as usize;
    if image.len() < o + Directory::HEADER {
        return Err(Fault {
            refusal: Refusal::Short,
            met,
        });
    }
    if le::u32_at(image, o + Directory::COOKIE) != cookie_of(kind, level) {
        return Err(Fault {
            refusal: Refusal::Signature,
            met,
        });
    }
    let total = le::u32_at(image, o + Directory::TOTAL);
    if limit < total {
        return Err(Fault {
            refusal: Refusal::Limits,
            met,
        });
    }
    if image.len() < entry_place(kind, at, total) {
        return Err(Fault {
            refusal: Refusal::Short,
            met,
        });
    }
    let entries = Entries {
        image,
        kind,
        level,
        at,
        total,
    };
    entries.sealed()
}

// All checks of a directory of the level that its cookie names.
#[tactic(auto, using(std::proofs::lemmas::Bool::Decides::nat_tests), unfolding(crate::specs::Directory::directory_by_cookie))]
pub fn directory_by_cookie(
    image: &[u8],
    kind: Kind,
    limit: u32,
    at: Offset,
) -> Result<Directory, Fault>
    ensures { told result ≡ directory_by_cookie kind limit image.now at.0 }
{
    let met = Met::Header {
        level: 0,
        directory: at.0,
    };
    let o = at.0 as usize;
    if image.len() < o + Directory::HEADER {
        return Err(Fault {
            refusal: Refusal::Short,
            met,
        });
    }
    let found = le::u32_at(image, o + Directory::COOKIE);
    if found == kind.one {
        return checked(image, kind, limit, 1, at);
    }
    if found == kind.two {
        return checked(image, kind, limit, 2, at);
    }
    Err(Fault {
        refusal: Refusal::Signature,
        met,
    })
}

// Two entries of one type and subprogram: the one that repeats, the earlier one, and what both have.
#[derive(Clone, Copy, Debug, PartialEq, Eq)]
pub struct Repeat {
    pub entry: u32,
    pub earlier: u32,
    pub class: u8,
    pub subprogram: u8,
}

// Have entries i and j the same type and subprogram?
fn same_entry(image: &[u8], kind: Kind, at: Offset, i: u32, j: u32) -> bool
    ensures { result ≡ same_entry kind image.now at.0 i j }
{
    let a = entry_place(kind, at, i);
    let b = entry_place(kind, at, j);
    le::u8_at(image, b + Kind::CLASS) == le::u8_at(image, a + Kind::CLASS)
        && le::u8_at(image, b + Kind::SUBPROGRAM) == le::u8_at(image, a + Kind::SUBPROGRAM)
}

// The first entry before i that has its type and subprogram, or i.
pub fn earlier_of(image: &[u8], kind: Kind, at: Offset, i: u32) -> u32
    ensures { result ≡ earlier_of kind image.now at.0 i }
{
    (0..i)
        .find(|&j| same_entry(image, kind, at, i, j))
        .unwrap_or(i)
}

// Of a directory of a level that is refused since an entry repeats: which two entries. Every other refusal stays, and a good directory has none (8).
pub fn repeated_at(
    image: &[u8],
    kind: Kind,
    limit: u32,
    level: u32,
    at: Offset,
) -> Result<Repeat, Fault>
    ensures { told result ≡ repeated_at kind limit level image.now at.0 }
{
    match directory_at(image, kind, limit, level, at) {
        Ok(_) => Err(Refusal::Absent.into()),
        Err(fault) => match fault.refusal {
            Refusal::Repeated => {
                let total = le::u32_at(image, (at.0 as usize) + Directory::TOTAL);
                let entries = Entries {
                    image,
                    kind,
                    level,
                    at,
                    total,
                };
                Ok(entries.repeat())
            }
            _ => Err(fault),
        },
    }
}
