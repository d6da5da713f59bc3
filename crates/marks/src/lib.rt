// Marks of numbers that were seen: a bit for each, in words of 64.
#![tactic(auto)]

ghost use Rattle.std.specs.Prelude.{◌≡◌, ◌<◌, ◌/◌, ◌%◌, ◌^◌};
ghost use Rattle.std.specs.Int.Bits.{bit_or};
ghost use Rattle.marks.specs.Marks.{bit_of, kept_as};

// Another form of a word of marks. A word is kept so, since an array that begins with ones is cleared by plain stores, and one of zeros by a call.
#[tactic(auto, using(crate::proofs::Bits::kept_xor))]
fn kept(word: u64) -> u64
    ensures { result ≡ kept_as word }
{
    word ^ 1
}

// The word that has the mark of a number.
pub fn cell(number: u16) -> usize
    ensures value { result ≡ number / 64 }
    ensures upper_bound { result < 1024 }
{
    usize::from(number / 64)
}

// Has the word the mark?
pub fn marked(word: u64, number: u16) -> bool
    ensures { result ≡ bit_of (kept_as word) (number % 64) }
{
    (kept(word) >> (number % 64)) % 2 == 1
}

// The word with the mark.
#[tactic(auto, using(crate::proofs::Bits::one_shifted))]
pub fn with_mark(word: u64, number: u16) -> u64
    ensures { result ≡ kept_as (bit_or (kept_as word) (2 ^ (number % 64))) }
{
    kept(kept(word) | (1u64 << (number % 64)))
}
