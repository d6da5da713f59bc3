// Whether lent words begin with a mailbox's that keeps document 01's rules.
#![tactic(auto)]

ghost use Rattle.std.specs.Prelude.{◌≡◌, true, ◌&&◌, ℕ, ◌+◌, ◌<◌, ◌≤◌, length, get_or, eqb, map};
ghost use Rattle.mailbox.specs.Consistent.{posts_fit, times_in, caller_fits, all_below, consistent_of};
ghost use Rattle.mailbox_layout.specs.Layout.{start_of_places, start_of_interrupts, words_of_mailbox, phase_word, caller_word, word_word, part_word, place_word, interrupt_word};
ghost use Rattle.mailbox_layout.specs.Layout.{phase_from, part_from, post_from, place_from, interrupt_from, unpack_of};
ghost use Rattle.mailbox_held.specs.Held.{held_in, held_between};

use mailbox::Phase;
use mailbox_layout::{
    CALLER, COUNT, INTERFACE, INTERRUPTS, LINE, PART1, PART2, PART3, PLACES, REGISTER, WORD, WORDS,
};

// Whether words are a mailbox's: whether each is the word of what it says. Every word of the line is, and so is every count.

fn phase_held(phase: u64, caller: u64, word: u64) -> bool
    ensures { result ≡ (eqb phase (phase_word (phase_from phase caller word)) && eqb caller (caller_word (phase_from phase caller word)) && eqb word (word_word (phase_from phase caller word))) }
{
    match phase {
        0 => caller == 0 && word == 0,
        1 | 2 => caller < 0x1_0000_0000 && word < 0x1_0000_0000,
        _ => false,
    }
}

fn part_held(word: u64) -> bool
    ensures { result ≡ eqb word (part_word (part_from word)) }
{
    word == 0 || word / 0x1_0000 == 1
}

fn place_held(word: u64) -> bool
    ensures { result ≡ eqb word (place_word (place_from word)) }
{
    word == 0 || word == 0x1_0000_0000 || word / 0x1_0000_0000 == 2
}

// Below 4 stand no descriptor and one of three zero parts, each with delivery on and off. Bits 15:2 are no part's.
fn interrupt_held(word: u64) -> bool
    ensures { result ≡ eqb word (interrupt_word (interrupt_from word)) }
{
    word < 4 || word % 2 == 1 && word / 4 % 0x4000 == 0
}

// Are four words zero? They are read before they are tested, so that one test is made of four.
fn four_zero(words: &[u64], at: usize) -> bool
    requires { at + 4 ≤ length words.now }
    ensures { result ≡ true → (i : ℕ) → i < 4 → get_or words.now (at + i) 0 ≡ 0 }
{
    let a = words[at];
    let b = words[at + 1];
    let c = words[at + 2];
    let d = words[at + 3];
    a == 0 && b == 0 && c == 0 && d == 0
}

// The rules, asked of the line and the places.

// Whether the posts of the line have callers 0 to 7 and commands at most 0x3FF.
fn posts_fit(line: &[u64]) -> bool
    ensures { result ≡ posts_fit (map post_from line.now) }
{
    line.iter()
        .all(|&word| mailbox_layout::post_from(word).fits())
}

// How many posts of the line are the caller's. Added up with no branch, for speed: `filter` and `count` make one of each post.
#[tactic(auto, using(crate::proofs::FitLaws::times_all, std::proofs::lemmas::List::take_all))]
fn times_in(line: &[u64], caller: u32) -> usize
    ensures value { result ≡ times_in caller (map post_from line.now) }
    ensures upper_bound { result ≤ length line.now }
{
    let mut total = 0;
    for &word in line {
        total += mailbox_layout::post_from(word).is_of(caller);
    }
    total
}

// Whether a caller's post is found in line and register as often as its place says.
#[tactic(auto, using(crate::proofs::FitLaws::place_read))]
fn caller_fits(line: &[u64], places: &[u64], register: Phase, caller: u32) -> bool
    requires few { length line.now ≤ 8 }
    requires eight { length places.now ≡ 8 }
    requires caller_bound { caller ≤ 7 }
    ensures { result ≡ caller_fits (map post_from line.now) register (map place_from places.now) caller }
{
    let place = mailbox_layout::place_from(places[caller as usize]);
    times_in(line, caller) + register.holds(caller) == place.state.waits()
}

// The same for every caller.
fn callers_fit(line: &[u64], places: &[u64], register: Phase) -> bool
    requires few { length line.now ≤ 8 }
    requires eight { length places.now ≡ 8 }
    ensures { result ≡ all_below 8 (caller_fits (map post_from line.now) register (map place_from places.now)) }
{
    (0..8).all(|caller| caller_fits(line, places, register, caller))
}

// The whole.

// Lent words, as many as a mailbox has at least.
#[derive(Clone, Copy)]
struct Packed<'a> {
    words: &'a [u64],
    ghost long: { words_of_mailbox ≤ length words.now },
}

impl Packed<'_> {
    #[tactic(auto, using(crate::proofs::HeldLaws::head_all))]
    fn head_held(self) -> bool
        ensures { result ≡ held_between self.entry.words.now 0 start_of_places }
    {
        // by a name of its own, since a proof sees of a variable, and not of a field, that each word has 64 bits
        let words = self.words;
        phase_held(words[REGISTER], words[CALLER], words[WORD])
            && words[INTERFACE] <= 1
            && part_held(words[PART1])
            && part_held(words[PART2])
            && part_held(words[PART3])
    }

    fn places_held(self) -> bool
        ensures { result ≡ held_between self.entry.words.now start_of_places start_of_interrupts }
    {
        self.words[PLACES..INTERRUPTS]
            .iter()
            .all(|&word| place_held(word))
    }

    // The words of eight IDs. Most keep nothing.
    fn eight_held(self, at: usize) -> bool
        requires { (start_of_interrupts ≤ at) × (at + 8 ≤ words_of_mailbox) }
        ensures { result ≡ held_between self.entry.words.now at (at + 8) }
    {
        if four_zero(self.words, at) && four_zero(self.words, at + 4) {
            return true;
        }
        self.words[at..at + 8]
            .iter()
            .all(|&word| interrupt_held(word))
    }

    fn interrupts_held(self) -> bool
        ensures { result ≡ held_between self.entry.words.now start_of_interrupts words_of_mailbox }
    {
        (0..8).all(|eight| self.eight_held(INTERRUPTS + eight * 8))
    }

    // Whether the words begin with a mailbox's.
    #[tactic(auto, using(crate::proofs::HeldLaws::held_parts))]
    fn held(self) -> bool
        ensures { result ≡ held_in self.entry.words.now }
    {
        self.head_held() && self.places_held() && self.interrupts_held()
    }

    // Whether that mailbox keeps document 01's rules.
    #[tactic(auto, using(crate::proofs::FitLaws::not_few, crate::proofs::FitLaws::rules_read))]
    fn consistent(self) -> bool
        ensures { result ≡ consistent_of (unpack_of self.entry.words.now) }
    {
        if 8 < self.words[COUNT] {
            return false;
        }
        let line = &self.words[LINE..LINE + self.words[COUNT] as usize];
        let register = mailbox_layout::phase_from(
            self.words[REGISTER],
            self.words[CALLER],
            self.words[WORD],
        );
        posts_fit(line)
            && register.fits()
            && callers_fit(line, &self.words[PLACES..INTERRUPTS], register)
    }
}

// Whether the lent words begin with a mailbox's that keeps document 01's rules.
#[tactic(auto, using(crate::proofs::HeldLaws::held_long))]
pub fn serves(words: &[u64]) -> bool
    ensures { result ≡ (held_in words.now && consistent_of (unpack_of words.now)) }
{
    if words.len() < WORDS {
        return false;
    }
    let packed = Packed { words };
    packed.held() && packed.consistent()
}
