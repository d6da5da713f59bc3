// Document 01's checksum: Fletcher's 32-bit sum of a slice of bytes, taken as 16-bit words; a last odd byte is left out.
// The two sums are folded once every 359 words, between which 32 bits hold them (specs/Fold.antt), and the words are added four at a time.
#![tactic(auto)]

ghost use Rattle.std.specs.Prelude.{◌≡◌, ◌+◌, ◌*◌, ◌-◌, ◌/◌, ◌%◌, ◌^◌, ◌<◌, ◌≤◌, length};
ghost use Rattle.fletcher.specs.Fletcher.{words_at, fletcher_of, written_of};
ghost use Rattle.fletcher.specs.Fold.{sum_after, weighted_after};
ghost use Rattle.fletcher.specs.Join.{joined_of, raised_of};
ghost use Rattle.fletcher.specs.Run.{Reached, across_of, excess_of};

// How many bytes a run has at most: 359 words.
const RUN: usize = 2 * 359;

// A folded sum as it is written: 0 as 65,535.
fn written(folded: u32) -> u32
    requires { folded < 65535 }
    ensures { result ≡ written_of folded }
{
    if folded == 0 { 65535 } else { folded }
}

// Of four words in a number the first and the third, each with 32 bits of its own.
fn alternate(four: u64) -> u64
    ensures { result ≡ four % 65536 + 4294967296 * (four / 4294967296 % 65536) }
{
    four % 65536 + 4294967296 * (four / 4294967296 % 65536)
}

// Four sums of 32 bits in two numbers, added up.
fn across(odd: u64, even: u64) -> u64
    ensures { result ≡ across_of odd even }
{
    odd % 4294967296 + even % 4294967296 + odd / 4294967296 + even / 4294967296
}

// What four times the sums of the sums has too much.
fn excess(odd: u64, even: u64) -> u64
    ensures { result ≡ excess_of odd even }
{
    even % 4294967296 + 2 * (odd / 4294967296) + 3 * (even / 4294967296)
}

// S and T, or numbers that come to the same modulo 65,535.
#[derive(Clone, Copy)]
struct Sums {
    sum: u32,
    weighted: u32,
}

impl Sums {
    // The fold: both sums modulo 65,535.
    fn folded(self) -> Sums
        ensures { (result.sum ≡ self.sum % 65535) × (result.weighted ≡ self.weighted % 65535) }
    {
        Sums {
            sum: self.sum % 65535,
            weighted: self.weighted % 65535,
        }
    }

    // The checksum of folded sums.
    #[tactic(auto, using(crate::proofs::Laws::written_small))]
    fn field(self) -> u32
        requires { (self.sum < 65535) × (self.weighted < 65535) }
        ensures { result ≡ written_of self.weighted * 65536 + written_of self.sum }
    {
        written(self.weighted) * 65536 + written(self.sum)
    }

    // The sums of what the lanes came to, where T was `self.weighted`.
    fn with_lanes(self, low: u64, high: u64, less: u64) -> Sums
        requires low_bound { (low < 2 ^ 32) × (high < 2 ^ 32) }
        requires less_bound { less ≤ self.weighted + 4 * high }
        requires less_bound_2 { self.weighted + 4 * high - less < 2 ^ 32 }
        ensures { (result.sum ≡ low) × (result.weighted ≡ self.weighted + 4 * high - less) }
    {
        Sums {
            sum: low as u32,
            weighted: (u64::from(self.weighted) + 4 * high - less) as u32,
        }
    }

    // The sums with as many fours of words as a run has, not folded. Each of four words has 32 bits of its own to be added up in, the first and the third
    // in `odd`, the second and the fourth in `even`; once for all four, these are added to `odd_sums` and `even_sums`.
    fn with_fours(self, run: &[u8]) -> Sums
        requires fours_bound { length run.now / 8 ≤ 89 }
        requires sum_bound { (self.sum < 65535) × (self.weighted < 65535) }
        ensures { Reached run.now 0 (4 * (length run.now / 8)) self result }
    {
        let mut odd = u64::from(self.sum);
        let mut even: u64 = 0;
        let mut odd_sums: u64 = 0;
        let mut even_sums: u64 = 0;
        // By index, since the compiler unrolls `chunks_exact` less.
        for k in 0..run.len() / 8 {
            // A part of constant length: that it lies in the run is proved, and the read of it makes no test.
            let at = 8 * k;
            let four = le::u64_at(&run[at..at + 8], 0);
            odd += alternate(four);
            even += alternate(four / 65536);
            odd_sums += odd;
            even_sums += even;
        }
        self.with_lanes(
            across(odd, even),
            across(odd_sums, even_sums),
            excess(odd, even),
        )
    }

    // The sums with the words of a run, folded at its end.
    fn with_run(self, run: &[u8]) -> Sums
        requires run_bound { length run.now ≤ 718 }
        requires sum_bound { (self.sum < 65535) × (self.weighted < 65535) }
        ensures sum { result.sum ≡ sum_after self.sum (words_at (length run.now / 2) run.now 0) % 65535 }
        ensures weighted { result.weighted ≡ weighted_after self.sum self.weighted (words_at (length run.now / 2) run.now 0) % 65535 }
    {
        let mut sums = self.with_fours(run);
        for k in run.len() / 8 * 4..run.len() / 2 {
            let at = 2 * k;
            let word = u32::from(le::u16_at(&run[at..at + 2], 0));
            sums.sum += word;
            sums.weighted += sums.sum;
        }
        sums.folded()
    }
}

// The checksum of a slice of bytes.
pub fn fletcher(s: &[u8]) -> u32
    ensures { result ≡ fletcher_of s.now }
{
    let mut sums = Sums {
        sum: 0,
        weighted: 0,
    };
    for run in s.chunks(RUN) {
        sums = sums.with_run(run);
    }
    sums.field()
}

// The checksum of words with n others behind them, from both checksums.
#[tactic(auto, using(crate::proofs::Modulo::written_mod), unfolding(crate::specs::Join::joined_of))]
pub fn joined(first: u32, n: u16, second: u32) -> u32
    ensures { result ≡ joined_of first n second }
{
    let sums = Sums {
        sum: first % 65536 + second % 65536,
        weighted: first / 65536 + u32::from(n) * (first % 65536) + second / 65536,
    };
    sums.folded().field()
}

// The checksum of words whose first, of this weight, is one larger than it was for `of`.
#[tactic(auto, using(crate::proofs::Modulo::written_mod), unfolding(crate::specs::Join::raised_of))]
pub fn raised(of: u32, weight: u16) -> u32
    ensures { result ≡ raised_of of weight }
{
    let sums = Sums {
        sum: of % 65536 + 1,
        weighted: of / 65536 + u32::from(weight),
    };
    sums.folded().field()
}
