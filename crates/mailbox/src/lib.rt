// The mailbox: a line of accepted posts, eight caller places, and the register before the firmware; and whether it keeps document 01's rules.
#![tactic(auto)]

ghost use Rattle.std.specs.Prelude.{◌≡◌, ◌≤◌, length, eqb};
ghost use Rattle.mailbox.specs.Machine.{waiting, fresh_mailbox};
ghost use Rattle.mailbox.specs.Consistent.{post_fits, posts_fit, register_fits, once, times_in, register_holds, waits, caller_fits, all_below, consistent_of};

use firmware::Firmware;

// What the register holds.
#[derive(Clone, Copy)]
pub enum Phase {
    Idle,
    Command { caller: u32, word: u32 },
    Response { caller: u32, word: u32 },
}

// Where a caller's untaken post is: there is none, it waits in line or register, or its word is here to be taken.
#[derive(Clone, Copy)]
pub enum PlaceState {
    Free,
    Waiting,
    Ready(u32),
}

// A caller's place: a record, as document 01 asks, though it has one field.
#[derive(Clone, Copy)]
pub struct Place {
    pub state: PlaceState,
}

// A post in the line; the default is what an empty slot holds.
#[derive(Clone, Copy, Default)]
pub struct Post {
    pub caller: u32,
    pub command: u16,
    pub data: u16,
}

// The first `count` posts of the line wait, the oldest first.
#[derive(Clone, Copy)]
pub struct Mailbox {
    pub register: Phase,
    pub count: usize,
    pub line: [Post; 8],
    pub places: [Place; 8],
    pub firmware: Firmware,
}

impl Post {
    // 1 where the post is the caller's, else 0.
    pub fn is_of(self, caller: u32) -> usize
        ensures value { result ≡ once (eqb self.caller caller) }
        ensures upper_bound { result ≤ 1 }
    {
        usize::from(self.caller == caller)
    }

    pub fn fits(self) -> bool
        ensures { result ≡ post_fits self }
    {
        self.caller <= 7 && self.command <= 0x3FF
    }
}

// How many of the posts are the caller's.
#[tactic(auto, using(crate::proofs::ConsistentLaws::times_counted))]
fn times_in(posts: &[Post], caller: u32) -> usize
    ensures value { result ≡ times_in caller posts.now }
    ensures upper_bound { result ≤ length posts.now }
{
    posts.iter().filter(|post| post.caller == caller).count()
}

// Whether the posts have callers 0 to 7 and commands at most 0x3FF.
fn posts_fit(posts: &[Post]) -> bool
    ensures { result ≡ posts_fit posts.now }
{
    posts.iter().all(|post| post.fits())
}

impl Phase {
    #[tactic(auto, unfolding(crate::specs::Consistent::register_fits))]
    pub fn fits(self) -> bool
        ensures { result ≡ register_fits self }
    {
        match self {
            Phase::Idle => true,
            Phase::Command { caller, word } => caller <= 7 && word / 0x1_0000 <= 0x3FF,
            Phase::Response { caller, .. } => caller <= 7,
        }
    }

    // How often the caller's post is in the register.
    #[tactic(auto, unfolding(crate::specs::Consistent::register_holds))]
    pub fn holds(self, caller: u32) -> usize
        ensures value { result ≡ register_holds caller self }
        ensures upper_bound { result ≤ 1 }
    {
        match self {
            Phase::Idle => 0,
            Phase::Command { caller: holder, .. } | Phase::Response { caller: holder, .. } => {
                usize::from(holder == caller)
            }
        }
    }
}

impl PlaceState {
    // How often the caller's post is to be found in line and register.
    pub fn waits(self) -> usize
        ensures { result ≡ waits self }
    {
        match self {
            PlaceState::Free | PlaceState::Ready(_) => 0,
            PlaceState::Waiting => 1,
        }
    }
}

impl Mailbox {
    // Whether a caller's post is found in line and register as often as its place says.
    fn caller_fits(&self, caller: u32) -> bool
        requires count_bound { self.now.count ≤ 8 }
        requires caller_bound { caller ≤ 7 }
        ensures { result ≡ caller_fits (waiting self.now) self.now.register self.now.places caller }
    {
        let posts = &self.line[..self.count];
        times_in(posts, caller) + self.register.holds(caller)
            == self.places[caller as usize].state.waits()
    }

    // The same for every caller.
    fn callers_fit(&self) -> bool
        requires { self.now.count ≤ 8 }
        ensures { result ≡ all_below 8 (caller_fits (waiting self.now) self.now.register self.now.places) }
    {
        (0..8).all(|caller| self.caller_fits(caller))
    }

    // Whether the mailbox keeps document 01's rules.
    #[tactic(auto, unfolding(crate::specs::Consistent::consistent_of))]
    pub fn consistent(self) -> bool
        ensures { result ≡ consistent_of self }
    {
        self.count <= 8
            && posts_fit(&self.line[..self.count])
            && self.register.fits()
            && self.callers_fit()
    }

    // Nothing in line, register and places, before fresh firmware.
    pub fn fresh() -> Self
        ensures { result ≡ fresh_mailbox }
    {
        Mailbox {
            register: Phase::Idle,
            count: 0,
            line: [Post::default(); 8],
            places: [Place {
                state: PlaceState::Free,
            }; 8],
            firmware: Firmware::fresh(),
        }
    }
}
