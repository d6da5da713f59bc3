// The lookup in a whole flash image: a directory walk and an entry walk that call each other.
#![tactic(auto)]

ghost use Rattle.std.specs.Prelude.{ℕ, ◌≡◌, true, ◌+◌, ◌-◌, ◌<◌, ◌≤◌, IfOk};
ghost use Rattle.reply.specs.Reply.{told, told_search};
ghost use Rattle.window.specs.Length.{length_allowed};
ghost use Rattle.efs.specs.Rules.{rules_of};
ghost use Rattle.walk.specs.Walk.{walk_of, first_in, find_image};
ghost use Rattle.walk.specs.Probe.{probe_of, is_pass, found_from, Enterable, Small};

use directory::Directory;
use efs::Rules;
use reply::{Fault, Missed};
use window::Offset;

// A match in a whole image: its directory's place and level, its index, and the number of entries tested.
#[derive(Clone, Copy, Debug, PartialEq, Eq)]
pub struct ImageMatch {
    pub place: Offset,
    pub level: u32,
    pub index: u32,
    pub tested: u32,
}

// What the test of an entry comes to: a match, nothing, or a directory to be walked before the next entry.
#[derive(Clone, Copy)]
enum Probe {
    Match,
    Pass,
    Enter(Directory),
}

// What the walk of a directory goes by: the rules of the image, the type and subprogram looked for, the directory, and how many levels are left below it.
#[derive(Clone, Copy)]
struct Search {
    rules: Rules,
    class: u8,
    sub: u8,
    directory: Directory,
    depth: u32,
}

impl Search {
    // Entry i, tested.
    #[tactic(auto, using(crate::proofs::Steps::level_few), unfolding(crate::specs::Probe::probed))]
    fn probe(self, image: &[u8], i: u32) -> Result<Probe, Fault>
        requires { length_allowed image.now ≡ true }
        ensures result_value { told result ≡ probe_of self image.now i }
        ensures enterable { IfOk result (λ probe. Enterable self probe) }
    {
        let e = entries::entry_in(image, self.rules.kind, self.directory, i as usize)?;
        if entries::matches(e, self.class, self.sub) {
            return Ok(Probe::Match);
        }
        if e.class != self.rules.kind.lead || self.depth == 0 {
            return Ok(Probe::Pass);
        }
        let below = flash::level_two_at(image, self.rules, self.directory, i, e)?;
        Ok(Probe::Enter(below))
    }

    // Is entry i passed by? Two bytes tell.
    #[tactic(auto, using(crate::proofs::Steps::pass_is))]
    fn passes(self, image: &[u8], i: u32) -> bool
        requires { i < self.directory.total }
        ensures { result ≡ is_pass (probe_of self image.now i) }
    {
        let kind = self.rules.kind;
        let at = self.directory.place();
        if entries::entry_matches(image, kind, at, i, self.class, self.sub) {
            return false;
        }
        entries::class_at(image, kind, at, i) != kind.lead || self.depth == 0
    }

    // Passes entries by, from one on: the first that is not passed by, or the total.
    fn pass_by(self, image: &[u8], from: u32) -> u32
        requires { from ≤ self.directory.total }
        ensures within { (from ≤ result) × (result ≤ self.directory.total) }
        ensures same { (tested : ℕ) → found_from self image.now result (tested + (result - from)) ≡ found_from self image.now from tested }
    {
        let total = self.directory.total();
        for i in from..total {
            if !self.passes(image, i) {
                return i;
            }
        }
        total
    }
}

// The walk of a directory, after so many entries tested.
#[tactic(auto, using(crate::proofs::Steps::found_whole))]
#[cycle(walk_directory_walk_entry)]
fn walk_directory(image: &[u8], by: Search, tested: u32) -> Result<ImageMatch, Missed<Fault>>
    requires { Small by image.now 0 tested }
    ensures { told_search result ≡ first_in by.rules.kind image.now by.class by.sub (walk_of by.depth by.rules image.now by.directory) tested }
{
    walk_entry(image, by, 0, tested)
}

// The walk of the entries of a directory from one on.
#[tactic(auto, using(crate::proofs::Steps::found_none, crate::proofs::Steps::by_match, crate::proofs::Steps::by_pass, crate::proofs::Steps::enter_given, crate::proofs::Steps::enter_refused))]
#[cycle(walk_directory_walk_entry)]
fn walk_entry(image: &[u8], by: Search, from: u32, tested: u32) -> Result<ImageMatch, Missed<Fault>>
    requires { Small by image.now from tested }
    ensures { told_search result ≡ found_from by image.now from tested }
{
    let i = by.pass_by(image, from);
    let seen = tested + (i - from);
    if i == by.directory.total() {
        return Err(Missed::Absent(seen));
    }
    match by.probe(image, i) {
        Ok(Probe::Match) => Ok(ImageMatch {
            place: by.directory.place(),
            level: by.directory.level(),
            index: i,
            tested: seen + 1,
        }),
        Ok(Probe::Pass) => walk_entry(image, by, i + 1, seen + 1),
        Ok(Probe::Enter(directory)) => {
            let below = Search {
                directory,
                depth: by.depth - 1,
                ..by
            };
            match walk_directory(image, below, seen + 1) {
                Ok(found) => Ok(found),
                Err(Missed::Absent(t)) => walk_entry(image, by, i + 1, t),
                Err(Missed::Refused(fault)) => Err(Missed::Refused(fault)),
            }
        }
        Err(fault) => Err(Missed::Refused(fault)),
    }
}

// The lookup by type and subprogram in a whole flash image.
pub fn find_image(image: &[u8], class: u8, sub: u8) -> Result<ImageMatch, Missed<Fault>>
    ensures { told_search result ≡ find_image (rules_of image.now) image.now class sub }
{
    let directory = flash::directory(image, 1).map_err(flash::no_lookup)?;
    let by = Search {
        rules: efs::rules_of(image),
        class,
        sub,
        directory,
        depth: 1,
    };
    walk_directory(image, by, 0)
}
