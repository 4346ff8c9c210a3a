// Counts the cases of a replay, by the numbers of the calls.
ghost use Rattle.std.specs.Prelude.{◌≡◌, ℕ, ◌<◌, ◌≢◌, fold};
ghost use Rattle.vectors.specs.Tallies.{no_tally, tally_of, one_more, plus};

use std::fmt;

// How many cases were replayed, and how many of them differ.
#[derive(Clone, Copy, Debug, PartialEq, Eq)]
pub struct Tally {
    pub cases: u64,
    pub differing: u64,
}

impl Tally {
    // The tally of no case.
    const NONE: Tally = Tally {
        cases: 0,
        differing: 0,
    };

    // The tally after one case more.
    fn one_more(self, differs: bool) -> Tally
        ensures { result ≡ one_more self differs }
    {
        Tally {
            cases: self.cases.wrapping_add(1),
            differing: self.differing.wrapping_add(u64::from(differs)),
        }
    }

    // Both tallies together.
    fn plus(self, more: Tally) -> Tally
        ensures { result ≡ plus self more }
    {
        Tally {
            cases: self.cases.wrapping_add(more.cases),
            differing: self.differing.wrapping_add(more.differing),
        }
    }
}

impl fmt::Display for Tally {
    fn fmt<W: fmt::Write>(&self, f: &mut fmt::Formatter<W>) -> fmt::Result {
        let cases = self.cases;
        let differing = self.differing;
        write!(f, "{cases} cases, {differing} differ")
    }
}

// The tally of each call, by its number from 0 to 21.
#[derive(Clone, Copy)]
pub struct Tallies {
    calls: [Tally; 22],
}

impl Tallies {
    pub fn new() -> Tallies
        ensures { (call : ℕ) → tally_of result call ≡ no_tally }
    {
        Tallies {
            calls: [Tally::NONE; 22],
        }
    }

    // Counts one case more of a call.
    pub fn count(&mut self, call: u64, differs: bool)
        ensures counted { call < 22 → tally_of self.new call ≡ one_more (tally_of self.old call) differs }
        ensures others { (other : ℕ) → other ≢ call → tally_of self.new other ≡ tally_of self.old other }
    {
        let at = call as usize;
        if at < self.calls.len() {
            self.calls[at] = self.calls[at].one_more(differs);
        }
    }

    // The tally of a call; none for a number that no call has.
    pub fn of(&self, call: u64) -> Tally
        ensures { result ≡ tally_of self.now call }
    {
        self.calls
            .get(call as usize)
            .copied()
            .unwrap_or(Tally::NONE)
    }

    // The tally of all calls.
    pub fn total(&self) -> Tally
        ensures { result ≡ fold plus no_tally self.now.calls }
    {
        self.calls
            .iter()
            .fold(Tally::NONE, |total, tally| total.plus(*tally))
    }
}
