// The share of the dictionary checker that sets and enums have alike: "The child at position p has sequence number p", and their children "are named, no two alike".
#![tactic(auto)]

ghost use Rattle.std.specs.Prelude.{◌≡◌, true, ◌+◌, ◌≤◌, ◌<◌};
ghost use Rattle.paper.specs.Tests.{all, Passing};
ghost use Rattle.dictionary.specs.Rows.{name};
ghost use Rattle.dictionary.specs.Accepts.{unlike, member};
ghost use Rattle.dictionary.specs.Met.{Named};
ghost use Rattle.checker_members.specs.Marks.{Marks};

use dictionary::rows::{ROWS_MOST, name_length, name_offset, sequence_number};

// The rows of a dictionary whose names are fine, with a mark each: a marked row and its elder siblings sit well. So no two
// siblings are compared twice, whichever parents share them.
#[derive(Drop)]
pub struct Rows<'d> {
    pub d: &'d [u8],
    pub n: usize,
    // No bools: `members_fine` takes any number but 0 for a mark.
    pub marks: [u8; ROWS_MOST],
    pub ghost named: { Named d.now n },
    pub ghost told: { Marks d.now marks },
}

impl<'d> Rows<'d> {
    // The row's name, without its closing 00. (`name_of` asks for an accepted dictionary, which this one isn't yet.)
    fn name(&self, row: usize) -> &'d [u8]
        requires { row < self.now.n }
        ensures { result.now ≡ name self.now.d.now row }
    {
        let at = name_offset(self.d, row);
        let long = name_length(self.d, row);
        &self.d[at..at + long.saturating_sub(1)]
    }

    // The child at position p has a name that no elder sibling has.
    fn unlike_elders(&self, first: usize, p: usize) -> bool
        requires { first + p < self.now.n }
        ensures { result ≡ unlike self.now.d.now first p }
    {
        let own = self.name(first + p);
        !own.is_empty() && (0..p).all(|q| self.name(first + q) != own)
    }

    // How many children from the first on another parent has had settled: where a marked one has its number, so have all its elders.
    fn settled_front(&self, first: usize, count: usize) -> usize
        requires { first + count ≤ self.now.n }
        ensures { Passing (member self.now.d.now first) count result }
    {
        for p in (0..count).rev() {
            if self.marks[first + p] != 0 && sequence_number(self.d, first + p) == p {
                return p + 1;
            }
        }
        0
    }

    // The child at position p has its number, and a name of its own.
    #[tactic(auto, unfolding(dictionary::specs::Accepts::member, dictionary::specs::Accepts::in_turn))]
    fn sits_well(&self, first: usize, p: usize) -> bool
        requires { first + p < self.now.n }
        ensures { result ≡ member self.now.d.now first p }
    {
        sequence_number(self.d, first + p) == p && self.unlike_elders(first, p)
    }

    // The children of a set or enum.
    pub fn members_fine(&mut self, first: usize, count: usize) -> bool
        requires { first + count ≤ self.old.n }
        ensures kept { (self.new.d ≡ self.old.d) × (self.new.n ≡ self.old.n) }
        ensures answer { result ≡ all count (member self.old.d.now first) }
    {
        for p in self.settled_front(first, count)..count {
            if !self.sits_well(first, p) {
                return false;
            }
            self.marks[first + p] = 1;
        }
        true
    }
}
