// Which children of a set have been given, a bit for each row of the dictionary: a repeat is seen at one look, whatever the order.
#![tactic(auto)]

ghost use Rattle.std.specs.Prelude.{ℕ, List, length, ◌≡◌, ◌<◌};
ghost use Rattle.repeats.specs.Roll.{rows_most, roll_bytes, marked, Blank, Gave};

use dictionary::rows::ROWS_MOST;
use std::marker::Model;

const ROLL_BYTES: usize = ROWS_MOST / 8;

#[derive(Drop)]
pub struct Roll {
    bits: [u8; ROLL_BYTES],
}

impl Model for Roll {
    ghost Value = { List ℕ };

    ghost view = { λ r. r.bits };

    ghost invariant = { λ r. length r.bits ≡ roll_bytes };
}

impl Roll {
    pub fn new() -> Roll
        ensures { Blank result }
    {
        Roll {
            bits: [0; ROLL_BYTES],
        }
    }

    #[tactic(auto, using(crate::proofs::Bits::look))]
    pub fn given(&self, row: usize) -> bool
        requires { row < rows_most }
        ensures { result ≡ marked self.now row }
    {
        self.bits[row / 8] >> (row % 8) & 1 == 1
    }

    pub fn give(&mut self, row: usize)
        requires { row < rows_most }
        ensures { Gave self.old row self.new }
    {
        self.bits[row / 8] |= 1 << (row % 8);
    }
}
