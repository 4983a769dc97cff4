// A case of a case file.
ghost use Rattle.bench_lines.specs.Met.{CaseMet};

use crate::digits::{number_part, unhex_part};
use crate::fields::separators;
use crate::{DECIMAL_MOST, TAB};

// Name, dictionary, bytes and a number, parted by tabs. How many bytes of each were put in front.
#[derive(Clone, Copy)]
pub struct Case {
    pub dictionary: usize,
    pub bytes: usize,
    pub number: u64,
}

pub fn read_case(line: &[u8], dictionary: &mut [u8], bytes: &mut [u8]) -> Option<Case>
    ensures { CaseMet line.now dictionary.old bytes.old result dictionary.new bytes.new }
{
    if separators(line, TAB) != 3 {
        return None;
    }
    Some(Case {
        dictionary: unhex_part(line, TAB, 1, dictionary)?,
        bytes: unhex_part(line, TAB, 2, bytes)?,
        number: number_part(line, TAB, 3, DECIMAL_MOST)?,
    })
}
