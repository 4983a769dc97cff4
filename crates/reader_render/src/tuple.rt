// A tuple's parts, in bytes that are known to be right.
ghost use Rattle.std.specs.Prelude.{◌≡◌};
ghost use Rattle.numbers.specs.Met.{Standing};
ghost use Rattle.reader_render.specs.Rendered.{past, Framed, PartsMet};

use numbers::number_value;

// What S says without its low bit, the format's number in F, whatever it is, and where V begins and ends.
#[derive(Clone, Copy, PartialEq, Eq)]
pub struct Parts {
    pub number: usize,
    pub form: usize,
    pub from: usize,
    pub to: usize,
}

// The place after the number that stands at `at`.
pub fn past_number(s: &[u8], at: usize) -> usize
    requires { Standing s.now at }
    ensures { result ≡ past s.now at }
{
    at + 1 + usize::from(s[at])
}

impl Parts {
    pub fn at(s: &[u8], at: usize) -> Parts
        requires { Framed s.now at }
        ensures { PartsMet s.now at result }
    {
        let f = past_number(s, at);
        let l = f + 1;
        let from = past_number(s, l);
        Parts {
            number: number_value(s, at) / 2,
            form: usize::from(s[f]) / 16,
            from,
            to: from + number_value(s, l),
        }
    }
}
