// The alphabet of strings. Names have their own (checker_names), since the paper gives each one.
ghost use Rattle.std.specs.Prelude.{◌≡◌, ◌≤◌, length};
ghost use Rattle.std.proofs.Math.Seq.{slice};
ghost use Rattle.payload.specs.Strings.{string_byte, well_spelt};

#[tactic(auto, unfolding(crate::specs::Strings::string_byte, dictionary::specs::Accepts::name_byte))]
pub fn string_byte(b: u8) -> bool
    ensures { result ≡ string_byte b }
{
    matches!(b, 0x20..=0x7E) && b != b'"' && b != b'\\'
}

#[tactic(auto, using(crate::proofs::Leaves::spelt))]
pub fn well_spelt(s: &[u8], from: usize, to: usize) -> bool
    requires { (from ≤ to) × (to ≤ length s.now) }
    ensures { result ≡ well_spelt (slice from to s.now) }
{
    s[from..to].iter().all(|b| string_byte(*b))
}
