// "Header: version bytes 00 F0 F0 F1, two flag bytes not read, schema class 0."
ghost use Rattle.std.specs.Prelude.{◌≡◌, ◌≤◌, length};
ghost use Rattle.paper.specs.Limits.{payload_least};
ghost use Rattle.payload.specs.Header.{header_agrees};

#[tactic(auto, using(crate::proofs::Leaves::headers))]
pub fn header_agrees(s: &[u8]) -> bool
    requires { payload_least ≤ length s.now }
    ensures { result ≡ header_agrees s.now }
{
    s.starts_with(&[0x00, 0xF0, 0xF0, 0xF1]) && s[6] == 0x00
}
