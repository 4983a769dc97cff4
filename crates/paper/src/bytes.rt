// When two parts of bytes are the same.
ghost use Rattle.std.specs.Prelude.{◌≡◌, ◌+◌, ◌≤◌, length};
ghost use Rattle.std.proofs.Math.Seq.{slice};
ghost use Rattle.paper.specs.Tests.{same};

// n bytes of d from a on are the n bytes of t from b on.
#[tactic(auto, using(crate::proofs::Tests::same_parts))]
pub fn same_bytes(d: &[u8], a: usize, t: &[u8], b: usize, n: usize) -> bool
    requires { (a + n ≤ length d.now) × (b + n ≤ length t.now) }
    ensures { result ≡ same (slice a (a + n) d.now) (slice b (b + n) t.now) }
{
    d[a..a + n] == t[b..b + n]
}
