// Bytes by class, and runs of them.
ghost use Rattle.std.specs.Prelude.{◌≡◌, ◌≤◌, ℕ, Bool, length};
ghost use Rattle.numbers.specs.Decimal.{digit, digits_only};
ghost use Rattle.text.specs.Tokens.{space, sign, letter, word_byte};
ghost use Rattle.text.specs.Numerals.{integer_byte, leading};
ghost use Rattle.text.specs.Scanning.{past};

#[tactic(auto, unfolding(text::specs::Tokens::space))]
pub(crate) fn space_byte(c: u8) -> bool
    ensures { result ≡ space c }
{
    matches!(c, b' ' | b'\t' | b'\n' | b'\r')
}

#[tactic(auto, unfolding(text::specs::Tokens::sign))]
pub fn sign_byte(c: u8) -> bool
    ensures { result ≡ sign c }
{
    matches!(c, b'{' | b'}' | b'[' | b']' | b':' | b',')
}

#[tactic(auto, unfolding(text::specs::Tokens::word_byte, text::specs::Tokens::letter))]
pub(crate) fn word_byte(c: u8) -> bool
    ensures { result ≡ word_byte c }
{
    c.is_ascii_alphabetic() || c.is_ascii_digit() || c == b'+' || c == b'-' || c == b'.'
}

pub(crate) fn integer_byte(c: u8) -> bool
    ensures { result ≡ integer_byte c }
{
    c == b'-' || c.is_ascii_digit()
}

// How many bytes from the front of w are of a run, by the test of its bytes.
pub(crate) fn leading<F: Fn(u8) -> bool>(w: &[u8], belongs: F) -> usize
    requires { F.IsAlwaysCallable belongs }
    ensures within { result ≤ length w.now }
    ensures same { (P : ℕ → Bool) → ((c : ℕ) (b : Bool) → F.post belongs c b → b ≡ P c) → result ≡ leading P w.now }
{
    w.iter().take_while(|c| belongs(**c)).count()
}

// The first place from `at` on whose byte is not of the run, or the end.
pub fn run_end<F: Fn(u8) -> bool>(s: &[u8], at: usize, belongs: F) -> usize
    requires at_in { at ≤ length s.now }
    requires callable { F.IsAlwaysCallable belongs }
    ensures from { at ≤ result }
    ensures within { result ≤ length s.now }
    ensures same { (P : ℕ → Bool) → ((c : ℕ) (b : Bool) → F.post belongs c b → b ≡ P c) → result ≡ past P s.now at }
{
    at + leading(&s[at..], belongs)
}

pub(crate) fn leading_digits(w: &[u8]) -> usize
    ensures same { result ≡ leading digit w.now }
    ensures within { result ≤ length w.now }
{
    leading(w, |c| c.is_ascii_digit())
}

pub(crate) fn digits_only(w: &[u8]) -> bool
    ensures { result ≡ digits_only w.now }
{
    w.iter().all(|c| c.is_ascii_digit())
}
