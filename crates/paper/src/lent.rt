// Values laid into a row that a caller has lent. By loops of their own: the library's copy is a call of memcpy or memmove, which the archive
// for C would then need from outside.
ghost use Rattle.std.specs.Prelude.{◌≡◌, length};
ghost use Rattle.paper.specs.Lending.{laid};

// Copies as many values as the row has.
#[tactic(auto, using(crate::proofs::Lending::laid_none, crate::proofs::Lending::laid_more, crate::proofs::Lending::laid_whole))]
pub fn copy<T: Copy>(row: &mut [T], values: &[T])
    requires { length values.now ≡ length row.old }
    ensures { row.new ≡ values.now }
{
    for at in 0..values.len() {
        row[at] = values[at];
    }
}

// Lays the values into the row, from its start and as far as there is room. Told values are few, and each is tested by itself: a loop of stores
// without a test is made a call of memcpy again.
#[tactic(auto, using(crate::proofs::Lending::laid_none, crate::proofs::Lending::laid_more, crate::proofs::Lending::laid_past))]
pub fn lay<T: Copy>(row: &mut [T], values: &[T])
    ensures { row.new ≡ laid values.now row.old }
{
    for i in 0..values.len() {
        if i < row.len() {
            row[i] = values[i];
        }
    }
}
