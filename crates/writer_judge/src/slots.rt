// The slots that keep the sizes of groups for the second pass.
ghost use Rattle.std.specs.Prelude.{◌≡◌, set};
ghost use Rattle.writer_sizes.specs.Plan.{kept};

// What a slot does not hold is above the table's limit anyway, so that it is never written.
pub fn keep(slots: &mut [u16], k: usize, n: usize)
    ensures { slots.new ≡ set slots.old k (kept n) }
{
    if k < slots.len() {
        slots[k] = u16::try_from(n).unwrap_or(u16::MAX);
    }
}
