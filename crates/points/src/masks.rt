// Masks: the numbers at which a test holds, as the bits of one number.
ghost use Rattle.std.specs.Prelude.{ℕ, ◌<◌, ◌≤◌};
ghost use Rattle.points.specs.Masks.{MaskOf};

// The numbers below n at which the test holds, 0 by the lowest bit; the last one first, so that each one doubles what is there.
// Form 5: that a mask has room for n bits is asked here, of `nest_steps` `next_bit` and of two functions of `step_facts::differences`. As a type n is a struct of one field with
// its `Model`, made by a literal at the four places that hand a number to these (in `idle_variables`, `nest_steps`, `state_facts::omissions`, `step_facts::differences`), where the bound
// is shown as it is now, and opened in each of the three that count up to it.
pub fn mask_of<F: Fn(usize) -> bool>(n: usize, test: F) -> u64
    requires few { n ≤ 64 }
    requires callable { (k : ℕ) → k < n → F.pre test k }
    ensures { MaskOf (F.post test) n result }
{
    let mut mask: u64 = 0;
    for k in (0..n).rev() {
        mask = 2 * mask + u64::from(test(k));
    }
    mask
}
