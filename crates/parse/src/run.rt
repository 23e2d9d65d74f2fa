// A run of entries or of pairs.
ghost use Rattle.std.specs.Prelude.{◌≡◌, ℕ, ◌≤◌, Ok};
ghost use Rattle.layout.specs.Checked.{Checked};
ghost use Rattle.parse.specs.Run.{run};

use layout::Refusal;

// As many as the count says, from `start` on, up to `end`: each is checked, and says where the next one stands.
pub fn check_run<F: Fn(usize) -> Result<usize, Refusal>>(
    check: F,
    count: u32,
    start: usize,
    end: usize,
) -> Result<u32, Refusal>
    requires start_le_end { start ≤ end }
    requires callable { (at : ℕ) → at ≤ end → F.pre check at }
    requires inside { (at next : ℕ) → at ≤ end → F.post check at (Ok next) → next ≤ end }
    ensures { (step : ℕ → Checked ℕ) → ((at : ℕ) (r : Checked ℕ) → at ≤ end → F.post check at r → r ≡ step at) → result ≡ run step end count start }
{
    let mut at = start;
    for done in 0..count {
        at = check(at)?;
    }
    if at == end {
        Ok(count)
    } else {
        Err(Refusal::Leftover)
    }
}
