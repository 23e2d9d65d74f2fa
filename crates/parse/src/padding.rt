// What pads an entry or a section.
ghost use Rattle.std.specs.Prelude.{◌≡◌, Ok};
ghost use Rattle.wire.specs.Padding.{all_zero};
ghost use Rattle.layout.specs.Checked.{check};
ghost use Rattle.layout.specs.declared.refusal.Refusal.TheVariants.{Padding};

use layout::Refusal;

// Whether every byte of it is 0.
#[tactic(auto, unfolding(layout::specs::Checked::check))]
pub fn check_zeros(bytes: &[u8]) -> Result<(), Refusal>
    ensures { result ≡ check (all_zero bytes.now) Padding (λ _. Ok tt) }
{
    if wire::zeros(bytes) {
        Ok(())
    } else {
        Err(Refusal::Padding)
    }
}
