// What is checked last of a caller's choices: offsets, the step, and the form, of which one is left.
ghost use Rattle.std.specs.Prelude.{◌≡◌, [], ◌∷◌};
ghost use Rattle.aes.specs.Reply.{are_offsets, is_step, is_form, refusal};
ghost use Rattle.aes.specs.Refusal.{reply};

use aes::reply::Refusal;
use masks::step::taken;

// The first check that fails.
pub(super) fn check(offsets: &[u8], step: u8, form: u8) -> Result<(), Refusal>
    ensures { reply result ≡ refusal (are_offsets offsets.now ∷ is_step step ∷ is_form form ∷ []) }
{
    for offset in offsets {
        if 15 < *offset {
            return Err(Refusal::OffsetRange);
        }
    }
    if !taken(step) {
        return Err(Refusal::StepWrong);
    }
    if form != 0 {
        return Err(Refusal::FormUnknown);
    }
    Ok(())
}
