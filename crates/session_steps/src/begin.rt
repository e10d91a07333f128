use crate::sessions::Sessions;
use base::fault::Fault;

impl Sessions {
    ghost use Rattle.base.specs.declared.step.SessionStep.TheVariants.{Begin};
    ghost use Rattle.session_steps.specs.Replies.{began};
    ghost use Rattle.session_steps.specs.Steps.{HoldsSome, Takes};

    /// Opens a session under the lowest free number. Returns the number.
    #[inline(never)]
    pub fn begin(&mut self) -> Result<u8, Fault>
        requires shown { ∥ HoldsSome self.old ∥₁ }
        ensures step { Takes self.old self.new Begin (began result) }
    {
        let covered = self.numbers.covered();
        match self.transactions.begin(&covered) {
            Ok(number) => Ok(number),
            Err(fault) => Err(fault),
        }
    }
}
