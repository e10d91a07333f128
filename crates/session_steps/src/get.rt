use crate::active::active_in;
use crate::sessions::Sessions;
use base::fault::Fault;
use base::key::Key;
use base::row::Row;
use pmem::Pmem;
use version_slot::Slot;

impl Sessions {
    ghost use Rattle.base.specs.declared.step.SessionStep.TheVariants.{Get};
    ghost use Rattle.session_steps.specs.Shows.{Hidden};
    ghost use Rattle.session_steps.specs.Replies.{read, found_in};
    ghost use Rattle.session_steps.specs.Steps.{HoldsOn, HoldsSomeOn, Goes};

    /// The session's own write of the key, or the row of its snapshot.
    #[inline(always)]
    pub fn get<D: Pmem>(&self, device: &D, session: u8, key: Key) -> Result<Option<Row>, Fault>
        requires shown { ∥ HoldsSomeOn self.now (D.state device.now) ∥₁ }
        ensures step { (h : Hidden) → HoldsOn self.now h (D.state device.now) → Goes self.now self.now (Get session key) (read result) h }
    {
        let mut held = Slot::empty();
        match self.get_into(device, session, key, &mut held) {
            Ok(true) => Ok(Some(held.version.row)),
            Ok(false) => Ok(None),
            Err(fault) => Err(fault),
        }
    }

    // Whether there is such a row, and the row in the place for it: it is large to pass on.
    #[inline(never)]
    fn get_into<D: Pmem>(
        &self,
        device: &D,
        session: u8,
        key: Key,
        held: &mut Slot,
    ) -> Result<bool, Fault>
        requires shown { ∥ HoldsSomeOn self.now (D.state device.now) ∥₁ }
        ensures step { (h : Hidden) → HoldsOn self.now h (D.state device.now) → Goes self.now self.now (Get session key) (read (found_in held.new.version.row result)) h }
    {
        let active = match active_in(&self.transactions, session) {
            Ok(active) => active,
            Err(fault) => return Err(fault),
        };
        match active.writes.find(key) {
            Some(write) => match &write.row {
                Some(row) => {
                    held.version.row = *row;
                    return Ok(true);
                }
                None => return Ok(false),
            },
            None => {}
        }
        let geometry = self.numbers.geometry;
        let snapshot = active.snapshot;
        match self.index.walk_into(device, geometry, key, snapshot, held) {
            Some(_) => Ok(true),
            None => Ok(false),
        }
    }
}
