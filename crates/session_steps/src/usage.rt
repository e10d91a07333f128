use crate::sessions::Sessions;

impl Sessions {
    ghost use Rattle.std.specs.Prelude.{◌≡◌};
    ghost use Rattle.machine.specs.Machine.{State};
    ghost use Rattle.pmem.specs.Device.{Device};
    ghost use Rattle.session_steps.specs.Shows.{Shows};
    ghost use Rattle.session_steps.specs.Usage.{free_slots, CountsRows};

    /// How many slots hold no version, in every state that the sessions show.
    pub fn free_slots(&self) -> u64
        ensures { (device : Device) (q : State) → Shows self.now device q → result ≡ free_slots q }
    {
        self.slots.free_count()
    }

    /// How many rows are covered, in every state that the sessions show.
    pub fn row_count(&self) -> usize
        ensures { (device : Device) (q : State) → Shows self.now device q → CountsRows q result }
    {
        self.index.live_count()
    }
}
