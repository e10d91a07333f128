use crate::room::Room;
use crate::usage::Usage;
use pmem::Pmem;

impl<D: Pmem + Drop> Room<D> {
    ghost use Rattle.machine.specs.Machine.{State};
    ghost use Rattle.room.specs.Room.{Shows};
    ghost use Rattle.room.specs.Usage.{ShowsUsage};

    /// How many rows are covered, and how many slots hold no version, of every state that the room shows (`ShowsUsage`). Both
    /// are counted as they change, so it takes no memory and no time that grows with the store.
    pub fn usage(&self) -> Usage
        ensures { (q : State) → Shows D.state self.now q → ShowsUsage q result }
    {
        Usage {
            rows: self.volatile.sessions.row_count(),
            free: self.volatile.sessions.free_slots(),
        }
    }
}
