//! A step is made only if there is memory for its entry. One that is refused for lack of memory changed nothing, so it is left
//! out, and the entries are still a run.

ghost use Rattle.audited.specs.Audit.{HasHistory};

use crate::noting::{notes_of, wants_memory};
use crate::receipt::Receipt;
use base::fault::Fault;
use base::geometry::Geometry;
use base::key::Key;
use base::row::Row;
use base::step::{Note, Reply, Step};
use pmem::Pmem;
use room::{Room, Status};

/// A room, the numbers that it was opened with, and its history: each step that it made since, with the note of its reply.
#[derive(Drop)]
pub struct Audited<D: Pmem> {
    pub(crate) room: Room<D>,
    pub(crate) opening: Status,
    pub(crate) entries: Vec<(Step, Note)>,
    /// Of every value: its entries are such a run.
    pub ghost audited: { ∥ HasHistory D.state room opening entries.items ∥₁ },
}

impl<D: Pmem + Drop> Audited<D> {
    ghost use Rattle.std.specs.Prelude.{◌≡◌, IfOk, IfErr, IfSome, IfNone};
    ghost use Rattle.base.specs.declared.fault.Fault.TheVariants.{OutOfMemory};
    ghost use Rattle.base.specs.declared.step.Reply.TheVariants.{Refused};
    ghost use Rattle.base.specs.Commits.{Lists, after};
    ghost use Rattle.base.specs.Images.{Image};
    ghost use Rattle.machine.specs.Machine.{State};
    ghost use Rattle.room.specs.Room.{Leads, Shows, ShowsStatus};
    ghost use Rattle.audited.specs.Audit.{IsAudited, IsLastOfRun, Keeps, Stays};

    /// One step, which is kept in the history.
    pub fn step(&mut self, step: Step) -> (Reply, Option<Receipt>)
        // With a receipt the history is longer by the step asked and the note of the reply. The receipt is that entry, and its
        // place is the length before. The reply isn't lack of memory.
        ensures kept { IfSome result.1 (λ receipt. Keeps self.old.entries.items self.new.entries.items step result.0 receipt) }

        // With a receipt the room's step, as `Room::step` says.
        ensures step { IfSome result.1 (λ receipt. Leads D.state self.old.room self.new.room step result.0) }

        // With a receipt it is the last entry of a run of `place + 1` steps from opening an image.
        ensures run { IfSome result.1 (λ receipt. ∥ IsLastOfRun receipt ∥₁) }

        // Without a receipt the reply is lack of memory, the history is as before, and the room shows what it showed. What a
        // crash left meanwhile stands for that too.
        ensures refused { IfNone result.1 ((result.0 ≡ Refused OutOfMemory) × (self.new.entries.items ≡ self.old.entries.items)) }
        ensures stays { IfNone result.1 ((q : State) → Shows D.state self.old.room q → Stays D.state self.old.room self.new.room step q) }

        // The numbers of the opening stay, and a run from an image stays one from it.
        ensures opening { self.new.opening ≡ self.old.opening }
        ensures audited { (image : Image) → IsAudited D.state self.old.room image self.old.opening self.old.entries.items → IsAudited D.state self.new.room image self.new.opening self.new.entries.items }
    {
        if self.entries.reserve(1).is_err() {
            return (Reply::Refused(Fault::OutOfMemory), None);
        }
        let asked = step;
        let reply = self.room.step(step);
        if wants_memory(&reply) {
            return (reply, None);
        }
        let Ok((kept, noted)) = notes_of(&reply) else {
            return (Reply::Refused(Fault::OutOfMemory), None);
        };
        let place = self.entries.len() as u64;
        let again = asked;
        self.entries.push_reserved((asked, kept));
        let receipt = Receipt {
            place,
            step: again,
            note: noted,
        };
        (reply, Some(receipt))
    }

    /// The numbers that it was opened with.
    pub fn opening(&self) -> Status
        ensures { result ≡ self.now.opening }
    {
        self.opening
    }

    /// Each step since the opening, with its note.
    pub fn history(&self) -> &[(Step, Note)]
        // The entries are the run above.
        ensures entries { result.now ≡ self.now.entries.items }
        ensures audited { ∥ HasHistory D.state self.now.room self.now.opening self.now.entries.items ∥₁ }
    {
        &self.entries
    }

    /// The layout of the device.
    pub fn geometry(&self) -> Geometry
        ensures { (q : State) → Shows D.state self.now.room q → result ≡ q.layout }
    {
        self.room.geometry()
    }

    /// The numbers. It takes no memory.
    pub fn status(&self) -> Status
        ensures { (q : State) → Shows D.state self.now.room q → ShowsStatus q result }
    {
        self.room.status()
    }

    /// The covered rows, by rising key.
    pub fn tables(&self) -> Result<Vec<(Key, Row)>, Fault>
        // As for `Room::tables`.
        ensures ok { IfOk result (λ rows. (q : State) → Shows D.state self.now.room q → Lists rows.items (after q.history)) }
        ensures fault { IfErr result (λ fault. fault ≡ OutOfMemory) }
    {
        self.room.tables()
    }

    /// The room, which shows what it showed.
    pub fn into_room(self) -> Room<D>
        // The room, of which the history was the run above.
        ensures room { result ≡ self.room }
        ensures audited { ∥ HasHistory D.state result self.opening self.entries.items ∥₁ }
    {
        self.room
    }
}
