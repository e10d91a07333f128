//! Closing runs two cycles. The pending batch comes first, since its record may be half written. What is drawn and not stamped is
//! stamped then, so that the second cycle covers all of it. Its record reserves no timestamp, so that the next opening finds no gap
//! behind it. The record's number is tested before any operation, so if closing is refused, nothing was done.

use crate::room::Room;
use crate::volatile::VolatileState;
use base::NUMBER_LIMIT;
use base::fault::Fault;
use group_commit::Cycle;
use pmem::Pmem;
use std::alloc::Global;

impl<D: Pmem + Drop> Room<D> {
    ghost use Rattle.std.specs.Prelude.{◌≡◌, None, IfOk, IfErr, MatchResult};
    ghost use Rattle.base.specs.Images.{Image};
    ghost use Rattle.machine.specs.Machine.{State, StandsClosing, StandsClosed, closing_fault};
    ghost use Rattle.pmem.specs.Device.{MayLeave};
    ghost use Rattle.pmem.specs.Words.{LeavesOnly, HasNoFailure};
    ghost use Rattle.room.specs.Closing.{IsClosingRefusal};
    ghost use Rattle.room.specs.Room.{Shows, device_of};

    /// Covers all that is drawn, and returns the device.
    pub fn close(self) -> Result<D, (Fault, D)>
        // Each image that a crash may leave since the call began, at Err too, stands for what was covered, for that with the
        // pending batch, or for all that was drawn.
        ensures images { (q : State) → Shows D.state self q → MatchResult result
            (λ device. LeavesOnly (device_of D.state self) (D.state device) (StandsClosing q))
            (λ e. LeavesOnly (device_of D.state self) (D.state e.1) (StandsClosing q)) }

        // At Ok each image stands for all that was drawn, under exactly the record that closing writes.
        ensures ok { IfOk result (λ device. (q : State) → Shows D.state self q → (image : Image) → MayLeave (D.state device) image → StandsClosed q image) }

        // At Ok closing had no fault, and no operation failed.
        ensures may_close { IfOk result (λ device. (q : State) → Shows D.state self q → closing_fault q ≡ None) }
        ensures no_failure { IfOk result (λ device. HasNoFailure (device_of D.state self) (D.state device)) }

        // At Err Failed or TimestampsOut, if closing has that fault, and no operation was made, or Device, if one failed. It is
        // never OutOfMemory.
        ensures fault { IfErr result (λ e. (q : State) → Shows D.state self q → IsClosingRefusal q (device_of D.state self) (D.state e.1) e.0) }
    {
        let Room {
            alloc,
            mut device,
            mut volatile,
            failed,
        } = self;
        if failed {
            return Err((Fault::Failed, device));
        }
        match volatile.close(alloc, &mut device) {
            Ok(()) => Ok(device),
            Err(fault) => Err((fault, device)),
        }
    }
}

impl VolatileState {
    ghost use Rattle.std.specs.Prelude.{◌≡◌, ◌+◌, ◌^◌, ◌<◌, false, map, None, IfErr, OnOk, IsTrue};
    ghost use Rattle.std.specs.List.{list_all};
    ghost use Rattle.base.specs.Images.{Image};
    ghost use Rattle.machine.specs.Machine.{State, is_stamped, StandsClosing, StandsClosed, closing_fault};
    ghost use Rattle.pmem.specs.Device.{MayLeave};
    ghost use Rattle.pmem.specs.Words.{LeavesOnly, HasNoFailure};
    ghost use Rattle.txn.specs.DrawnCommits.{plain_drawn};
    ghost use Rattle.room.specs.Committing.{Shows};
    ghost use Rattle.room.specs.Steps.{ShowsSome};
    ghost use Rattle.room.specs.Closing.{IsClosingRefusal, ClosePhaseDone, ClosePhaseFailed, CloseCovered, unstamped_session};

    // Covers all that is drawn, under a record that reserves no timestamp. Fails with `TimestampsOut` before any operation
    // if no record number is left, and with `Device` if an operation fails. It takes no memory.
    pub(crate) fn close<D: Pmem>(&mut self, alloc: Global, device: &mut D) -> Result<(), Fault>
        requires shown { ∥ ShowsSome self.old (D.state device.old) ∥₁ }

        // A crash meanwhile leaves what was covered, alone or with the pending batch or with all that was drawn; afterwards, the last.
        ensures images { (q : State) → Shows self.old (D.state device.old) q → q.failed ≡ false → LeavesOnly (D.state device.old) (D.state device.new) (StandsClosing q) }
        ensures ok { OnOk result ((q : State) → Shows self.old (D.state device.old) q → q.failed ≡ false → (image : Image) → MayLeave (D.state device.new) image → StandsClosed q image) }

        // It closes unless one of these faults applies, a failing device aside.
        ensures may_close { OnOk result ((q : State) → Shows self.old (D.state device.old) q → q.failed ≡ false → closing_fault q ≡ None) }
        ensures no_failure { OnOk result (HasNoFailure (D.state device.old) (D.state device.new)) }
        ensures fault { IfErr result (λ fault. (q : State) → Shows self.old (D.state device.old) q → q.failed ≡ false → IsClosingRefusal q (D.state device.old) (D.state device.new) fault) }
    {
        if NUMBER_LIMIT <= self.closing_gate() {
            return Err(Fault::TimestampsOut);
        }
        self.finish_cycle(device)?;
        self.stamp_rest(device)?;
        self.cover_drawn(alloc, device)
    }

    // Makes the ticks that are left of the pending batch's cycle.
    fn finish_cycle<D: Pmem>(&mut self, device: &mut D) -> Result<(), Fault>
        requires shown { ∥ ShowsSome self.old (D.state device.old) ∥₁ }
        ensures ok { OnOk result (ClosePhaseDone self.old self.new (D.state device.old) (D.state device.new)) }
        ensures rests { OnOk result (self.new.cycle ≡ None) }
        ensures err { IfErr result (ClosePhaseFailed self.old (D.state device.old) (D.state device.new)) }
    {
        while self.cycle.is_some() {
            if let Err(fault) = self.advance(device) {
                return Err(fault);
            }
        }
        Ok(())
    }

    // Stamps what is drawn and isn't stamped.
    fn stamp_rest<D: Pmem>(&mut self, device: &mut D) -> Result<(), Fault>
        requires shown { ∥ ShowsSome self.old (D.state device.old) ∥₁ }
        requires rests { self.old.cycle ≡ None }
        ensures ok { OnOk result (ClosePhaseDone self.old self.new (D.state device.old) (D.state device.new)) }
        ensures rests { OnOk result (self.new.cycle ≡ None) }
        ensures stamped { OnOk result (IsTrue (list_all is_stamped (map plain_drawn self.new.sessions.drawn.commits))) }
        ensures err { IfErr result (ClosePhaseFailed self.old (D.state device.old) (D.state device.new)) }
    {
        while let Some(session) = self.unstamped() {
            if let Err(fault) = self.sessions.stamp(device, session) {
                return Err(fault);
            }
        }
        Ok(())
    }

    // The session of the first drawn commit that isn't stamped whole.
    fn unstamped(&self) -> Option<u8>
        ensures { result ≡ unstamped_session self.now.sessions.drawn.commits }
    {
        let commit = self
            .sessions
            .drawn()
            .as_slice()
            .iter()
            .find(|commit| !commit.is_stamped())?;
        Some(commit.session)
    }

    // Covers all that is drawn by a cycle of its own, whose record reserves no timestamp.
    fn cover_drawn<D: Pmem>(&self, alloc: Global, device: &mut D) -> Result<(), Fault>
        requires shown { ∥ ShowsSome self.now (D.state device.old) ∥₁ }
        requires rests { self.now.cycle ≡ None }
        requires stamped { IsTrue (list_all is_stamped (map plain_drawn self.now.sessions.drawn.commits)) }
        requires numbered { self.now.sessions.numbers.record.gate + 1 < 2 ^ 62 }
        ensures ok { OnOk result (CloseCovered self.now (D.state device.old) (D.state device.new)) }
        ensures err { IfErr result (ClosePhaseFailed self.now (D.state device.old) (D.state device.new)) }
    {
        let numbers = self.sessions.numbers();
        let mut cycle = Cycle::closing(
            alloc,
            numbers,
            self.sessions.has_swept(),
            self.sessions.drawn(),
        );
        while !cycle.is_done() {
            cycle.tick(device, self.sessions.dirty())?;
        }
        Ok(())
    }
}
