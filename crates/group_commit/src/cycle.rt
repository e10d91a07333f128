use crate::batch::{
    batch_of, closing_record, is_numbered, record_of, sessions_committed_by, sessions_of,
};
use crate::stage::CycleStage;
use base::actor::Actor;
use base::batch::Batch;
use base::fault::Fault;
use base::geometry::Geometry;
use base::step::Stage;
use dirty_table::{DirtyTable, SessionSet};
use log_area::{Record, Writing};
use pmem::Pmem;
use snapshot::Numbers;
use std::alloc::Global;
use std::marker::Model;
use txn::DrawnCommits;

/// A batch on its way to being covered: its commits, the sessions that drew them, and the writing of its record.
#[derive(Drop)]
pub struct Cycle {
    batch: Batch,
    sessions: SessionSet,
    writing: Writing,
    stage: CycleStage,
}

impl Model for Cycle {
    ghost use Rattle.std.specs.Prelude.{IsTrue};
    ghost use Rattle.group_commit.specs.Cycles.{Cycling, is_counted};

    ghost Value = { Cycling };

    ghost view = { λ c. record { batch = c.batch; sessions = c.sessions; writing = c.writing; stage = c.stage } };

    ghost invariant = { λ c. IsTrue (is_counted c.stage) };
}

impl Cycle {
    ghost use Rattle.std.specs.Prelude.{◌≡◌, ◌≢◌, ◌↔◌, ◌+◌, ◌*◌, ◌^◌, ◌<◌, ◌≤◌, ◌&&◌, ℕ, nat_eq, [], length, map, Some, None, IsTrue, IfOk, IfErr, OnOk, OnErr};
    ghost use Rattle.std.specs.List.{list_any};
    ghost use Rattle.base.specs.Choosing.{chosen, target_of, closing_record, batch_of};
    ghost use Rattle.base.specs.Layout.{total_words};
    ghost use Rattle.base.specs.Records.{are_rising, is_committed};
    ghost use Rattle.log_area.specs.declared.stage.WritingStage.TheVariants.{Done};
    ghost use Rattle.log_area.specs.Writings.{begun};
    ghost use Rattle.pmem.specs.Device.{failed};
    ghost use Rattle.pmem.specs.Trace.{applied};
    ghost use Rattle.dirty_table.specs.Touches.{has, lines_touched};
    ghost use Rattle.txn.specs.DrawnCommits.{plain_drawn};
    ghost use Rattle.group_commit.specs.declared.stage.CycleStage.TheVariants.{FlushLines, WriteRecord};
    ghost use Rattle.group_commit.specs.Cycles.{IsBeginFault, line_from, operation_in, reached_in, ticked_in};

    /// Takes the drawn commits that the next record may cover, and all the memory of their batch: no tick takes any.
    #[inline(always)]
    pub fn begin(
        alloc: Global,
        numbers: &Numbers,
        swept: bool,
        drawn: &DrawnCommits,
    ) -> Result<Cycle, Fault>
        requires numbered { numbers.now.record.gate < 2 ^ 62 }
        requires countable { numbers.now.next ≤ 2 ^ 62 }
        requires few { length (target_of numbers.now.geometry numbers.now.record numbers.now.next swept (map plain_drawn drawn.now.commits)).longs ≤ 12 }

        // They are those that are stamped and not above what the next record reaches.
        ensures batch { IfOk result (λ cycle. cycle.batch ≡ batch_of numbers.now.record cycle.writing.target (chosen cycle.writing.target.persisted (map plain_drawn drawn.now.commits))) }

        // The cycle has the next record, and the sessions that drew what this record commits.
        ensures sessions { IfOk result (λ cycle. (n : ℕ) → has cycle.sessions n ≡ list_any (λ d. nat_eq d.session n && is_committed cycle.writing.target d.timestamp) drawn.now.commits) }
        ensures writing { IfOk result (λ cycle. cycle.writing ≡ begun numbers.now.geometry (target_of numbers.now.geometry numbers.now.record numbers.now.next swept (map plain_drawn drawn.now.commits))) }
        ensures stage { IfOk result (λ cycle. cycle.stage ≡ FlushLines 0 0) }

        // TimestampsOut exactly if no record number is left, and otherwise OutOfMemory.
        ensures numbered { OnOk result (numbers.now.record.gate + 1 < 2 ^ 62) }
        ensures fault { IfErr result (IsBeginFault numbers.now.record) }
    {
        if !is_numbered(&numbers.record) {
            return Err(Fault::TimestampsOut);
        }
        let commits = drawn.as_slice();
        let target = record_of(numbers, swept, drawn);
        let Ok(batch) = batch_of(alloc, &numbers.record, &target, commits) else {
            return Err(Fault::OutOfMemory);
        };
        let sessions = sessions_committed_by(&target, commits);
        Ok(Cycle::new(numbers.geometry, target, batch, sessions))
    }

    /// Takes all that is drawn, under the record that closing writes last. What it covers isn't reported, so it takes no memory.
    pub fn closing(alloc: Global, numbers: &Numbers, swept: bool, drawn: &DrawnCommits) -> Cycle
        requires numbered { numbers.now.record.gate < 2 ^ 62 }

        // A batch of no commits, the sessions of all that is drawn, and that record, which comes after the one that rules.
        ensures batch { result.batch ≡ batch_of numbers.now.record result.writing.target [] }
        ensures sessions { (n : ℕ) → has result.sessions n ≡ list_any (λ d. nat_eq d.session n) drawn.now.commits }
        ensures writing { result.writing ≡ begun numbers.now.geometry (closing_record (numbers.now.record.gate + 1) numbers.now.record numbers.now.next swept) }
        ensures stage { result.stage ≡ FlushLines 0 0 }
    {
        let target = closing_record(numbers, swept);
        let batch = Batch::new(
            numbers.record.gate(),
            target.gate(),
            target.persisted(),
            target.longs(),
            Vec::new(alloc),
        );
        Cycle::new(
            numbers.geometry,
            target,
            batch,
            sessions_of(drawn.as_slice()),
        )
    }

    // No line is flushed yet.
    #[inline(always)]
    fn new(geometry: Geometry, target: Record, batch: Batch, sessions: SessionSet) -> Cycle
        ensures { result ≡ record { batch = batch; sessions = sessions; writing = begun geometry target; stage = FlushLines 0 0 } }
    {
        Cycle {
            batch,
            sessions,
            writing: Writing::new(geometry, target),
            stage: CycleStage::FlushLines {
                flushed: 0,
                from: 0,
            },
        }
    }

    /// Was its last operation made?
    pub fn is_done(&self) -> bool
        ensures { IsTrue result ↔ (self.now.writing.stage ≡ Done) }
    {
        self.writing.is_done()
    }

    /// Makes the next operation, on the lines that the batch's sessions touch in the table. Returns the stage that it reaches,
    /// and none if the batch is covered. If the device fails, the next tick tries the operation again.
    #[inline(always)]
    pub fn tick<D: Pmem>(
        &mut self,
        device: &mut D,
        table: &DirtyTable,
    ) -> Result<Option<Stage>, Fault>
        requires unfinished { self.old.writing.stage ≢ Done }
        requires size { (D.state device.old).words ≡ total_words self.old.writing.layout }
        requires lines { (line : ℕ) → line_from (lines_touched self.old.sessions table.now) self.old.stage ≡ Some line → 8 * line < (D.state device.old).words }

        // One operation: the flush of the batch's next line, the fence after the last, or the next one of its record. A failure
        // leaves the cycle as it was, and the fault is Device.
        ensures operation { OnOk result (D.state device.new ≡ applied (operation_in (lines_touched self.old.sessions table.now) self.old) (D.state device.old)) }
        ensures reached { IfOk result (λ stage. stage ≡ reached_in (lines_touched self.old.sessions table.now) self.old) }
        ensures ok { OnOk result (self.new ≡ ticked_in (lines_touched self.old.sessions table.now) self.old) }
        ensures failure { OnErr result (D.state device.new ≡ failed (D.state device.old)) }
        ensures err { OnErr result (self.new ≡ self.old) }
        ensures fault { IfErr result (λ fault. fault ≡ Fault.Device) }

        // The lines that it walks are in rising order.
        ensures rising { (flushed from : ℕ) → self.old.stage ≡ FlushLines flushed from → IsTrue (are_rising (lines_touched self.old.sessions table.now)) }
    {
        match self.stage {
            CycleStage::FlushLines { flushed, from } => match table.next(&self.sessions, from) {
                Some(line) => {
                    let words = device.words();
                    prove!((line as usize) < words);
                    device.flush(Actor::COMMITTER, line as usize)?;
                    self.stage = CycleStage::FlushLines {
                        flushed: flushed + 1,
                        from: line + 1,
                    };
                    Ok(Some(Stage::LineFlushed(flushed)))
                }
                None => {
                    device.fence(Actor::COMMITTER)?;
                    self.stage = CycleStage::WriteRecord;
                    Ok(Some(Stage::LinesFenced))
                }
            },
            CycleStage::WriteRecord => self.writing.tick(device),
        }
    }

    /// The record that is written.
    #[inline(always)]
    pub fn record(&self) -> Record
        ensures { result ≡ self.now.writing.target }
    {
        self.writing.target()
    }

    /// The batch, which is covered once the last operation was made.
    #[inline(always)]
    pub fn into_batch(self) -> Batch
        ensures { result ≡ self.batch }
    {
        self.batch
    }
}
