//! The gate is stored last, after a fence over the other 31 words, and a place is read by its gate. So a crash before that store
//! leaves the record that ruled, and one after it leaves either, whole. A record goes into the place of the oldest one, so the one
//! that rules isn't touched.

use crate::{Record, WritingStage};
use base::actor::Actor;
use base::fault::Fault;
use base::geometry::Geometry;
use base::step::Stage;
use pmem::Pmem;
use std::marker::Model;

/// The writing of a record into its place, by the committer, one device operation per tick: 31 stores of the body,
/// 4 flushes, a fence, the store of the gate, the flush of its line and a fence.
#[derive(Clone, Copy)]
pub struct Writing {
    geometry: Geometry,
    target: Record,
    stage: WritingStage,
    // The first word of its place.
    start: usize,
}

impl Model for Writing {
    ghost use Rattle.std.specs.Prelude.{◌≡◌, ◌+◌, ◌^◌, ◌<◌, ◌≤◌};
    ghost use Rattle.base.specs.Layout.{total_words};
    ghost use Rattle.log_area.specs.Rulings.{gate_word};
    ghost use Rattle.log_area.specs.Stages.{IsStage};
    ghost use Rattle.log_area.specs.Writings.{Progress};

    ghost Value = { Progress };

    ghost view = { λ w. record { layout = w.geometry; target = w.target; stage = w.stage } };

    ghost invariant = { λ w. IsStage w.stage × (w.start ≡ gate_word w.geometry w.target) × (w.start + 32 ≤ total_words w.geometry) × (w.start < 2 ^ 32) };

    ghost inverse = { λ p. record { geometry = p.layout; target = p.target; stage = p.stage; start = gate_word p.layout p.target } };
}

impl Writing {
    ghost use Rattle.std.specs.Prelude.{◌≡◌, ◌≢◌, ◌↔◌, ◌+◌, ◌^◌, ◌<◌, ◌≤◌, IsTrue, IfOk, IfErr, OnOk, OnErr};
    ghost use Rattle.base.specs.Layout.{total_words};
    ghost use Rattle.pmem.specs.Device.{failed};
    ghost use Rattle.pmem.specs.Trace.{applied};
    ghost use Rattle.log_area.specs.Stages.{IsStage, reached_by};
    ghost use Rattle.log_area.specs.Writings.{begun, advanced, start_of, operation_of};

    /// Nothing is stored yet.
    #[inline(always)]
    pub fn new(geometry: Geometry, target: Record) -> Writing
        ensures { result ≡ begun geometry target }
    {
        Writing {
            geometry,
            target,
            stage: WritingStage::StoreBody(1),
            start: geometry.place_start(target.gate() % geometry.places()),
        }
    }

    /// Was its last operation made?
    pub fn is_done(&self) -> bool
        ensures done { IsTrue result ↔ (self.now.stage ≡ WritingStage.Done) }
        ensures staged { IsStage self.now.stage }
    {
        matches!(self.stage, WritingStage::Done)
    }

    pub fn geometry(&self) -> Geometry
        ensures { result ≡ self.now.layout }
    {
        self.geometry
    }

    /// The record that is written.
    pub fn target(&self) -> Record
        ensures { result ≡ self.now.target }
    {
        self.target
    }

    /// The next operation, and the stage that the committer reaches by it. If the device fails, the next tick tries
    /// the operation again.
    #[inline(always)]
    pub fn tick<D: Pmem>(&mut self, device: &mut D) -> Result<Option<Stage>, Fault>
        requires unfinished { self.old.stage ≢ WritingStage.Done }
        requires size { (D.state device.old).words ≡ total_words self.old.layout }

        // At Ok the writing is at its next stage, and what the committer reports of that is returned.
        ensures reached { IfOk result (λ stage. stage ≡ reached_by self.old.stage) }
        ensures ok { OnOk result (self.new ≡ advanced self.old) }

        // At Err the stage is as before, and the fault is Device.
        ensures err { OnErr result (self.new ≡ self.old) }
        ensures fault { IfErr result (λ fault. fault ≡ Fault.Device) }

        // Exactly the stage's one operation, which at Err failed.
        ensures operation { OnOk result (D.state device.new ≡ applied (operation_of self.old) (D.state device.old)) }
        ensures failure { OnErr result (D.state device.new ≡ failed (D.state device.old)) }
    {
        let stage = self.stage;
        self.operate(device)?;
        self.stage = stage.next();
        Ok(stage.reached())
    }

    #[inline(always)]
    fn operate<D: Pmem>(&self, device: &mut D) -> Result<(), Fault>
        requires unfinished { self.now.stage ≢ WritingStage.Done }
        requires size { (D.state device.old).words ≡ total_words self.now.layout }
        ensures ok { OnOk result (D.state device.new ≡ applied (operation_of self.now) (D.state device.old)) }
        ensures err { OnErr result (D.state device.new ≡ failed (D.state device.old)) }
        ensures fault { IfErr result (λ fault. fault ≡ Fault.Device) }
    {
        let start = self.gate_word();
        match self.stage {
            WritingStage::StoreBody(word) => {
                device.store(start + word as usize, self.target.word(word as usize))
            }
            WritingStage::FlushBody(line) => {
                device.flush(Actor::COMMITTER, start / 8 + line as usize)
            }
            WritingStage::FenceBody => device.fence(Actor::COMMITTER),
            WritingStage::StoreGate => device.store(start, self.target.gate()),
            WritingStage::FlushGate => device.flush(Actor::COMMITTER, start / 8),
            WritingStage::FenceGate => device.fence(Actor::COMMITTER),
            WritingStage::Done => Ok(()),
        }
    }

    fn gate_word(&self) -> usize
        ensures word { result ≡ start_of self.now }
        ensures within { result + 32 ≤ total_words self.now.layout }
        ensures low { result < 2 ^ 32 }
    {
        self.start
    }
}
