//! What the reply to a step makes due for the workers. A tick that found nothing finds nothing again until another step was made: a
//! draw that leaves few timestamps reserved, or finds none, a last stamp, the end of a sweep. A round finds something once
//! commits were covered, or if a slot is needed.

ghost use Rattle.std.specs.Prelude.{◌≡◌, ◌&&◌, ◌||◌, not, false};
ghost use Rattle.base.specs.declared.step.Reply.TheVariants.{Refused};
ghost use Rattle.engine.specs.Due.{covered_after, due_after, fails, goes_on, tick_after, wakes_waiting, wanted_after, wants_record_of};

use base::fault::Fault;
use base::step::Reply;
use roles::Due;
use room::Status;

/// Notes the reply to a step. So much that is covered is enough for a round.
pub fn note(due: &mut Due, reply: &Reply, enough: u64)
    // What is due then, and who is to be told, is all that the reply makes of it (`due_after`).
    ensures { due.new ≡ due_after due.old reply.now false enough }
{
    let has_failed = take_in(due, reply);
    due.begin_round(enough, has_failed);
}

// Takes in the reply to a step, before a round may fall due. Whether the device has failed.
fn take_in(due: &mut Due, reply: &Reply) -> bool
    ensures failed { result ≡ fails reply.now }
    ensures tick { due.new.tick ≡ tick_after due.old.tick reply.now }
    ensures visit { due.new.visit ≡ goes_on due.old reply.now }
    ensures covered { due.new.covered ≡ covered_after due.old.covered reply.now }
    ensures wanted { due.new.is_slot_wanted ≡ wanted_after due.old.is_slot_wanted reply.now }
    ensures committer { due.new.news.committer ≡ (due.old.news.committer || (not due.old.tick && tick_after due.old.tick reply.now)) }
    ensures collector { due.new.news.collector ≡ due.old.news.collector }
    ensures waiting { due.new.news.waiting ≡ (due.old.news.waiting || wakes_waiting reply.now) }
{
    match reply {
        Reply::Idle => due.end_ticks(),
        Reply::SweepEnd => due.end_round(),
        Reply::Stamped => due.want_tick(),
        Reply::Covered(batch) => {
            due.cover(batch.commits().len() as u64);
            due.tell_waiting();
        }
        Reply::Refused(fault) => return take_in_refusal(due, *fault),
        _ => {}
    }
    false
}

// Takes in a refusal. If the device fails, the workers are refused too, and end.
fn take_in_refusal(due: &mut Due, fault: Fault) -> bool
    ensures failed { result ≡ fails (Refused fault) }
    ensures tick { due.new.tick ≡ tick_after due.old.tick (Refused fault) }
    ensures visit { due.new.visit ≡ due.old.visit }
    ensures covered { due.new.covered ≡ due.old.covered }
    ensures wanted { due.new.is_slot_wanted ≡ wanted_after due.old.is_slot_wanted (Refused fault) }
    ensures committer { due.new.news.committer ≡ (due.old.news.committer || (not due.old.tick && tick_after due.old.tick (Refused fault))) }
    ensures collector { due.new.news.collector ≡ due.old.news.collector }
    ensures waiting { due.new.news.waiting ≡ (due.old.news.waiting || wakes_waiting (Refused fault)) }
{
    match fault {
        Fault::WindowFull => due.want_tick(),
        Fault::SlotsOut => due.want_slot(),
        Fault::TimestampsOut | Fault::OutOfMemory => due.tell_waiting(),
        Fault::Device | Fault::Failed => {
            due.want_tick();
            due.tell_waiting();
            return true;
        }
        _ => {}
    }
    false
}

/// Whether a record is due after the step though it stamped nothing: few timestamps are left, or swept gaps are to be dropped.
pub fn makes_record_due(reply: &Reply, status: &Status, window: u64) -> bool
    ensures { result ≡ wants_record_of reply.now status.now.dirty status.now.gaps status.now.next window }
{
    match reply {
        Reply::Drawn(_) => {
            let left = status.dirty.saturating_sub(status.next);
            left.saturating_mul(2) < window
        }
        Reply::SweepEnd => !status.gaps.as_slice().is_empty(),
        _ => false,
    }
}
