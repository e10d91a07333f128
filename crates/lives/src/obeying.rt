//! Once the device has failed, further steps say nothing. A step that was refused or found nothing to do isn't repeated, so a
//! script may ask for more ticks than there are.

ghost use Rattle.std.specs.Prelude.{◌≡◌, ◌≤◌, IfOk, Some};
ghost use Rattle.machine.specs.Machine.{State};
ghost use Rattle.pmem_model.specs.Sim.{device_of};
ghost use Rattle.room.specs.Room.{Shows, device_of as device_in};
ghost use Rattle.lives.specs.Parts.{HasObeyed, HasRepeated};
ghost use Rattle.lives.specs.ReportedReplies.{has_failed, is_final};

use crate::life::Repeated;
use base::step::Reply;
use pmem_model::SimPmem;
use room::Room;
use std::alloc::{AllocError, Global};

/// What is reported of the steps up to the first in which the device failed.
#[derive(Drop)]
pub struct Obeyed {
    pub replies: Vec<Option<Reply>>,
    /// Did the device fail?
    pub failed: bool,
}

/// Takes the steps, up to the first in which the device fails.
pub fn obey(
    alloc: Global,
    room: &mut Room<SimPmem>,
    steps: &[Repeated],
) -> Result<Obeyed, AllocError>
    ensures { IfOk result (λ obeyed. (q : State) → Shows device_of room.old q
        → HasObeyed q (device_in device_of room.old) steps.now obeyed.replies.items obeyed.failed (device_in device_of room.new) (Shows device_of room.new)) }
{
    let mut replies = Vec::with_capacity(alloc, steps.len())?;
    for asked in steps {
        let answer = repeat(room, *asked);
        let failed = has_failed(&answer);
        replies.push(answer)?;
        if failed {
            return Ok(Obeyed { replies, failed });
        }
    }
    Ok(Obeyed {
        replies,
        failed: false,
    })
}

// Takes the step as often as it says.
fn repeat(room: &mut Room<SimPmem>, asked: Repeated) -> Option<Reply>
    ensures { (q : State) → Shows device_of room.old q
        → HasRepeated q (device_in device_of room.old) asked result (device_in device_of room.new) (Shows device_of room.new) }
{
    if asked.times == 0 {
        return None;
    }
    Some(take(room, asked))
}

// The reply to the last time. Once the step was refused, or found nothing to do, it isn't made again: that would change
// nothing, and have the same reply.
fn take(room: &mut Room<SimPmem>, asked: Repeated) -> Reply
    requires { 1 ≤ asked.times }
    ensures { (q : State) → Shows device_of room.old q
        → HasRepeated q (device_in device_of room.old) asked (Some result) (device_in device_of room.new) (Shows device_of room.new) }
{
    let mut reply = room.step(asked.step);
    for _ in 1..asked.times {
        if is_final(&reply) {
            break;
        }
        reply = room.step(asked.step);
    }
    reply
}

fn is_final(reply: &Reply) -> bool
    ensures { result ≡ is_final reply.now }
{
    matches!(reply, Reply::Idle | Reply::Refused(_))
}

fn has_failed(answer: &Option<Reply>) -> bool
    ensures { result ≡ has_failed answer.now }
{
    match answer {
        Some(reply) => reply.is_failure(),
        None => false,
    }
}
