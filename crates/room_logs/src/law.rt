//! What follows from the definitions. The functions do nothing: the contract of each is a law.

ghost use Rattle.std.specs.Prelude.{List, [], ◌++◌};
ghost use Rattle.base.specs.declared.step.Reply.{Reply};
ghost use Rattle.base.specs.declared.step.Step.{Step};
ghost use Rattle.pmem.specs.Device.{Device};
ghost use Rattle.pmem.specs.Words.{LeavesOnly, image_of};
ghost use Rattle.room.specs.Room.{Shows, device_of};
ghost use Rattle.room.specs.Runs.{InEach, LeadsAlong, RunOver};
ghost use Rattle.session_laws.specs.Images.{StandsInLog};
ghost use Rattle.session_laws.specs.Logs.{changes, state_after};
ghost use Rattle.room_logs.specs.Logs.{HasLog, Tells};

use pmem::Pmem;
use room::Room;

/// A room's log begins with the opening of its device, and grows by the steps that the room makes.
pub fn rooms_keep_logs<D: Pmem>(old: &Room<D>, new: &Room<D>)
    // A room that has made no step since its device was opened has the empty log.
    ensures opened { (opened : Device) → RunOver opened (device_of D.state old.now) [] (Shows D.state old.now) → HasLog D.state opened old.now [] }
    // What the room makes of further steps is added at the end, except for reads and polls.
    ensures steps { (opened : Device) (log : List Step) (taken : List (Step × Reply)) → HasLog D.state opened old.now log → LeadsAlong D.state old.now new.now taken
        → HasLog D.state opened new.now (log ++ changes taken) }
{}

/// Whatever history the device represented, the log leads from there to what the room shows, and each image that a crash has left
/// since stands for what a beginning of the log leads to.
pub fn logs_tell<D: Pmem>(room: &Room<D>)
    ensures { (opened : Device) (log : List Step) → HasLog D.state opened room.now log → InEach (image_of opened) (Tells D.state opened room.now log) }
{}

/// A crash since a room had this log, up to a later room, leaves an image of what the steps since lead to: so no commit is lost that the
/// log had covered.
pub fn crashes_leave_later_logs<D: Pmem>(old: &Room<D>, new: &Room<D>)
    // Whatever history the device represented, an image stands for what the log leads to, or for what more of the steps since lead to.
    ensures { (opened : Device) (log : List Step) (taken : List (Step × Reply)) → HasLog D.state opened old.now log → LeadsAlong D.state old.now new.now taken
        → InEach (image_of opened) (λ history next start. LeavesOnly (device_of D.state old.now) (device_of D.state new.now) (StandsInLog (state_after start log) (changes taken))) }
{}
