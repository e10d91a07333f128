ghost use Rattle.std.specs.Prelude.{◌≡◌, ◌≤◌, ℕ, false, List};
ghost use Rattle.base.specs.Commits.{Commit};
ghost use Rattle.base.specs.Fresh.{fresh_image};
ghost use Rattle.base.specs.Images.{Image, is_formatted};
ghost use Rattle.base.specs.Layout.{Layout};
ghost use Rattle.base.specs.declared.step.Reply.{Reply};
ghost use Rattle.base.specs.declared.step.Step.{Step};
ghost use Rattle.machine.specs.Machine.{State, StandsAt, StandsClosed, StandsClosing, StandsWithin, final};
ghost use Rattle.machine.specs.Openings.{OpensAs, StandsOpening};
ghost use Rattle.pmem.specs.Device.{MayLeave};
ghost use Rattle.pmem.specs.Words.{Continues, LeavesOnly, image_of};
ghost use Rattle.recovery.specs.Fresh.{IsFormatting};
ghost use Rattle.file_laws.specs.Found.{ClosesAbove, ComesFrom, IsFound, OneCoverAGate, RunsSince};
ghost use Rattle.room.specs.Room.{Shows, StepsTo, device_of};

use pmem::Pmem;
use room::Room;

/// Along a run the number of a record says which record it is.
pub fn each_gate_has_one_cover()
    // If two of the records that may rule along a run have the same number, they are the same record, over the same commits. The
    // record of closing has a greater number than all of them.
    ensures one { OneCoverAGate }
    ensures close { ClosesAbove }
{}

/// An image of an earlier moment whose superblock and gates are such as a crash at this moment leaves (`IsFound`) stands for the
/// same as what a crash at this moment leaves.
pub fn found_images_stand<D: Pmem>(first: &Room<D>, next: &Room<D>, last: &Room<D>)
    // Between two steps that holds for the state that the room shows, and within a step as `Room::step` says.
    ensures now { (since : ℕ) (steps : List Step) (replies : List Reply) (q : State) (states : List State) (image : Image)
        → RunsSince D.state first.now last.now since steps replies q states
        → IsFound (final q states).layout (device_of D.state last.now) since (device_of D.state last.now).clock image
        → StandsAt (final q states) image }
    ensures within { (since moment : ℕ) (steps : List Step) (replies : List Reply) (step : Step) (reply : Reply) (q q' : State) (states : List State) (image : Image)
        → RunsSince D.state first.now next.now since steps replies q states → StepsTo D.state next.now last.now step reply (final q states) q'
        → (device_of D.state next.now).clock ≤ moment → moment ≤ (device_of D.state last.now).clock
        → IsFound (final q states).layout (device_of D.state last.now) since moment image
        → StandsWithin (final q states) q' image }
{}

/// So it does while a room is closed, and after that.
pub fn found_images_stand_at_a_close<D: Pmem>(first: &Room<D>, last: &Room<D>, device: &D)
    // As `Room::close` says.
    ensures meanwhile { (since moment : ℕ) (steps : List Step) (replies : List Reply) (q : State) (states : List State) (image : Image)
        → RunsSince D.state first.now last.now since steps replies q states
        → LeavesOnly (device_of D.state last.now) (D.state device.now) (StandsClosing (final q states))
        → (device_of D.state last.now).clock ≤ moment → moment ≤ (D.state device.now).clock
        → IsFound (final q states).layout (D.state device.now) since moment image
        → StandsClosing (final q states) image }
    ensures after { (since : ℕ) (steps : List Step) (replies : List Reply) (q : State) (states : List State) (image : Image)
        → RunsSince D.state first.now last.now since steps replies q states
        → LeavesOnly (device_of D.state last.now) (D.state device.now) (StandsClosing (final q states))
        → ((other : Image) → MayLeave (D.state device.now) other → StandsClosed (final q states) other)
        → IsFound (final q states).layout (D.state device.now) since (D.state device.now).clock image
        → StandsClosed (final q states) image }
{}

/// What was left before the state that a room shows is from before it, or stands for what it has covered.
pub fn rooms_come_from_their_openings<D: Pmem>(unformatted: &D, device: &D, room: &Room<D>)
    // What was left earlier isn't formatted, or is ruled by a record before that of the state that a room shows, or stands for
    // what the state has covered (`ComesFrom`). This holds from the moment of that state on, from the opening on, and from the
    // formatting of a device that held nothing on.
    ensures shown { (q : State) → Shows D.state room.now q → ComesFrom (device_of D.state room.now) (device_of D.state room.now).clock q }
    ensures opened { (history : List Commit) (next : ℕ) (lost : List ℕ) (q : State)
        → OpensAs (image_of (D.state device.now)) history lost q
        → LeavesOnly (D.state device.now) (device_of D.state room.now) (StandsOpening (image_of (D.state device.now)) history next)
        → ComesFrom (device_of D.state room.now) (D.state device.now).clock q }
    ensures formatted { (layout : Layout) (history : List Commit) (lost : List ℕ) (q : State)
        → ((image : Image) → MayLeave (D.state unformatted.now) image → is_formatted image ≡ false)
        → LeavesOnly (D.state unformatted.now) (D.state device.now) (IsFormatting (D.state unformatted.now) layout)
        → image_of (D.state device.now) ≡ fresh_image layout
        → OpensAs (image_of (D.state device.now)) history lost q
        → Continues (D.state device.now) (device_of D.state room.now)
        → ComesFrom (device_of D.state room.now) (D.state device.now).clock q
        → ComesFrom (device_of D.state room.now) (D.state unformatted.now).clock q }
{}
