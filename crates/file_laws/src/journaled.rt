ghost use Rattle.std.specs.Prelude.{◌≡◌, ◌⊎◌, ℕ, false, List, [], ◌∷◌};
ghost use Rattle.base.specs.Commits.{Commit};
ghost use Rattle.base.specs.Fresh.{fresh_image};
ghost use Rattle.base.specs.Images.{Image, is_formatted};
ghost use Rattle.base.specs.Layout.{Layout};
ghost use Rattle.base.specs.declared.step.Reply.{Reply};
ghost use Rattle.base.specs.declared.step.Step.{Step};
ghost use Rattle.machine.specs.Machine.{State, StandsAt, StandsClosed, StandsClosing, StandsWithin, final};
ghost use Rattle.machine.specs.Openings.{OpensAs, StandsOpening};
ghost use Rattle.pmem.specs.Device.{Device, MayLeave};
ghost use Rattle.pmem.specs.Words.{Continues, LeavesOnly, image_of};
ghost use Rattle.pmem_file.specs.Devices.{MayFind, state_of};
ghost use Rattle.recovery.specs.Fresh.{IsFormatting};
ghost use Rattle.file_laws.specs.Found.{OpensFirst, RunsSince};
ghost use Rattle.file_laws.specs.Lives.{StaysFoundOver};
ghost use Rattle.room.specs.Room.{Leads, Shows, StepsTo, device_of};
ghost use Rattle.room.specs.Runs.{InEach};
ghost use Rattle.room_logs.specs.Logs.{HasLog};
ghost use Rattle.session_laws.specs.Images.{StandsInLog};
ghost use Rattle.session_laws.specs.Logs.{changes, state_after};

use pmem_file::{Images, JournaledPmem};
use room::Room;

/// A room that was opened on a device at rest, which held an image or was formatted first, comes from the device's beginning
/// (`RunsSince`).
pub fn journaled_rooms_begin<I: Images>(
    unformatted: &JournaledPmem<I>,
    device: &JournaledPmem<I>,
    room: &Room<JournaledPmem<I>>,
)
    ensures opened { (history : List Commit) (next : ℕ) (lost : List ℕ) (q : State)
        → (state_of device.now).clock ≡ 0
        → OpensAs (image_of (state_of device.now)) history lost q → Shows state_of room.now q
        → LeavesOnly (state_of device.now) (device_of state_of room.now) (StandsOpening (image_of (state_of device.now)) history next)
        → RunsSince state_of room.now room.now 0 [] [] q [] }
    ensures formatted { (layout : Layout) (history : List Commit) (next : ℕ) (lost : List ℕ) (q : State)
        → (state_of unformatted.now).clock ≡ 0 → ((image : Image) → MayLeave (state_of unformatted.now) image → is_formatted image ≡ false)
        → LeavesOnly (state_of unformatted.now) (state_of device.now) (IsFormatting (state_of unformatted.now) layout)
        → image_of (state_of device.now) ≡ fresh_image layout
        → OpensAs (image_of (state_of device.now)) history lost q → Shows state_of room.now q
        → LeavesOnly (state_of device.now) (device_of state_of room.now) (StandsOpening (image_of (state_of device.now)) history next)
        → RunsSince state_of room.now room.now 0 [] [] q [] }
{}

/// Whatever is found of a room's device, once all has stopped, stands for what was covered by then.
pub fn journaled_images_stand<I: Images>(
    first: &Room<JournaledPmem<I>>,
    next: &Room<JournaledPmem<I>>,
    last: &Room<JournaledPmem<I>>,
    found: &JournaledPmem<I>,
)
    // Between two steps it stands for the state that the room shows, and at an instant within a step, when the device was as
    // `found`, as `Room::step` says.
    ensures now { (steps : List Step) (replies : List Reply) (q : State) (states : List State) (image : Image)
        → RunsSince state_of first.now last.now 0 steps replies q states
        → state_of found.now ≡ device_of state_of last.now
        → MayFind I.may_hold found.now image
        → ∥ StandsAt (final q states) image ∥₁ }
    ensures within { (steps : List Step) (replies : List Reply) (step : Step) (reply : Reply) (q q' : State) (states : List State) (image : Image)
        → RunsSince state_of first.now next.now 0 steps replies q states → StepsTo state_of next.now last.now step reply (final q states) q'
        → Continues (device_of state_of next.now) (state_of found.now) → Continues (state_of found.now) (device_of state_of last.now)
        → MayFind I.may_hold found.now image
        → ∥ StandsWithin (final q states) q' image ∥₁ }
{
    found.found_image_was_left();
}

/// So it does at an instant while the room is closed, which left the device as `device`, and after that.
pub fn journaled_images_stand_at_a_close<I: Images>(
    first: &Room<JournaledPmem<I>>,
    last: &Room<JournaledPmem<I>>,
    device: &JournaledPmem<I>,
    found: &JournaledPmem<I>,
)
    // As `Room::close` says.
    ensures meanwhile { (steps : List Step) (replies : List Reply) (q : State) (states : List State) (image : Image)
        → RunsSince state_of first.now last.now 0 steps replies q states
        → LeavesOnly (device_of state_of last.now) (state_of device.now) (StandsClosing (final q states))
        → Continues (device_of state_of last.now) (state_of found.now) → Continues (state_of found.now) (state_of device.now)
        → MayFind I.may_hold found.now image
        → ∥ StandsClosing (final q states) image ∥₁ }
    ensures after { (steps : List Step) (replies : List Reply) (q : State) (states : List State) (image : Image)
        → RunsSince state_of first.now last.now 0 steps replies q states
        → LeavesOnly (device_of state_of last.now) (state_of device.now) (StandsClosing (final q states))
        → ((other : Image) → MayLeave (state_of device.now) other → StandsClosed (final q states) other)
        → MayFind I.may_hold device.now image
        → ∥ StandsClosed (final q states) image ∥₁ }
{
    found.found_image_was_left();
    device.found_image_was_left();
}

/// So does what is found at an instant while the room is opened, or the device is formatted and then opened, when it was as
/// `found`. `later` is what the device had become then.
pub fn journaled_images_stand_at_an_opening<I: Images>(
    unformatted: &JournaledPmem<I>,
    device: &JournaledPmem<I>,
    found: &JournaledPmem<I>,
)
    // It is what a crash leaves within opening, within formatting, and within the opening after it, also if one of them fails.
    ensures opening { (history : List Commit) (next : ℕ) (later : Device) (image : Image)
        → (state_of device.now).clock ≡ 0
        → LeavesOnly (state_of device.now) later (StandsOpening (image_of (state_of device.now)) history next)
        → Continues (state_of found.now) later
        → MayFind I.may_hold found.now image
        → ∥ StandsOpening (image_of (state_of device.now)) history next image ∥₁ }
    ensures formatting { (layout : Layout) (later : Device) (image : Image)
        → (state_of unformatted.now).clock ≡ 0
        → LeavesOnly (state_of unformatted.now) later (IsFormatting (state_of unformatted.now) layout)
        → Continues (state_of found.now) later
        → MayFind I.may_hold found.now image
        → ∥ IsFormatting (state_of unformatted.now) layout image ∥₁ }
    ensures formatted { (layout : Layout) (history : List Commit) (next : ℕ) (later : Device) (image : Image)
        → (state_of unformatted.now).clock ≡ 0
        → LeavesOnly (state_of unformatted.now) (state_of device.now) (IsFormatting (state_of unformatted.now) layout)
        → LeavesOnly (state_of device.now) later (StandsOpening (image_of (state_of device.now)) history next)
        → Continues (state_of found.now) later
        → MayFind I.may_hold found.now image
        → ∥ IsFormatting (state_of unformatted.now) layout image ⊎ StandsOpening (image_of (state_of device.now)) history next image ∥₁ }
{
    found.found_image_was_left();
}

/// Of a room that has a log since its device was opened: whatever is found of the device, once all has stopped, stands for what the log
/// leads to. `next` is the room after a further step, and `device` what its close left.
pub fn journaled_logs_stand<I: Images>(
    room: &Room<JournaledPmem<I>>,
    next: &Room<JournaledPmem<I>>,
    device: &JournaledPmem<I>,
    found: &JournaledPmem<I>,
)
    // Between two steps, and at an instant within the next one, when the device was as `found`. So it has each commit that the log
    // had covered (`crashes_keep_commits`).
    ensures now { (opened : Device) (log : List Step) (image : Image)
        → OpensFirst opened → HasLog state_of opened room.now log
        → state_of found.now ≡ device_of state_of room.now
        → MayFind I.may_hold found.now image
        → ∥ InEach (image_of opened) (λ history first start. StandsInLog (state_after start log) [] image) ∥₁ }
    ensures within { (opened : Device) (log : List Step) (step : Step) (reply : Reply) (image : Image)
        → OpensFirst opened → HasLog state_of opened room.now log → Leads state_of room.now next.now step reply
        → Continues (device_of state_of room.now) (state_of found.now) → Continues (state_of found.now) (device_of state_of next.now)
        → MayFind I.may_hold found.now image
        → ∥ InEach (image_of opened) (λ history first start. StandsInLog (state_after start log) (changes ((step, reply) ∷ [])) image) ∥₁ }

    // And while the room is closed.
    ensures closing { (opened : Device) (log : List Step) (image : Image)
        → OpensFirst opened → HasLog state_of opened room.now log
        → ((q : State) → Shows state_of room.now q → LeavesOnly (device_of state_of room.now) (state_of device.now) (StandsClosing q))
        → Continues (device_of state_of room.now) (state_of found.now) → Continues (state_of found.now) (state_of device.now)
        → MayFind I.may_hold found.now image
        → ∥ InEach (image_of opened) (λ history first start. StandsClosing (state_after start log) image) ∥₁ }
{
    found.found_image_was_left();
}

/// Of a room that had made this log since its device was opened: whatever stops its life from then on, and whatever stops each life
/// after it, what is found is what lives of the machine leave, and has all that the log had covered.
pub fn covered_logs_stay_found<I: Images>(room: &Room<JournaledPmem<I>>)
    // A life may be stopped between two steps, within one, or while its device is opened or closed. The next one begins with an
    // image that might be found of it.
    ensures { (opened : Device) (log : List Step) → HasLog state_of opened room.now log → StaysFoundOver room.now opened log }
{}
