ghost use Rattle.std.specs.Prelude.{◌≡◌, ◌⊎◌, ◌/◌, ◌<◌, ◌≤◌, ◌*◌, ◌&&◌, ◌||◌, ℕ, List, length, true, false, None, slice_index, slice_set, IfOk, OnOk, OnErr, IfErr};
ghost use Rattle.journal.specs.Changes.{DiffersIn, is_listed};
ghost use Rattle.pmem.specs.Device.{Device, stored, fenced, failed, MightHaveLeft};
ghost use Rattle.journal.specs.Kept.{HoldsOnly};
ghost use Rattle.pmem_file.specs.Shown.{IsShown};
ghost use Rattle.pmem_file.specs.Mirrored.{IsMirrored};
ghost use Rattle.pmem_file.specs.Journaled.{HoldsGate, IsSince, NamesPlaces, is_gate, is_gate_line, is_gate_flushed, places_named, with_flushed};
ghost use Rattle.pmem_file.specs.Traces.{device_of};

use crate::changed::ChangedLines;
use crate::flushed::{Flushed, MOST_ACTORS, forget};
use crate::gates::{is_gate, is_gate_line, keeps_places, places_named};
use crate::trace::{Operation, Trace};
use base::actor::Actor;
use base::fault::Fault;
use journal::{Images, JournaledImages, Storage, Unclosed, Unopened};
use pmem::Pmem;
use std::alloc::Global;
use std::io;
use std::mem::swap;
use std::snapshot::Snapshot;
use sync_ahead::SyncAhead;

/// A device whose fences order, and whose image is kept at those that make a gate durable.
#[derive(Drop)]
pub struct JournaledPmem<I: Images> {
    words: Vec<u64>,

    // Flushed lines of gates. There is room for each such line once, and for a line more of each actor, from the opening on. An
    // engine asks for no more: its committer flushes a line once in a cycle, and all others fence each line at once.
    flushed: Vec<Flushed>,

    // The lines of which words were stored since an image was written. There is room for each from the opening on.
    changed: ChangedLines,
    images: I,

    // The places for records: those of the image, once it is formatted.
    places: usize,

    // A gate was stored since the image was kept.
    is_gate_stored: bool,

    // And since one was written, which may not be synced.
    is_gate_unwritten: bool,
    trace: Trace,

    // What was done up to the last image that was kept.
    kept: Snapshot<Trace>,

    // What was done up to the last image that was written, while it isn't kept.
    written: Snapshot<Trace>,
    ghost marked: { (length words.items ≤ 8 * changed.count) × (changed.places ≡ places) },
    ghost named: { NamesPlaces places words.items },
    ghost shown: { IsShown (device_of trace) words.items },
    ghost mirrored: { IsMirrored (is_gate places) (device_of trace) words.items flushed.items (HoldsGate places (I.may_hold images)) },
    ghost since: { IsSince (device_of trace) (device_of kept.value).clock (I.may_hold images) },
    ghost gates: { is_gate_stored ≡ false → HoldsOnly (HoldsGate places (I.may_hold images)) (length words.items) words.items },
    ghost since_written: { I.has_failed images ≡ false → IsSince (device_of trace) (device_of written.value).clock (I.shows images) },
    ghost gates_written: { I.has_failed images ≡ false → is_gate_unwritten ≡ false → HoldsOnly (HoldsGate places (I.shows images)) (length words.items) words.items },
    ghost changes: { I.has_failed images ≡ false → (image : List ℕ) → I.shows images image → DiffersIn changed.lines words.items image },
}

impl<I: Images> JournaledPmem<I> {
    ghost use Rattle.pmem.specs.Device.{restarted};
    ghost use Rattle.pmem.specs.Words.{IsAtRest, Survives, image_of};
    ghost use Rattle.pmem_file.specs.Devices.{MayFind, images_of, kept_at, places_of, state_of};

    /// A device over a place in which images are kept.
    pub fn new(
        alloc: Global,
        words: Vec<u64>,
        images: I,
        places: usize,
    ) -> Result<JournaledPmem<I>, I>
        // No other image is found there than these words.
        requires holds { (image : List ℕ) → I.may_hold images image → image ≡ words.items }

        // It is at rest with these words. It has the places for records that they name, and if they aren't formatted, this number
        // (`places_named`). Its image is kept there (`images_of`).
        ensures rest { IfOk result (λ made. IsAtRest (state_of made)) }
        ensures device { IfOk result (λ made. state_of made ≡ restarted words.items) }
        ensures places { IfOk result (λ made. places_of made ≡ places_named words.items places) }
        ensures keeps { IfOk result (λ made. images_of made ≡ images) }

        // At Err memory was refused, and these images are returned.
        ensures images { IfErr result (λ back. back ≡ images) }
    {
        let named = places_named(&words, places);
        let lines = words.len() / 8;
        let gates = named.saturating_add(1);
        let Ok(flushed) = Vec::with_capacity(alloc, gates.saturating_add(MOST_ACTORS)) else {
            return Err(images);
        };
        let Ok(changed) = ChangedLines::new(alloc, lines.saturating_add(1), named) else {
            return Err(images);
        };
        let trace = Trace::begun(&words);
        let kept = Snapshot::of(&trace);
        let written = Snapshot::of(&trace);
        Ok(JournaledPmem {
            words,
            flushed,
            changed,
            images,
            places: named,
            is_gate_stored: false,
            is_gate_unwritten: false,
            trace,
            kept,
            written,
        })
    }

    /// How many places for records it has, for its whole life.
    pub fn places(&self) -> usize
        ensures places { result ≡ places_of self.now }

        // Once its image is formatted, the image has as many.
        ensures named { NamesPlaces result (image_of (state_of self.now)) }
    {
        self.places
    }

    /// What is found, once the process or the machine has stopped, also within a fence.
    pub fn found_image_was_left(&self)
        // It is an image that a crash of the device might have left since the last image was kept.
        ensures images { (image : List ℕ) → MayFind I.may_hold self.now image → ∥ MightHaveLeft (state_of self.now) (kept_at self.now) image ∥₁ }

        // Each of its gates, a word of the superblock or the first word of a place for a record, is one that a crash may leave
        // now.
        ensures gates { (image : List ℕ) → MayFind I.may_hold self.now image → (word : ℕ) → is_gate (places_of self.now) word ≡ true → word < (state_of self.now).words
            → Survives (state_of self.now) word (slice_index image word) }
    {}

    // An operation fails.
    fn refuse(&mut self) -> Fault
        ensures state { device_of self.new.trace ≡ failed (device_of self.old.trace) }
        ensures failed { I.has_failed self.new.images ≡ I.has_failed self.old.images }
        ensures fault { result ≡ Fault.Device }
    {
        self.trace.note(Operation::Failure);
        Fault::Device
    }

    // A store that may be the first to its line since an image was written, or of a gate. It is refused if there is no memory, and if
    // a formatted image would name other places. Returns whether it was made: a result would need a place in memory at each store.
    #[cold]
    #[inline(never)]
    fn store_first(&mut self, word: usize, value: u64) -> bool
        requires { word < length self.old.words.items }
        ensures stored { result ≡ true → device_of self.new.trace ≡ stored word value (device_of self.old.trace) }
        ensures refused { result ≡ false → device_of self.new.trace ≡ failed (device_of self.old.trace) }
    {
        if !leaves_places(&self.words, self.places, word, value) {
            let _ = self.refuse();
            return false;
        }
        if !note_change(&mut self.changed, self.words.as_slice(), word, value) {
            let _ = self.refuse();
            return false;
        }
        self.words[word] = value;
        note_gate(
            &mut self.is_gate_stored,
            &mut self.is_gate_unwritten,
            self.places,
            word,
        );
        self.trace.note(Operation::Store { word, value });
        true
    }

    // Does a fence by this actor make a gate durable that no kept image has yet?
    fn makes_a_gate_durable(&self, actor: u8) -> bool
        ensures { result ≡ (self.now.is_gate_stored && is_gate_flushed self.now.places self.now.flushed.items actor) }
    {
        self.is_gate_stored && is_gate_flushed(self.places, self.flushed.as_slice(), actor)
    }

    // A fence that makes no gate durable, or none but those of the image that was kept.
    fn order(&mut self, actor: u8)
        requires { (self.old.is_gate_stored && is_gate_flushed self.old.places self.old.flushed.items actor) ≡ false }
        ensures { device_of self.new.trace ≡ fenced actor (device_of self.old.trace) }
    {
        self.trace.note(Operation::Fence { actor });
        forget(&mut self.flushed, actor);
    }

    // A fence that makes a gate durable: the image is kept before it.
    fn persist(&mut self, actor: u8) -> Result<(), Fault>
        requires { I.has_failed self.old.images ≡ false }
        ensures ok { OnOk result (device_of self.new.trace ≡ fenced actor (device_of self.old.trace)) }
        ensures err { OnErr result (device_of self.new.trace ≡ failed (device_of self.old.trace)) }
        ensures fault { IfErr result (λ fault. fault ≡ Fault.Device) }
        ensures noted { OnErr result (I.has_failed self.new.images ≡ true) }
    {
        match self.keep() {
            Ok(()) => {
                self.order(actor);
                Ok(())
            }
            Err(_) => Err(self.refuse()),
        }
    }

    // A fence at which a gate may be stored. Returns whether it succeeds: a result would need a place in memory at each operation.
    #[cold]
    #[inline(never)]
    fn is_fenced(&mut self, actor: u8) -> bool
        ensures fenced { result ≡ true → device_of self.new.trace ≡ fenced actor (device_of self.old.trace) }
        ensures refused { result ≡ false → device_of self.new.trace ≡ failed (device_of self.old.trace) }
        ensures noted { result ≡ false → I.has_failed self.new.images ≡ true }
    {
        if self.images.is_failed() {
            let _ = self.refuse();
            return false;
        }
        if self.makes_a_gate_durable(actor) {
            return self.persist(actor).is_ok();
        }
        self.order(actor);
        true
    }

    // Keeps an image with the gates as they are now: the one that is written, where it has them.
    fn keep(&mut self) -> io::Result<()>
        requires { I.has_failed self.old.images ≡ false }
        ensures trace { self.new.trace ≡ self.old.trace }
        ensures kept { OnOk result (self.new.is_gate_stored ≡ false) }
        ensures noted { OnErr result (I.has_failed self.new.images ≡ true) }
    {
        if !self.is_gate_unwritten {
            return self.finish();
        }
        self.write()?;
        self.finish()
    }

    // Writes the image as it is now, and doesn't wait until it persists.
    fn write(&mut self) -> io::Result<()>
        requires { I.has_failed self.old.images ≡ false }
        ensures trace { self.new.trace ≡ self.old.trace }
        ensures written { OnOk result (self.new.is_gate_unwritten ≡ false) }
        ensures works { OnOk result (I.has_failed self.new.images ≡ false) }
        ensures noted { OnErr result (I.has_failed self.new.images ≡ true) }
    {
        self.images.begin(&self.words, self.changed.as_slice())?;
        self.changed.clear();
        self.written = Snapshot::of(&self.trace);
        self.is_gate_unwritten = false;
        Ok(())
    }

    // Waits until the image persists that was written last.
    fn finish(&mut self) -> io::Result<()>
        requires { I.has_failed self.old.images ≡ false }
        ensures trace { self.new.trace ≡ self.old.trace }
        ensures kept { OnOk result (self.new.is_gate_stored ≡ self.old.is_gate_unwritten) }
        ensures noted { OnErr result (I.has_failed self.new.images ≡ true) }
    {
        self.images.finish()?;
        swap(&mut self.kept, &mut self.written);
        self.is_gate_stored = self.is_gate_unwritten;
        Ok(())
    }
}

impl<S: Storage> JournaledPmem<JournaledImages<S>> {
    ghost use Rattle.std.specs.Prelude.{◌+◌, ◌≢◌, ◌↔◌, [], IsSome, IsTrue};
    ghost use Rattle.std.specs.Bool.{OnTrue};
    ghost use Rattle.journal.specs.Files.{Opens, StandsAs};
    ghost use Rattle.journal.specs.ReadBack.{IsReadBack, StandsStill};
    ghost use Rattle.pmem.specs.Device.{MayLeave, restarted};
    ghost use Rattle.pmem.specs.Words.{IsAtRest, image_of};
    ghost use Rattle.pmem_file.specs.Devices.{IsClosedIn, IsWritten, MayFindIn, StandsForOne, changed_in, failure_of, last_image, places_of, state_of, storage_of};

    /// A device at rest with the image that a file of these words stands for: an image of `words`, a journal of `room`, and a
    /// tail. It has the places for records that the image names, and if it isn't formatted, this number. The image stays where
    /// the file's words are.
    pub fn over(
        alloc: Global,
        storage: S,
        file: Vec<u64>,
        words: usize,
        room: usize,
        places: usize,
    ) -> Result<Self, Unopened<S>>
    where
        S: Drop,
        // As for `JournaledImages::open`: the journal and the tail are found only as they were read, and the journal's lines make the
        // same of whatever is found in place.
        requires back { length file.items ≡ words + room + 8 → IsReadBack (S.may_hold storage) words room file.items }
        requires still { length file.items ≡ words + room + 8 → StandsStill (S.may_hold storage) words room file.items }

        // It is at rest with the image that the file stands for, and has its places (`places_named`). Nothing was done to it yet,
        // and no failure to keep an image is noted.
        ensures rest { IfOk result (λ device. IsAtRest (state_of device)) }
        ensures device { IfOk result (λ device. state_of device ≡ restarted (image_of (state_of device))) }
        ensures stands { IfOk result (λ device. Opens words room file.items (image_of (state_of device))) }
        ensures places { IfOk result (λ device. places_of device ≡ places_named (image_of (state_of device)) places) }
        ensures works { IfOk result (λ device. failure_of device ≡ None) }

        // No image but the device's may be found there (`MayFindIn`).
        ensures found { IfOk result (λ device. (image : List ℕ) → MayFindIn S.may_hold device image → image ≡ image_of (state_of device)) }

        // At Err, whichever write fails, whatever is found stands for the image that the file stands for (`StandsAs`).
        ensures unopened { IfErr result (λ unopened. StandsAs (S.may_hold unopened.storage) words room file.items) }
    {
        let mut image = file;
        let images = JournaledImages::open(alloc, storage, &mut image, words, room)?;
        image.shrink_to_fit();
        match JournaledPmem::new(alloc, image, images, places) {
            Ok(device) => Ok(device),
            Err(images) => Err(unopened(images)),
        }
    }

    /// How many words the image has that was written last.
    pub(crate) fn size(&self) -> usize
        ensures { result ≡ length (last_image self.now) }
    {
        self.images.size()
    }

    /// Whether the image that was written last is what the device holds now.
    pub fn is_written(&self) -> bool
        // It is exactly if no image failed to be kept, and no line is marked as stored to since that one was written (`IsWritten`).
        ensures is { IsTrue result ↔ IsWritten self.now }

        // Then it has the words that the device holds, and a crash may leave it.
        ensures same { OnTrue result (last_image self.now ≡ image_of (state_of self.now)) }
        ensures left { OnTrue result (MayLeave (state_of self.now) (last_image self.now)) }

        // Otherwise an image wasn't kept, and `failure` says why, or a line is marked as stored to.
        ensures otherwise { result ≡ false → ∥ IsSome (failure_of self.now) ∥₁ ⊎ (changed_in self.now ≢ []) }
    {
        !self.images.is_failed() && self.changed.as_slice().is_empty()
    }

    /// Why an image wasn't kept, if one wasn't. No fence succeeds since then.
    pub fn failure(&self) -> Option<io::Error>
        ensures { result ≡ failure_of self.now }
    {
        self.images.failure()
    }

    /// Returns its image's storage, as it is: what was stored since the last fence of a gate isn't there.
    pub fn release(self) -> S
        ensures { result ≡ storage_of self }
    {
        self.images.release()
    }

    /// Brings the image that was kept last in place, and hands out where it is kept: the first words alone are the image then.
    pub fn into_storage(self) -> Result<S, Unclosed<S>>
    where
        S: Drop,
        // At Ok the image that was kept last is in place, and the journal doesn't count.
        ensures closed { IfOk result (λ storage. ∥ IsClosedIn S.may_hold self storage ∥₁) }

        // At Err, whichever write fails, whatever is found stands for an image that might have been found before (`StandsAmong`).
        // The place where it is kept is returned with the error (`Unclosed`).
        ensures unclosed { IfErr result (λ unclosed. StandsForOne S.may_hold self unclosed.storage) }
    {
        self.images.close()
    }
}

// Memory was refused.
fn unopened<S: Storage>(images: JournaledImages<S>) -> Unopened<S>
    ensures { result.storage ≡ images.storage }
{
    Unopened {
        error: io::Error::from(io::ErrorKind::OutOfMemory),
        storage: images.release(),
    }
}

// Whether the image names no other places than these, once this word has this value: only words of its superblock name them.
fn leaves_places(words: &[u64], places: usize, word: usize, value: u64) -> bool
    requires { NamesPlaces places words.now }
    ensures { result ≡ true → NamesPlaces places (slice_set words.now word value) }
{
    if word < 8 {
        return keeps_places(words, places, word, value);
    }
    true
}

// Adds the line of a word that is to have this value, unless it has it. Returns whether there was memory.
fn note_change(changed: &mut ChangedLines, words: &[u64], word: usize, value: u64) -> bool
    requires within { word < length words.now }
    requires listed { length words.now ≤ 8 * changed.old.count }
    ensures has { result ≡ true → (is_listed changed.new.lines (word / 8) ≡ true) ⊎ (slice_index words.now word ≡ value) }
    ensures others { (other : ℕ) → is_listed changed.old.lines other ≡ true → is_listed changed.new.lines other ≡ true }
    ensures count { changed.new.count ≡ changed.old.count }
    ensures places { changed.new.places ≡ changed.old.places }
    ensures err { result ≡ false → changed.new ≡ changed.old }
{
    if words[word] == value {
        return true;
    }
    changed.add(word / 8).is_ok()
}

// Notes in both marks that a gate was stored, if this word is one. Most words are none, and change no mark.
#[inline(always)]
fn note_gate(stored: &mut bool, unwritten: &mut bool, places: usize, word: usize)
    ensures stored { stored.new ≡ (is_gate places word || stored.old) }
    ensures unwritten { unwritten.new ≡ (is_gate places word || unwritten.old) }
{
    if is_gate(places, word) {
        *stored = true;
        *unwritten = true;
    }
}

// Notes what an actor flushed, and returns whether there is memory for that. Only a line with a gate decides what a fence does; a
// collector flushes the line of each slot before it fences.
#[inline(always)]
fn note_flushed(flushed: &mut Vec<Flushed>, places: usize, one: Flushed) -> bool
    ensures noted { result ≡ true → flushed.new.items ≡ with_flushed places one flushed.old.items }
    ensures refused { result ≡ false → flushed.new.items ≡ flushed.old.items }

    // Only a line with a gate may be refused.
    ensures plain { is_gate_line places one.line ≡ false → result ≡ true }
{
    if is_gate_line(places, one.line) {
        return flushed.push(one).is_ok();
    }
    true
}

// Did the actor flush a line with a gate, and hasn't fenced it yet?
fn is_gate_flushed(places: usize, flushed: &[Flushed], actor: u8) -> bool
    ensures { result ≡ is_gate_flushed places flushed.now actor }
{
    for one in flushed {
        if one.actor == actor && is_gate_line(places, one.line) {
            return true;
        }
    }
    false
}

impl<I: Images> Pmem for JournaledPmem<I> {
    ghost use Rattle.pmem_file.specs.Devices.{HasFailed, state_of};
    ghost use Rattle.pmem_file.specs.Traces.{device_of};
    ghost use Rattle.pmem_file.specs.Orderly.{orderly_of};

    ghost state = { λ device. device_of device.trace };

    ghost orderly = { λ device. orderly_of (device_of device.trace) device.words.items device.shown };

    fn words(&self) -> usize {
        self.words.len()
    }

    fn load(&self, word: usize) -> u64 {
        self.words[word]
    }

    // It fails only if there is no memory, or if a formatted image would name other places than the device has. Most stores are to a
    // line that was stored to before, and holds no gate.
    fn store(&mut self, word: usize, value: u64) -> Result<(), Fault> {
        if self.changed.has_plain(word / 8) {
            self.words[word] = value;
            self.trace.note(Operation::Store { word, value });
            return Ok(());
        }
        if self.words[word] == value {
            // It changes no line, and no gate. Most words of a record are 0 as before.
            self.trace.note(Operation::Store { word, value });
            return Ok(());
        }
        if self.store_first(word, value) {
            Ok(())
        } else {
            Err(Fault::Device)
        }
    }

    // It fails only if there is no memory.
    fn flush(&mut self, actor: Actor, line: usize) -> Result<(), Fault> {
        let actor = actor.number;
        if !note_flushed(&mut self.flushed, self.places, Flushed { actor, line }) {
            return Err(self.refuse());
        }
        self.trace.note(Operation::Flush { actor, line });
        Ok(())
    }

    // Most fences are made while no gate is stored, and order only. One fails only where an image wasn't kept.
    fn fence(&mut self, actor: Actor) -> Result<(), Fault>
        // As for `Pmem::fence`.
        ensures ok { OnOk result (state_of self.new ≡ fenced actor.number (state_of self.old)) }
        ensures err { OnErr result (state_of self.new ≡ failed (state_of self.old)) }
        ensures fault { IfErr result (λ fault. fault ≡ Fault.Device) }

        // At Err an image wasn't kept, and that is noted (`HasFailed`). Over a file `failure` then says why.
        ensures noted { OnErr result (HasFailed I.has_failed self.new) }
    {
        if !self.images.is_failed() && !self.is_gate_stored {
            self.order(actor.number);
            return Ok(());
        }
        if self.is_fenced(actor.number) {
            Ok(())
        } else {
            Err(Fault::Device)
        }
    }
}

impl<I: Images> SyncAhead for JournaledPmem<I> {
    type Pending = I::Pending;

    // If the fence would make a gate durable, the image is written here. If that fails, so does the fence.
    fn begin_sync(&mut self, actor: Actor) -> Option<I::Pending> {
        if self.images.is_failed()
            || !self.is_gate_unwritten
            || !self.makes_a_gate_durable(actor.number)
        {
            return None;
        }
        match self.write() {
            Ok(()) => self.images.hand_out(),
            Err(_) => None,
        }
    }

    fn sync(pending: &mut I::Pending) {
        I::sync_apart(pending);
    }

    fn end_sync(&mut self, pending: I::Pending) {
        self.images.take_back(pending);
    }
}
