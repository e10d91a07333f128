ghost use Rattle.std.specs.Prelude.{◌≡◌, ◌⊎◌, ℕ, Bool, true, false, List, Option, None, Some, IfSome, IsErr, IsNone, IsSome, OnErr, OnOk};
ghost use Rattle.journal.specs.Changes.{DiffersIn};

use std::io;

/// A place in which images are kept, each as a whole.
pub trait Images {
    /// A sync of the image that was begun, which is made while the images aren't at hand.
    type Pending: Drop;

    /// This image may be found, once the process or the machine has stopped.
    ghost may_hold: { Self → List ℕ → Type 0 };

    /// This image was written last: it is found, once `finish` has succeeded.
    ghost shows: { Self → List ℕ → Type 0 };

    /// An image wasn't kept, and why is noted.
    ghost has_failed: { Self → Bool };

    /// Each image, and each wait for one, is refused: a sync is handed out, or one failed that was made apart.
    ghost refuses: { Self → Type 0 };

    /// Whether a sync that was handed out succeeded, once it was made.
    ghost came: { Self.Pending → Option Bool };

    /// Whether an image wasn't kept.
    fn is_failed(&self) -> bool
        ensures { result ≡ has_failed self.now };

    /// Writes the image, and doesn't wait until it persists.
    fn begin(&mut self, words: &Vec<u64>, lines: &[usize]) -> io::Result<()>
        // The image that was written last differs from this one in the lines of these numbers alone.
        requires differs { (image : List ℕ) → shows self.old image → DiffersIn lines.now words.now.items image }

        // From then on, also at Err, one that might be found before or this one may be found. At Ok this one was written last.
        ensures whole { (image : List ℕ) → may_hold self.new image → may_hold self.old image ⊎ (image ≡ words.now.items) }
        ensures begun { OnOk result ((image : List ℕ) → shows self.new image → image ≡ words.now.items) }

        // At Err an image wasn't kept, and that is noted (`has_failed`). Of `JournaledImages`, `failure` then says why. At Ok none is
        // noted.
        ensures noted { OnErr result (has_failed self.new ≡ true) }
        ensures works { OnOk result (has_failed self.new ≡ false) }

        // While all is refused it is an Err, stays so, and changes nothing.
        ensures refused { refuses self.old → IsErr result × refuses self.new }
        ensures still { refuses self.old → (image : List ℕ) → (may_hold self.new image → may_hold self.old image) × (shows self.new image → shows self.old image) };

    /// Waits until the image persists that was written last.
    fn finish(&mut self) -> io::Result<()>
        // No other image may be found than before, and at Ok only the one that was written last.
        ensures whole { (image : List ℕ) → may_hold self.new image → may_hold self.old image }
        ensures kept { OnOk result ((image : List ℕ) → may_hold self.new image → shows self.old image) }

        // At Err that is noted, and at Ok none is.
        ensures noted { OnErr result (has_failed self.new ≡ true) }
        ensures works { OnOk result (has_failed self.new ≡ false) }

        // While all is refused it is an Err, stays so, and changes nothing.
        ensures refused { refuses self.old → IsErr result × refuses self.new }
        ensures still { refuses self.old → (image : List ℕ) → shows self.new image → shows self.old image };

    /// Hands out a sync that another thread may make before `finish`, if there is one: `finish` takes no time then, once it was
    /// taken back.
    fn hand_out(&mut self) -> Option<Self::Pending>
        // It changes no image, and what was noted stays so.
        ensures found { (image : List ℕ) → may_hold self.new image → may_hold self.old image }
        ensures shown { (image : List ℕ) → shows self.new image → shows self.old image }
        ensures noted { has_failed self.new ≡ has_failed self.old }

        // Until it is taken back all is refused, and no other is handed out.
        ensures out { IsSome result → refuses self.new }
        ensures once { refuses self.old → IsNone result × refuses self.new }

        // At None nothing is refused that wasn't before.
        ensures none { IsNone result → refuses self.new → refuses self.old }

        // What is handed out wasn't made yet.
        ensures fresh { IfSome result (λ pending. came pending ≡ None) };

    /// Makes a sync that was handed out, and waits until it ends.
    fn sync_apart(pending: &mut Self::Pending)
        // One that failed stays so, also if it is made again.
        ensures failed { came pending.old ≡ Some false → came pending.new ≡ Some false };

    /// Takes back what was handed out, with what came of it.
    fn take_back(&mut self, pending: Self::Pending)
        // It changes no image, and what was noted stays so.
        ensures found { (image : List ℕ) → may_hold self.new image → may_hold self.old image }
        ensures shown { (image : List ℕ) → shows self.new image → shows self.old image }
        ensures noted { has_failed self.new ≡ has_failed self.old }

        // If the sync failed, all is refused as before.
        ensures failed { came pending ≡ Some false → refuses self.old → refuses self.new };

    ghost shown_is_found: { (images : Self) (image : List ℕ) → shows images image → may_hold images image };
}

/// Keeps nothing: the words are gone with the process.
#[derive(Clone, Copy, Drop)]
pub struct Nowhere;

impl Images for Nowhere {
    type Pending = ();

    // Nothing is claimed of what is found.
    ghost may_hold = { λ _ _. ⊥ };

    ghost shows = { λ _ _. ⊥ };

    ghost has_failed = { λ _. false };

    // No sync is handed out.
    ghost refuses = { λ _. ⊥ };

    ghost came = { λ _. None };

    ghost shown_is_found = { λ _ _ shown. shown };

    #[inline(always)]
    fn is_failed(&self) -> bool {
        false
    }

    fn begin(&mut self, words: &Vec<u64>, lines: &[usize]) -> io::Result<()> {
        let _ = words;
        let _ = lines;
        Ok(())
    }

    fn finish(&mut self) -> io::Result<()> {
        Ok(())
    }

    fn hand_out(&mut self) -> Option<()> {
        None
    }

    fn sync_apart(pending: &mut ()) {
        let _ = pending;
    }

    fn take_back(&mut self, pending: ()) {
        let _ = pending;
    }
}
