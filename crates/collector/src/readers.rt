ghost use Rattle.std.specs.Prelude.{◌≡◌, ℕ, Bool};

use base::Ts;

/// All readers that may still read a version.
pub trait Readers {
    /// Which commits each of them covers.
    ghost covered: { Self → ℕ → Bool };

    /// Whether the commit of this timestamp is covered, now and by the snapshot of each reader.
    fn cover(&self, ts: Ts) -> bool
        ensures { result ≡ covered self.now ts };
}
