ghost use Rattle.std.specs.Prelude.{◌≡◌, ◌≢◌, ℕ, List, All};
ghost use Rattle.command_line.specs.Numbers.{Text};
ghost use Rattle.console.specs.Input.{lines_in, written};
ghost use Rattle.console.specs.Kept.{KeepsHistories};
ghost use Rattle.console.specs.Rounds.{NeededAreEnough, QuietTicks};

/// What two runs in turn each keep of FILE, both keep. So no list of runs takes a covered commit out of it.
pub fn runs_compose()
    ensures { (first second third : List ℕ) → KeepsHistories first second → KeepsHistories second third → KeepsHistories first third }
{}

/// Lines that are written down, each with a line feed after it, are read back as they are.
pub fn written_lines_are_read_back()
    ensures { (lines : List Text) → All (All (λ byte. byte ≢ 10)) lines → lines_in (written lines) ≡ lines }
{}

/// The visits that `collect N` makes, at most two rounds, come to what all `N` do.
pub fn needed_visits_are_enough()
    ensures { NeededAreEnough }
{}

/// If a tick of the committer leaves nothing to do and the device works, further ticks change nothing, and their reply is Idle if
/// its reply was.
pub fn quiet_ticks()
    ensures { QuietTicks }
{}
