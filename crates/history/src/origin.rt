//! The name of a history. It is in a type, since nothing else is known of a value that comes out of a lock.

use std::marker::Brand;

/// Which history it is, whether it is kept, and which device its room was opened from. Only contracts see it: each call of a program
/// picks it. What isn't named keeps no history.
pub trait Origin {
    ghost use Rattle.std.specs.Prelude.{Bool};
    ghost use Rattle.logbook.specs.Pages.{Book};
    ghost use Rattle.pmem.specs.Device.{Device};

    ghost kept: { Bool };

    ghost book: { Book };

    ghost opened: { Device };
}

impl Origin for Brand {
    ghost use Rattle.std.specs.Prelude.{[], None, false};

    ghost kept = { false };

    ghost book = { record { number = 0; log_name = 0; cells_name = 0 } };

    ghost opened = { record { words = 0; history = λ word. []; clock = 0; limit = None; failures = 0; stores = 0; flushes = 0; fences = 0 } };
}
