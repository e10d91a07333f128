//! What follows from the definitions. The functions do nothing: the contract of each is a law.

ghost use Rattle.session_steps.specs.Laws.{ShowsAnyHand, TableHasLines};

/// What the sessions show doesn't depend on the pending batch, or on a failure of the device.
pub fn sessions_show_any_hand()
    ensures { ShowsAnyHand }
{}

/// Of the sessions of those drawn commits whose timestamps pass a test, the dirty table has exactly the lines that these commits
/// touch.
pub fn table_has_the_lines_of_a_batch()
    ensures { TableHasLines }
{}
