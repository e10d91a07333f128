ghost use Rattle.group_commit.specs.Laws.{TicksAreCounted};

/// A cycle flushes each line of its batch once, in rising order, and then fences and writes its record. The batch is covered
/// after as many ticks as there are lines, and 41 more with the one that chose it.
pub fn ticks_are_counted()
    ensures { TicksAreCounted }
{}
