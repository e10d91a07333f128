ghost use Rattle.log_area.specs.Writings.{AreReplacedAmongOthers, AreReplacedWhole};

/// While a record is written one of two rules: the one before it or, whole, the new one.
pub fn records_are_replaced_whole()
    // While these operations are made, also up to one that fails, whatever a crash leaves is ruled by the record before or by the
    // new one. After all of them the new one alone rules.
    ensures { AreReplacedWhole }
{}

/// So it is if other actors make operations in between.
pub fn records_are_replaced_among_others()
    // The same if other operations come between these, which store no word of the superblock or of the log area, and if some of
    // these fail and are made again. Until the gate is stored, the record before rules alone.
    ensures { AreReplacedAmongOthers }
{}
