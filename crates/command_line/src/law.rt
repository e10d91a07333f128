ghost use Rattle.std.specs.Prelude.{◌≡◌, ◌∷◌, [], codes, false, true};
ghost use Rattle.std.specs.Borrow.{Bor};
ghost use Rattle.command_line.specs.Help.{GetsHelp, MayGetHelp};
ghost use Rattle.command_line.specs.Numbers.{Text};
ghost use Rattle.command_line.specs.Words.{Gives, GivesNothing};
ghost use Rattle.command_line.specs.declared.orders.Order.TheVariants.{Format, Run, Threads};
ghost use Rattle.command_line.specs.declared.orders.Width.TheVariants.{Plain, Wide, Lines};

/// Which words ask for help.
pub fn flags_ask_for_help()
    // `-h`, `--help` and `format --help` do.
    ensures short { GetsHelp (codes "-h" ∷ []) }
    ensures long { GetsHelp (codes "--help" ∷ []) }
    ensures of_a_subcommand { GetsHelp (codes "format" ∷ codes "--help" ∷ []) }

    // No words, and a word that doesn't name a subcommand, don't.
    ensures no_words { MayGetHelp [] → ⊥ }
    ensures no_subcommand { MayGetHelp (codes "frob" ∷ []) → ⊥ }
{}

/// What some words give, for files with the name `a`.
pub fn words_give_orders()
    // The orders that five lists of words give: a run, a format with its defaults, two with options, and threads. Options come
    // before the file or after it. A value is in a word of its own or follows a `=`.
    ensures run { (a : Bor Text) → a.now ≡ codes "a" → Gives (codes "run" ∷ codes "a" ∷ []) (Run a) }
    ensures defaults { (a : Bor Text) → a.now ≡ codes "a" → Gives (codes "format" ∷ codes "a" ∷ []) (Format a Plain 1024 4 64) }
    ensures options { (a : Bor Text) → a.now ≡ codes "a" → Gives (codes "format" ∷ codes "--slots" ∷ codes "8" ∷ codes "a" ∷ codes "--places=2" ∷ codes "--wide" ∷ []) (Format a Wide 8 2 64) }
    ensures large { (a : Bor Text) → a.now ≡ codes "a" → Gives (codes "format" ∷ codes "a" ∷ codes "--lines" ∷ codes "2" ∷ codes "--slots=65537" ∷ []) (Format a (Lines 2) 65537 4 64) }
    ensures threads { (a : Bor Text) → a.now ≡ codes "a" → Gives (codes "threads" ∷ codes "a" ∷ codes "--commits" ∷ codes "3" ∷ []) (Threads a 4 3) }

    // Words with one of these faults give no order.
    ensures no_file { GivesNothing (codes "run" ∷ []) }
    ensures second_file { GivesNothing (codes "run" ∷ codes "a" ∷ codes "b" ∷ []) }
    ensures second_value { GivesNothing (codes "format" ∷ codes "a" ∷ codes "--slots" ∷ codes "8" ∷ codes "--slots" ∷ codes "9" ∷ []) }
    ensures other_option { GivesNothing (codes "threads" ∷ codes "a" ∷ codes "--slots" ∷ codes "8" ∷ []) }
    ensures no_number { GivesNothing (codes "format" ∷ codes "a" ∷ codes "--slots" ∷ codes "8x" ∷ []) }
    ensures out_of_limits { GivesNothing (codes "format" ∷ codes "a" ∷ codes "--slots" ∷ codes "0" ∷ []) }
    ensures wide_and_lines { GivesNothing (codes "format" ∷ codes "a" ∷ codes "--wide" ∷ codes "--lines" ∷ codes "2" ∷ []) }
    ensures wide_and_large { GivesNothing (codes "format" ∷ codes "a" ∷ codes "--wide" ∷ codes "--slots" ∷ codes "65537" ∷ []) }

    // Nor does a number with a plus sign, or a file named `-`, though `clap` takes these two.
    ensures plus_sign { GivesNothing (codes "format" ∷ codes "a" ∷ codes "--slots" ∷ codes "+8" ∷ []) }
    ensures minus { GivesNothing (codes "run" ∷ codes "-" ∷ []) }
{}
