//! Worked examples as theorems. The functions do nothing: the contract of each says what its title promises.
#![tactic(auto)]

ghost use Rattle.worked.specs.Images.{FirstRunImages, DamagedImages, NinthGap, ReadImages, LongCommits, LargeImages};
ghost use Rattle.worked.specs.Runs.{FirstCommit, FailedFence, LostCommit, EmptyWriteSet, HalfWritten, CloseThenOpen, SessionNumbers, OwnWrites, Scans, Update, TwoKeys, AbortedWrites, FullWriteSet, NoSlotLeft, FirstCommitterWins, NoTimestampLeft, FreedSlots, SweptGaps};

/// The words of the images of a first run, their ruling records, and what they stand for.
pub fn first_run_images()
    ensures { FirstRunImages }
{}

/// Which fault each damaged image has.
#[tactic(auto, unfolding(base::specs::Layout::is_known_version, base::specs::Layout::most_slots, base::specs::Layout::slot_lines, base::specs::Layout::slot_words, base::specs::Layout::used_words))]
pub fn damaged_images()
    ensures { DamagedImages }
{}

/// An image with a ninth gap opens, and is swept first.
#[tactic(auto, unfolding(base::specs::Layout::is_known_version, base::specs::Layout::most_slots, base::specs::Layout::slot_lines, base::specs::Layout::slot_words, base::specs::Layout::used_words))]
pub fn ninth_gap()
    ensures { NinthGap }
{}

/// A body that isn't the ruling record's is never read; rows and keys of every size are.
#[tactic(auto, unfolding(base::specs::Layout::is_known_version, base::specs::Layout::most_slots, base::specs::Layout::slot_lines, base::specs::Layout::slot_words, base::specs::Layout::used_words))]
pub fn read_images()
    ensures { ReadImages }
{}

/// A record that names a long commit, from version 2 on.
pub fn long_commits()
    ensures { LongCommits }
{}

/// Images of version 4: their words, which of them are refused, and how long they may be.
#[tactic(auto, unfolding(base::specs::Layout::is_known_version, base::specs::Layout::most_slots, base::specs::Layout::slot_lines, base::specs::Layout::slot_words, base::specs::Layout::used_words))]
pub fn large_images()
    ensures { LargeImages }
{}

/// A first commit: its replies, its 42 ticks, and its row after the next opening.
pub fn first_commit()
    ensures { FirstCommit }
{}

/// The gate's fence fails: nothing is acknowledged, and each later step is refused.
pub fn failed_fence()
    ensures { FailedFence }
{}

/// A commit that is stamped and not covered at a stop is lost for good, and its slot is free.
pub fn lost_commit()
    ensures { LostCommit }
{}

/// A session that wrote nothing draws no timestamp.
pub fn empty_write_set()
    ensures { EmptyWriteSet }
{}

/// A record that is half written isn't read.
pub fn half_written_record()
    ensures { HalfWritten }
{}

/// Closing covers what is drawn and leaves no timestamp reserved, and the next opening has no gap.
pub fn close_then_open()
    ensures { CloseThenOpen }
{}

/// A session has the lowest number that is free.
pub fn session_numbers()
    ensures { SessionNumbers }
{}

/// A transaction sees what it wrote and deleted.
pub fn own_writes()
    ensures { OwnWrites }
{}

/// A scan shows its snapshot's rows of a range, with the session's own writes laid over.
pub fn scans()
    ensures { Scans }
{}

/// An update takes a slot of its own, and the version that it replaces keeps its slot.
pub fn updated_row()
    ensures { Update }
{}

/// A commit that deletes one key and inserts another.
pub fn two_keys_in_one_commit()
    ensures { TwoKeys }
{}

/// An abort frees the slots and the session's number.
pub fn aborted_transaction()
    ensures { AbortedWrites }
{}

/// A transaction writes 32 keys and no more, and one of them may be written again.
pub fn full_write_set()
    ensures { FullWriteSet }
{}

/// A put without a free slot is refused and changes nothing.
pub fn no_slot_left()
    ensures { NoSlotLeft }
{}

/// If two sessions write the same key, the first to draw wins.
pub fn first_committer_wins()
    ensures { FirstCommitterWins }
{}

/// A draw is refused at the bounds of the window and of the numbers, and not below them.
pub fn no_timestamp_left()
    ensures { NoTimestampLeft }
{}

/// The slot of a deleted row is free after the collector's visit, unless a session still reads the row.
pub fn freed_slots()
    ensures { FreedSlots }
{}

/// A sweep of the slots, after which the next record names no gap.
pub fn swept_gaps()
    ensures { SweptGaps }
{}
