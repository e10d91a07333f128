//! What follows from the definitions. The functions do nothing: the contract of each is a law.

ghost use Rattle.base.specs.Laws.{EachFreshStands, SoundStands, OneRecord, OneSpelling, FoundRecord};

/// The fresh image of each layout within the limits has that layout and the first record, stands for no commit, and opens.
pub fn fresh_images_stand()
    ensures { EachFreshStands }
{}

/// Every sound image stands for some history, with nothing drawn.
pub fn sound_images_stand()
    ensures { SoundStands }
{}

/// A record has one spelling in the words of a place.
pub fn records_have_one_spelling()
    // Words hold at most one record.
    ensures one_record { OneRecord }

    // A record is written in one way.
    ensures one_spelling { OneSpelling }

    // The test of words finds the record that they hold, and finds one only if they hold one.
    ensures found { FoundRecord }
{}
