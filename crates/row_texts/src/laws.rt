//! Laws of rows that have a text.

ghost use Rattle.row_texts.specs.Texts.{RowsHaveTexts, ChangesHaveTexts};

/// Each row of a sound depot whose numbers a text may say has a text, and so has each such change between the rows that
/// stand for a depot and those of a sound depot.
pub fn rows_of_sound_depots_have_texts()
    ensures rows { RowsHaveTexts }
    ensures changes { ChangesHaveTexts }
{}
