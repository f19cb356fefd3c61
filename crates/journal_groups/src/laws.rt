//! What holds of all journals' texts.

ghost use Rattle.journal_groups.specs.Laws.{GroupsHaveOneText, FaultsHaveTheirCause};

/// A group has one text, which is read whatever follows it, and a journal's text has one list of groups.
pub fn groups_have_one_text()
    ensures { GroupsHaveOneText }
{}

/// Bytes end too early just where they may still become what is wanted, and otherwise stop at the first byte
/// with which they no longer may.
pub fn faults_have_their_cause()
    ensures { FaultsHaveTheirCause }
{}
