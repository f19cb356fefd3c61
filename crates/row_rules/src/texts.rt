//! Words and paths of rows.

ghost use Rattle.std.specs.Prelude.{◌≡◌, IfOk};
ghost use Rattle.depot_rows.specs.depot_model.Rules.{is_printed_path as path_test, is_kept_name as kept_test, is_move_word as move_test, is_delete_word as delete_test, is_one_of, action_words};
ghost use Rattle.row_rules.specs.Tests.{how_words, status_words, is_moved as moved_test};

use depot_rows::paths::{DepotPath, PathFault, is_plain_path};
use std::alloc::{AllocError, Global};

/// Whether a text is a path as it is printed.
pub(crate) fn is_path(alloc: Global, text: &[u8]) -> Result<bool, AllocError>
    ensures { IfOk result (λ is. is ≡ path_test text.now) }
{
    if is_plain_path(text) {
        return Ok(true);
    }
    match DepotPath::read(alloc, text) {
        Ok(path) => {
            let printed = path.print(alloc)?;
            Ok(printed.as_bytes() == text)
        }
        Err(PathFault::Memory) => Err(AllocError),
        Err(_) => Ok(false),
    }
}

/// Whether the program keeps the counter of this name itself.
pub(crate) fn is_kept_name(name: &[u8]) -> bool
    ensures { result ≡ kept_test name.now }
{
    name == b"change".as_slice() || name == b"journal".as_slice()
}

/// Whether a word is that of an action.
pub(crate) fn is_action(word: &[u8]) -> bool
    ensures { result ≡ is_one_of action_words word.now }
{
    word == b"add".as_slice()
        || word == b"edit".as_slice()
        || word == b"delete".as_slice()
        || word == b"branch".as_slice()
        || word == b"integrate".as_slice()
        || is_move(word)
}

/// Whether a word is that of one of the two actions of a move.
fn is_move(word: &[u8]) -> bool
    ensures { result ≡ move_test word.now }
{
    word == b"move/add".as_slice() || word == b"move/delete".as_slice()
}

/// Whether a word is that of a deletion.
pub(crate) fn is_delete(word: &[u8]) -> bool
    ensures { result ≡ delete_test word.now }
{
    word == b"delete".as_slice() || word == b"move/delete".as_slice()
}

/// Whether a resolve may have been made in the way of this word, which is empty while it is owed.
pub(crate) fn is_how(word: &[u8]) -> bool
    ensures { result ≡ is_one_of how_words word.now }
{
    word.is_empty()
        || word == b"copy from".as_slice()
        || word == b"branch from".as_slice()
        || word == b"delete from".as_slice()
        || word == b"ignored".as_slice()
        || word == b"moved from".as_slice()
}

/// Whether a word is the status of a change.
pub(crate) fn is_status(word: &[u8]) -> bool
    ensures { result ≡ is_one_of status_words word.now }
{
    word == b"pending".as_slice() || word == b"submitted".as_slice()
}

/// Whether the other file of an action is a path exactly where the action is of a move.
pub(crate) fn is_moved(alloc: Global, action: &[u8], moved: &[u8]) -> Result<bool, AllocError>
    ensures { IfOk result (λ is. is ≡ moved_test action.now moved.now) }
{
    if is_move(action) {
        is_path(alloc, moved)
    } else {
        Ok(moved.is_empty())
    }
}
