//! Contents in the rows that wait for them.

ghost use Rattle.std.specs.Prelude.{◌≡◌, ◌++◌, List, ℕ, map};
ghost use Rattle.std.specs.Option.{option_to_list};
ghost use Rattle.depot_rows.specs.depot_model.declared.reply.Row.{Row as AnyRow};
ghost use Rattle.reply_rows.specs.Made.{contents_of, waiting};

use depot_rows::model::{Reply, Row};
use depot_rows::paths::{Sequence, Text};

/// Puts the last of the contents into a row, where it waits for one.
fn fill(row: &mut Row, contents: &mut Vec<Text>)
    ensures { (told : AnyRow) (before : List (List ℕ)) → row.old ≡ waiting told →
        contents.old.items ≡ before ++ option_to_list told.content →
        (row.new ≡ told) × (contents.new.items ≡ before) }
{
    if row.content.is_some() {
        row.content = contents.pop();
    }
}

/// A reply with these contents in the rows that wait for theirs, in the order of the rows. Takes no memory.
pub fn filled(reply: Reply, contents: Sequence<Text>) -> Reply
    ensures { (rows : List AnyRow) → reply.rows ≡ map waiting rows → contents ≡ contents_of rows → result.rows ≡ rows }
{
    let mut rows = reply.rows.into_vec();
    let mut texts = contents.into_vec();
    let mut left = rows.len();
    while left > 0 {
        left -= 1;
        let row = &mut rows[left];
        fill(row, &mut texts);
    }
    Reply {
        rows: Sequence::from_vec(rows),
    }
}
