//! The rows of revisions of files, as they were seen when the files were found. Where files are looked up in the same
//! order, the rows are passed once.

ghost use Rattle.std.specs.Prelude.{◌≡◌, List, [], map, Contains, IfSome};
ghost use Rattle.depot_rows.specs.db_records.declared.record.Record.{Record};
ghost use Rattle.newest_revisions.specs.Seen.{AreHeads, kept};

use depot_rows::paths::Text;
use depot_rows::records::RevRecord;
use std::alloc::Global;

/// Rows of revisions of files, one a file, and how many of them were passed.
#[derive(Drop)]
pub struct SeenRows<'t> {
    rows: Vec<&'t RevRecord>,
    passed: usize,
}

impl<'t> SeenRows<'t> {
    /// No row, which takes no memory.
    pub fn none(alloc: Global) -> SeenRows<'t>
        ensures rows { kept result ≡ [] }
        ensures heads { (rows : List Record) → AreHeads rows result }
    {
        SeenRows {
            rows: Vec::new(alloc),
            passed: 0,
        }
    }

    /// Goes by these rows from now on, of which none was passed.
    pub fn see(&mut self, rows: Vec<&'t RevRecord>)
        ensures { kept self.new ≡ map (λ r. r.now) rows.entry.items }
    {
        *self = SeenRows { rows, passed: 0 };
    }

    /// Passes the rows up to that of the file with this text, and gives it, where it is among them.
    pub fn go_to(&mut self, text: &Text) -> Option<&'t RevRecord>
        ensures rows { kept self.new ≡ kept self.old }
        ensures path { IfSome result (λ row. row.now.path ≡ text.now) }
        ensures found { IfSome result (λ row. Contains (kept self.old) row.now) }
    {
        while self.passed < self.rows.len() {
            let row = self.rows[self.passed];
            self.passed += 1;
            if row.path.as_bytes() == text.as_bytes() {
                return Some(row);
            }
        }
        None
    }
}
