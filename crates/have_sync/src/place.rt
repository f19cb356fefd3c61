//! Look-ups in a table that go on from the row of the last one. Where the keys that are looked up rise, as those of
//! files in path order, the rows are passed once, in a walk.

ghost use Rattle.std.specs.Prelude.{◌≡◌, ◌++◌, [], None, false, true};
ghost use Rattle.std.specs.Option.{option_copied, option_to_list};
ghost use Rattle.depot_rows.specs.db_records.declared.key.Key.{Key as KeyValue};
ghost use Rattle.depot_rows.specs.table_store.Rows.{IsRising, row_at};
ghost use Rattle.have_sync.specs.Places.{IsPlace, StandsBy, at_key, has_passed, is_next_below};

use depot_rows::records::{Key, Record};
use depot_rows::tables::{Version, Walk};

/// How many rows are passed before the tree of the table is searched.
const FEW: u32 = 16;

/// A place in a table, between rows.
#[derive(Drop)]
pub(crate) struct Place<'a> {
    version: &'a Version,
    /// The row before it, where the walk passed it.
    passed: Option<&'a Record>,
    /// The row behind it, and those behind that one.
    next: Option<&'a Record>,
    rest: Walk<'a>,
}

/// Takes the first of the rows that are left.
fn take_next<'a>(rest: &mut Walk<'a>) -> Option<&'a Record>
    ensures first { rest.old ≡ option_to_list (option_copied result) ++ rest.new }
    ensures none { option_copied result ≡ None → rest.new ≡ [] }
{
    match rest.next() {
        Some(row) => Some(row),
        None => None,
    }
}

/// Whether the rows about a place tell that all before it are below a key.
fn has_passed_to(passed: Option<&Record>, next: Option<&Record>, key: &Key) -> bool
    ensures { result ≡ has_passed key.now (option_copied passed.entry) (option_copied next.entry) }
{
    let Some(next) = next else {
        return false;
    };
    if !next.compare_key(key).is_gt() {
        return true;
    }
    match passed {
        Some(passed) => passed.compare_key(key).is_lt(),
        None => false,
    }
}

/// Whether there is a row, and it is below a key.
fn is_below(next: Option<&Record>, key: &Key) -> bool
    ensures { result ≡ is_next_below key.now (option_copied next.entry) }
{
    match next {
        Some(next) => next.compare_key(key).is_lt(),
        None => false,
    }
}

/// The row, where it has the key.
fn with_key<'a>(next: Option<&'a Record>, key: &Key) -> Option<&'a Record>
    ensures { option_copied result ≡ at_key key.now (option_copied next.entry) }
{
    let row = next?;
    if row.compare_key(key).is_eq() {
        Some(row)
    } else {
        None
    }
}

impl<'a> Place<'a> {
    /// The place before all rows of a table.
    pub(crate) fn before(version: &'a Version) -> Place<'a>
        ensures place { IsPlace result }
        ensures version { result.version ≡ version.entry }
    {
        let mut rest = version.rows();
        let next = take_next(&mut rest);
        Place {
            version,
            passed: None,
            next,
            rest,
        }
    }

    /// Passes the next row.
    fn pass(&mut self)
        ensures place { (key : KeyValue) → StandsBy key self.old →
            is_next_below key (option_copied self.old.next) ≡ true → StandsBy key self.new }
        ensures version { self.new.version ≡ self.old.version }
    {
        self.passed = self.next;
        self.next = take_next(&mut self.rest);
    }

    /// Passes rows that are below a key, a few at most, and tells whether the next one isn't.
    fn go_on(&mut self, key: &Key) -> bool
        ensures place { StandsBy key.now self.old → StandsBy key.now self.new }
        ensures version { self.new.version ≡ self.old.version }
        ensures reached { result ≡ true → is_next_below key.now (option_copied self.new.next) ≡ false }
    {
        let mut steps = FEW;
        while steps > 0 {
            if !is_below(self.next, key) {
                return true;
            }
            self.pass();
            steps -= 1;
        }
        false
    }

    /// Goes to the first row that isn't below a key.
    fn search(&mut self, key: &Key)
        ensures place { IsRising self.old.version.now.rows → StandsBy key.now self.new }
        ensures version { self.new.version ≡ self.old.version }
        ensures reached { is_next_below key.now (option_copied self.new.next) ≡ false }
    {
        self.rest = self.version.from_key(key);
        self.passed = None;
        self.next = take_next(&mut self.rest);
    }

    /// Goes on to the first row that isn't below a key, where that is near behind, and tells whether it is there.
    fn go_near(&mut self, key: &Key) -> bool
        ensures place { IsPlace self.old → result ≡ true → StandsBy key.now self.new }
        ensures version { self.new.version ≡ self.old.version }
        ensures reached { result ≡ true → is_next_below key.now (option_copied self.new.next) ≡ false }
    {
        // the rows of a version are of its table, their keys rising
        let _table = self.version.table();
        let passed = has_passed_to(self.passed, self.next, key);
        if !passed {
            return false;
        }
        let reached = self.go_on(key);
        reached
    }

    /// Goes to the first row that isn't below a key: on from here where that is near, and else by a search.
    fn go_to(&mut self, key: &Key)
        ensures place { IsPlace self.old → StandsBy key.now self.new }
        ensures version { self.new.version ≡ self.old.version }
        ensures reached { is_next_below key.now (option_copied self.new.next) ≡ false }
    {
        // the rows of a version are of its table, their keys rising
        let _table = self.version.table();
        let near = self.go_near(key);
        if near {
            return;
        }
        self.search(key);
    }

    /// The row that has the key.
    pub(crate) fn get(&mut self, key: &Key) -> Option<&'a Record>
        ensures place { IsPlace self.old → IsPlace self.new }
        ensures version { self.new.version ≡ self.old.version }
        ensures found { IsPlace self.old → option_copied result ≡ row_at key.now self.old.version.now.rows }
    {
        // the rows of a version are of its table, their keys rising
        let _table = self.version.table();
        self.go_to(key);
        with_key(self.next, key)
    }
}
