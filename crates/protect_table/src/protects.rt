//! The protections table, and what it grants.

ghost use Rattle.std.specs.Prelude.{◌≡◌, ◌+◌, ◌^◌, ◌<◌, ◌≤◌, ℕ, [], length, get_or, IfOk, if◌then◌else◌};
ghost use Rattle.depot_path.specs.Answers.{Answers};
ghost use Rattle.protect_table.specs.Line.{table_of, no_memory, in_line, is_memory};
ghost use Rattle.protect_table.specs.Numbers.{AreRising, IsSaid, IsWithin, denying, end_of, granting, said_at as said_in};
ghost use Rattle.protect_table.specs.Rights.{granted, may as may_at, may_any as may_somewhere, level as level_at, any_level as level_somewhere};

use crate::fault::{LineFault, ProtectFault};
use crate::line::ProtectLine;
use crate::numbers::{Numbers, numbers_at};
use crate::said::{Question, Said, is_within};
use crate::who::{Level, Who};
use depot_path::{DepotPath, Sequence, Text};
use std::alloc::{AllocError, Global};
use std::marker::Model;
use std::sync::Arc;

/// The lines, and which of them name whom.
#[derive(Drop)]
struct Table {
    lines: Sequence<ProtectLine>,
    numbers: Numbers,
}

/// The protections table, seen in contracts as the list of its lines. It never changes, and what shares it holds
/// the same lines.
pub struct Protects {
    table: Arc<Table, Global>,
}

impl Drop for Protects {
    fn drop(self) {
        let Protects { table: _ } = self;
    }
}

impl Model for Protects {
    ghost use Rattle.std.specs.Prelude.{List};
    ghost use Rattle.std.specs.Arc.{arc_value};
    ghost use Rattle.protect_table.specs.Numbers.{AreOf};
    ghost use Rattle.protect_table.specs.declared.line.ProtectLine.{ProtectLine};

    ghost Value = { List ProtectLine };

    ghost view = { λ protects. (arc_value protects.table).lines };

    ghost invariant = { λ protects. AreOf (arc_value protects.table).numbers (arc_value protects.table).lines };
}

/// The fault of a bad line, where `before` lines precede it.
fn fault_after(before: usize, what: LineFault) -> ProtectFault
    requires { before + 1 < 2 ^ 64 }
    ensures { result ≡ (if is_memory what then no_memory else in_line (before + 1) what) }
{
    match what {
        LineFault::Memory => ProtectFault { what, line: 0 },
        _ => ProtectFault {
            what,
            line: before + 1,
        },
    }
}

impl Protects {
    /// The table of these lines. The one error is want of memory.
    fn of_lines(alloc: Global, lines: Sequence<ProtectLine>) -> Result<Self, AllocError>
        ensures { IfOk result (λ protects. protects ≡ lines) }
    {
        let numbers = Numbers::of_lines(alloc, lines.as_slice())?;
        Ok(Protects {
            table: Arc::new(alloc, Table { lines, numbers })?,
        })
    }

    /// The table without lines. The one error is want of memory.
    pub fn empty(alloc: Global) -> Result<Self, AllocError>
        ensures { IfOk result (λ protects. protects ≡ []) }
    {
        Protects::of_lines(alloc, Sequence::new(alloc))
    }

    /// The same table, shared. The one error is that there are too many shares.
    pub fn share(&self) -> Result<Self, AllocError>
        ensures { IfOk result (λ protects. protects ≡ self.now) }
    {
        Ok(Protects {
            table: Arc::try_clone(&self.table)?,
        })
    }

    /// Reads a table, a line from each text. It answers the first bad line, by its fault.
    pub fn from_lines(alloc: Global, lines: &[Text]) -> Result<Self, ProtectFault>
        ensures { Answers no_memory result (table_of lines.now) }
    {
        let mut read = Sequence::new(alloc);
        for i in 0..lines.len() {
            match ProtectLine::read(alloc, lines[i].as_bytes()) {
                Ok(line) => {
                    if read.push(line).is_err() {
                        return Err(fault_after(i, LineFault::Memory));
                    }
                }
                Err(what) => return Err(fault_after(i, what)),
            }
        }
        match Protects::of_lines(alloc, read) {
            Ok(protects) => Ok(protects),
            Err(_) => Err(fault_after(0, LineFault::Memory)),
        }
    }

    /// The lines.
    pub fn lines(&self) -> &[ProtectLine]
        ensures { result.now ≡ self.now }
    {
        self.table.lines.as_slice()
    }

    /// What the line of a number says, if there is one and it says anything.
    fn said_at(&self, number: usize, asked: &Question<'_>) -> Option<bool>
        ensures { result ≡ said_in asked.now self.now number }
    {
        match self.lines().get(number) {
            Some(line) => line.said(asked),
            None => None,
        }
    }

    /// The last line that says anything, of those up to `last` and of some with rising numbers.
    fn last_of(&self, numbers: &[usize], asked: &Question<'_>, last: Option<Said>) -> Option<Said>
        requires rising { AreRising numbers.now }
        requires said { IsSaid asked.now self.now last }
        ensures said { IsSaid asked.now self.now result }
        ensures later { end_of last ≤ end_of result }
        ensures within { (i : ℕ) → i < length numbers.now → IsWithin asked.now self.now result (get_or numbers.now i 0) }
    {
        let mut at = numbers.len();
        while at > 0 {
            at -= 1;
            let line = numbers[at];
            if is_within(line, last) {
                return last;
            }
            if let Some(granted) = self.said_at(line, asked) {
                return Some(Said { line, granted });
            }
        }
        last
    }

    /// The last line that says anything. It looks at those that may name the caller, from the last.
    fn last_said(&self, asked: &Question<'_>) -> Option<Said>
        ensures said { IsSaid asked.now self.now result }
        ensures within { (number : ℕ) → IsWithin asked.now self.now result number }
    {
        let numbers = &self.table.numbers;
        let of_many = self.last_of(numbers.others.as_slice(), asked, None);
        let own = numbers_at(&numbers.users, &asked.who.user);
        let mut last = self.last_of(own, asked, of_many);
        let groups = asked.who.groups.as_slice();
        for i in 0..groups.len() {
            let of_group = numbers_at(&numbers.groups, &groups[i]);
            last = self.last_of(of_group, asked, last);
        }
        last
    }

    fn grants(&self, asked: &Question<'_>) -> bool
        ensures { result ≡ granted (granting asked.now) (denying asked.now) self.now }
    {
        match self.last_said(asked) {
            Some(said) => said.granted,
            None => self.lines().is_empty(),
        }
    }

    /// Whether the caller has the need at the path. It takes no memory, and looks at the lines that may name the caller alone: what it costs
    /// follows the lines for the user, for the user's groups and for names with `*`, not those for others.
    pub fn may(&self, who: &Who, file: &DepotPath, need: Level) -> bool
        ensures { result ≡ may_at self.now who.now file.now need.0 }
    {
        self.grants(&Question {
            who,
            file: Some(file),
            need: need.0,
        })
    }

    /// Whether the caller has the need somewhere: only exclusions of `//...` deny it. It takes no memory, and costs what `may` does.
    pub fn may_any(&self, who: &Who, need: Level) -> bool
        ensures { result ≡ may_somewhere self.now who.now need.0 }
    {
        self.grants(&Question {
            who,
            file: None,
            need: need.0,
        })
    }

    /// The greatest need that the caller has at the path, 0 where there is none. It takes no memory.
    pub fn level(&self, who: &Who, file: &DepotPath) -> Level
        ensures { result.0 ≡ level_at self.now who.now file.now }
    {
        if self.may(who, file, Level(6)) {
            Level(6)
        } else if self.may(who, file, Level(5)) {
            Level(5)
        } else if self.may(who, file, Level(4)) {
            Level(4)
        } else if self.may(who, file, Level(3)) {
            Level(3)
        } else if self.may(who, file, Level(2)) {
            Level(2)
        } else if self.may(who, file, Level(1)) {
            Level(1)
        } else {
            Level(0)
        }
    }

    /// The greatest need that the caller has somewhere, 0 where there is none. It takes no memory.
    pub fn any_level(&self, who: &Who) -> Level
        ensures { result.0 ≡ level_somewhere self.now who.now }
    {
        if self.may_any(who, Level(6)) {
            Level(6)
        } else if self.may_any(who, Level(5)) {
            Level(5)
        } else if self.may_any(who, Level(4)) {
            Level(4)
        } else if self.may_any(who, Level(3)) {
            Level(3)
        } else if self.may_any(who, Level(2)) {
            Level(2)
        } else if self.may_any(who, Level(1)) {
            Level(1)
        } else {
            Level(0)
        }
    }
}
