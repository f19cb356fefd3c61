//! The lines of a table that name one user or one group.

ghost use Rattle.std.specs.Prelude.{◌≡◌, ◌++◌, ℕ, List, [], IfOk, OnOk, if◌then◌else◌};
ghost use Rattle.std.specs.Cmp.Lexicographic.{slice_cmp};
ghost use Rattle.std.specs.Ordering.{is_eq, nat_cmp};
ghost use Rattle.protect_table.specs.Numbers.{numbers_at as kept_for, one_if, AreOf, IsAdded};

use crate::line::ProtectLine;
use crate::mode::Grantee;
use depot_path::{Name, NameFault, Sequence};
use std::alloc::{AllocError, Global};
use std::collections::BTreeMap;

/// The numbers of lines, from 0, by whom they name: most name one user or one group, and are found without the others.
#[derive(Drop)]
pub(crate) struct Numbers {
    /// Of the lines for one user alone, by the user.
    pub users: BTreeMap<Name, Sequence<usize>>,
    /// Of the lines for one group alone, by the group.
    pub groups: BTreeMap<Name, Sequence<usize>>,
    /// Of the others, as those for all users.
    pub others: Sequence<usize>,
}

/// The numbers that are kept for a name.
pub(crate) fn numbers_at<'a>(
    by_name: &'a BTreeMap<Name, Sequence<usize>>,
    name: &Name,
) -> &'a [usize]
    ensures { result.now ≡ kept_for by_name.now name.now }
{
    match by_name.get(name) {
        Some(numbers) => numbers.as_slice(),
        None => &[],
    }
}

/// Adds a number behind the others of a name.
fn add(
    by_name: &mut BTreeMap<Name, Sequence<usize>>,
    alloc: Global,
    name: Name,
    number: usize,
) -> Result<(), AllocError>
    ensures { OnOk result ((other : List ℕ) → kept_for by_name.new other ≡ kept_for by_name.old other ++ one_if (is_eq (slice_cmp nat_cmp name other)) number) }
{
    let before = by_name.remove(&name);
    let mut numbers = before.unwrap_or(Sequence::new(alloc));
    numbers.push(number)?;
    by_name.insert(name, numbers)?;
    Ok(())
}

impl Numbers {
    /// Those of no line, which takes no memory.
    pub(crate) fn new(alloc: Global) -> Self
        ensures { AreOf result [] }
    {
        Numbers {
            users: BTreeMap::new(alloc),
            groups: BTreeMap::new(alloc),
            others: Sequence::new(alloc),
        }
    }

    /// Adds a line's number. The one error is want of memory.
    fn add(&mut self, alloc: Global, number: usize, line: &ProtectLine) -> Result<(), AllocError>
        ensures { OnOk result (IsAdded self.old self.new number line.now) }
    {
        match Name::read(alloc, line.name.as_bytes()) {
            Ok(name) => match line.grantee {
                Grantee::User => add(&mut self.users, alloc, name, number),
                Grantee::Group => add(&mut self.groups, alloc, name, number),
            },
            Err(NameFault::NotAName) => self.others.push(number),
            Err(NameFault::Memory) => Err(AllocError),
        }
    }

    /// Those of the lines. The one error is want of memory.
    pub(crate) fn of_lines(alloc: Global, lines: &[ProtectLine]) -> Result<Self, AllocError>
        ensures { IfOk result (λ numbers. AreOf numbers lines.now) }
    {
        let mut numbers = Numbers::new(alloc);
        for number in 0..lines.len() {
            numbers.add(alloc, number, &lines[number])?;
        }
        Ok(numbers)
    }
}
