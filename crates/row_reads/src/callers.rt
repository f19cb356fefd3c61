//! Callers with the groups that list them.

ghost use Rattle.std.specs.Prelude.{◌≡◌, ℕ, ◌++◌, List, IfOk, OnOk};
ghost use Rattle.depot_rows.specs.db_records.declared.table.TableId.TheVariants as table_ids;
ghost use Rattle.depot_rows.specs.table_changes.Changed.{rows_of};
ghost use Rattle.depot_rows.specs.depot_model.Asking.{groups_of as groups_given, who_of as who_in};
ghost use Rattle.depot_rows.specs.depot_model.Deeds.{Deed};
ghost use Rattle.depot_rows.specs.depot_model.Rules.{IsSound};
ghost use Rattle.depot_rows.specs.Standing.{HasRows};
ghost use Rattle.row_reads.specs.Groups.{group_in, groups_in};

use depot_rows::model::Caller;
use depot_rows::paths::{Name, NameFault, Sequence, Text};
use depot_rows::protections::Who;
use depot_rows::records::{Record, TableId};
use depot_rows::tables::Tables;
use std::alloc::{AllocError, Global};

/// Adds the group of a row of groups. One whose name is none is passed over.
fn push_group(alloc: Global, groups: &mut Sequence<Name>, row: &Record) -> Result<(), AllocError>
    ensures { OnOk result (groups.new ≡ groups.old ++ group_in row.now) }
{
    let Record::Group(row) = row else {
        return Ok(());
    };
    match Name::read(alloc, row.group.as_bytes()) {
        Ok(group) => {
            groups.push(group)?;
            Ok(())
        }
        Err(NameFault::NotAName) => Ok(()),
        Err(NameFault::Memory) => Err(AllocError),
    }
}

/// The groups that list a user, by name, at the cost of these groups.
fn groups_of(alloc: Global, tables: &Tables, user: &Name) -> Result<Sequence<Name>, AllocError>
    ensures { IfOk result (λ groups. groups ≡ groups_in user.now (rows_of tables.now table_ids.Group)) }
{
    let user = Text::from_bytes(alloc, user.as_bytes())?;
    let version = tables.version(TableId::Group);
    let mut groups = Sequence::new(alloc);
    for row in version.of_user(&user) {
        push_group(alloc, &mut groups, row)?;
    }
    Ok(groups)
}

/// The rows of a sound depot list the groups of each user.
fn rows_list_groups(tables: &Tables)
    ensures { (d : List Deed) (user : List ℕ) → IsSound d → HasRows (rows_of tables.now) d table_ids.Group →
        groups_in user (rows_of tables.now table_ids.Group) ≡ groups_given d user }
{
    let version = tables.version(TableId::Group);
    // the rows of a version are of its table, their keys rising
    let _table = version.table();
}

/// The caller with the groups that list the user (Command-Line Reference, "p4 group"), from the rows of this user in
/// the table of groups alone.
pub fn who_of(alloc: Global, tables: &Tables, caller: &Caller) -> Result<Who, AllocError>
    ensures rows { IfOk result (λ who. who ≡
        record { user = caller.now.user; groups = groups_in caller.now.user (rows_of tables.now table_ids.Group); host = caller.now.host }) }
    ensures depot { IfOk result (λ who. (d : List Deed) → IsSound d → HasRows (rows_of tables.now) d table_ids.Group →
        who ≡ who_in d caller.now) }
{
    rows_list_groups(tables);
    Ok(Who {
        user: caller.user.clone()?,
        groups: groups_of(alloc, tables, &caller.user)?,
        host: caller.host.clone()?,
    })
}
