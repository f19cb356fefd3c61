//! The users of groups.

ghost use Rattle.std.specs.Prelude.{◌≡◌, ◌++◌, ℕ, List, filter, IfOk, OnOk};
ghost use Rattle.depot_rows.specs.db_records.declared.table.TableId.TheVariants as table_ids;
ghost use Rattle.depot_rows.specs.table_changes.Changed.{rows_of};
ghost use Rattle.row_ranges.specs.Ranges.{has_row, range_table};
ghost use Rattle.row_ranges.specs.declared.range.KeyRange.TheVariants as ranges;
ghost use Rattle.depot_rows.specs.depot_model.Deeds.{Deed};
ghost use Rattle.depot_rows.specs.depot_model.Latest.{users};
ghost use Rattle.depot_rows.specs.depot_model.Steps.Groups.{by_name};
ghost use Rattle.depot_rows.specs.Standing.{HasRows};
ghost use Rattle.row_reads.specs.Groups.{user_in, users_in};

use depot_rows::paths::{Name, Sequence, Text};
use depot_rows::records::{Record, TableId};
use depot_rows::tables::Tables;
use row_ranges::{KeyRange, rows_in};
use std::alloc::{AllocError, Global};

/// Adds the user of a row, if it is one of a group.
fn push_user(alloc: Global, users: &mut Sequence<Text>, row: &Record) -> Result<(), AllocError>
    ensures { OnOk result (users.new ≡ users.old ++ user_in row.now) }
{
    if let Record::Group(row) = row {
        users.push(Text::from_bytes(alloc, row.user.as_bytes())?)?;
    }
    Ok(())
}

/// The users in the rows of a range.
fn users_of_rows(
    alloc: Global,
    tables: &Tables,
    range: &KeyRange,
) -> Result<Sequence<Text>, AllocError>
    ensures { IfOk result (λ users. users ≡
        users_in (filter (has_row range.now) (rows_of tables.now (range_table range.now)))) }
{
    let mut users = Sequence::new(alloc);
    for row in rows_in(alloc, tables, range)? {
        push_user(alloc, &mut users, row)?;
    }
    Ok(users)
}

/// The rows of a depot list the users of a group.
fn rows_list_users(tables: &Tables)
    ensures { (d : List Deed) (group : List ℕ) → HasRows (rows_of tables.now) d table_ids.Group →
        users_in (filter (has_row (ranges.GroupUsers group)) (rows_of tables.now table_ids.Group)) ≡
        by_name (users d group) }
{
    let version = tables.version(TableId::Group);
    // the rows of a version are of its table, their keys rising
    let _table = version.table();
}

/// The users of a group, each once, in the order of bytes (Command-Line Reference, "p4 group"), from the table of
/// groups alone.
pub fn users_of(alloc: Global, tables: &Tables, group: &Name) -> Result<Sequence<Text>, AllocError>
    ensures { IfOk result (λ listed. (d : List Deed) → HasRows (rows_of tables.now) d table_ids.Group →
        listed ≡ by_name (users d group.now)) }
{
    rows_list_users(tables);
    let range = KeyRange::GroupUsers {
        group: Text::from_bytes(alloc, group.as_bytes())?,
    };
    let users = users_of_rows(alloc, tables, &range)?;
    Ok(users)
}
