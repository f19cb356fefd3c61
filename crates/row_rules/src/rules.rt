//! The rules of the rows of all tables.

ghost use Rattle.std.specs.Prelude.{◌≡◌, ◌≤◌, ◌&&◌, ◌↔◌, IfOk, IsTrue, codes};
ghost use Rattle.depot_rows.specs.db_records.declared.key.Key.TheVariants as keys;
ghost use Rattle.std.specs.List.{list_all};
ghost use Rattle.depot_rows.specs.db_records.Table.{all_tables};
ghost use Rattle.depot_rows.specs.db_records.declared.table.TableId.{TableId as Id};
ghost use Rattle.depot_rows.specs.table_store.Rows.{AllOfTable, IsRising};
ghost use Rattle.depot_rows.specs.table_store.Tables.{version_of};
ghost use Rattle.depot_rows.specs.depot_model.Rules.{KeepRules, top_in, value_of as value_in};
ghost use Rattle.row_rules.specs.Kept.{KeepRowRules};
ghost use Rattle.row_rules.specs.Stored.{stored};
ghost use Rattle.row_rules.specs.Tests.{keeps as keeps_test};

use crate::fixes::have_few_fixes;
use crate::keeping::all_keep;
use crate::locks::locks_are_apart;
use crate::lookups::value_of;
use depot_rows::records::TableId;
use depot_rows::tables::Tables;
use std::alloc::{AllocError, Global};

/// The rows of a table are of it, and their keys rise.
fn is_in_order(tables: &Tables, table: TableId)
    ensures of_table { AllOfTable table (version_of tables.now table).rows }
    ensures rising { IsRising (version_of tables.now table).rows }
{
    let version = tables.version(table);
    // the rows of a version are of its table, their keys rising
    let _table = version.table();
}

/// The rows of each table are of it, and their keys rise.
fn are_in_order(tables: &Tables)
    ensures of_table { (table : Id) → AllOfTable table (version_of tables.now table).rows }
    ensures rising { (table : Id) → IsRising (version_of tables.now table).rows }
{
    is_in_order(tables, TableId::Counter);
    is_in_order(tables, TableId::Group);
    is_in_order(tables, TableId::Protect);
    is_in_order(tables, TableId::Domain);
    is_in_order(tables, TableId::Have);
    is_in_order(tables, TableId::Label);
    is_in_order(tables, TableId::Integed);
    is_in_order(tables, TableId::Resolve);
    is_in_order(tables, TableId::Working);
    is_in_order(tables, TableId::Change);
    is_in_order(tables, TableId::Rev);
}

/// Whether all rows of a table keep their rules, and others do.
fn keep_too(
    alloc: Global,
    tables: &Tables,
    top: u32,
    table: TableId,
    others: bool,
) -> Result<bool, AllocError>
    requires small { top ≤ 2147483647 }
    requires top { top ≡ top_in (stored tables.now) }
    ensures { IfOk result (λ keep. keep ≡
        (list_all (keeps_test (stored tables.now)) (version_of tables.now table).rows && others)) }
{
    let keep = all_keep(alloc, tables, top, table)?;
    Ok(keep && others)
}

/// Whether the rows of all tables keep their rules, where `top` is the greatest number ever used.
fn tables_keep(alloc: Global, tables: &Tables, top: u32) -> Result<bool, AllocError>
    requires small { top ≤ 2147483647 }
    requires top { top ≡ top_in (stored tables.now) }
    ensures { IfOk result (λ keep. keep ≡
        list_all (λ table. list_all (keeps_test (stored tables.now)) (version_of tables.now table).rows) all_tables) }
{
    let rev = keep_too(alloc, tables, top, TableId::Rev, true)?;
    let change = keep_too(alloc, tables, top, TableId::Change, rev)?;
    let working = keep_too(alloc, tables, top, TableId::Working, change)?;
    let resolve = keep_too(alloc, tables, top, TableId::Resolve, working)?;
    let integed = keep_too(alloc, tables, top, TableId::Integed, resolve)?;
    let label = keep_too(alloc, tables, top, TableId::Label, integed)?;
    let have = keep_too(alloc, tables, top, TableId::Have, label)?;
    let domain = keep_too(alloc, tables, top, TableId::Domain, have)?;
    let protect = keep_too(alloc, tables, top, TableId::Protect, domain)?;
    let group = keep_too(alloc, tables, top, TableId::Group, protect)?;
    let counter = keep_too(alloc, tables, top, TableId::Counter, group)?;
    Ok(counter)
}

/// Whether both hold.
fn both(first: bool, second: bool) -> bool
    ensures { result ≡ (first && second) }
{
    first && second
}

/// The generation that the rows tell: the value of the counter `journal`, 0 where there is none.
pub fn generation_of(alloc: Global, tables: &Tables) -> Result<u64, AllocError>
    ensures { IfOk result (λ generation. generation ≡ value_in (stored tables.now (keys.Counter (codes "journal")))) }
{
    value_of(alloc, tables, b"journal")
}

/// Whether the rows of the tables keep the rules, but for how many fixes a change has.
fn rows_keep_rules(alloc: Global, tables: &Tables) -> Result<bool, AllocError>
    ensures { IfOk result (λ keep. IsTrue keep ↔ KeepRowRules (stored tables.now)) }
{
    let top = value_of(alloc, tables, b"change")?;
    if top > 2_147_483_647 {
        return Ok(false);
    }
    let generation = generation_of(alloc, tables)?;
    if generation > 4095 {
        return Ok(false);
    }
    are_in_order(tables);
    let keep = tables_keep(alloc, tables, top as u32)?;
    let apart = locks_are_apart(alloc, tables)?;
    Ok(both(keep, apart))
}

/// Whether the rows of the tables keep the rules. The one error is want of memory.
pub fn keep_rules(alloc: Global, tables: &Tables) -> Result<bool, AllocError>
    ensures { IfOk result (λ keep. IsTrue keep ↔ KeepRules (stored tables.now)) }
{
    are_in_order(tables);
    let rows = rows_keep_rules(alloc, tables)?;
    let few = have_few_fixes(alloc, tables)?;
    Ok(both(rows, few))
}
