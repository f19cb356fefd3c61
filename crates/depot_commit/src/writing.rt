//! What the changes of a place write to the disk of the journal: a group, or the checkpoint of the next generation.

ghost use Rattle.std.specs.Prelude.{◌≡◌, ◌≤◌, true, false, None, IfOk, IfSome};
ghost use Rattle.disk_journal.specs.Images.{Committed};
ghost use Rattle.disk_journal.specs.Stands.{Stands, disk_of, generation_of_journal, next_number, nothing};
ghost use Rattle.journal_groups.specs.Groups.{AreRecords};
ghost use Rattle.outside_api.specs.Count.{HasRisen};
ghost use Rattle.depot_rows.specs.table_changes.Changed.{AllFitIn, changed_by, rows_of};
ghost use Rattle.depot_commit.specs.Growing.{HasWritten, IsWritten};
ghost use Rattle.depot_commit.specs.Writing.{CanWrite, IsWritingOf, left_by};

use checkpoint_file::{print_generation, write_generation};
use depot_rows::changes::change_tables;
use depot_rows::paths::Text;
use depot_rows::records::Change;
use depot_rows::tables::Tables;
use disk_journal::{Journal, Prepared};
use outside_api::{Disk, DiskFault};
use std::alloc::{AllocError, Global};

/// The generation behind which there is none.
const LAST: u32 = 4095;

/// What a place writes to the disk of the journal.
#[derive(Drop)]
pub(crate) enum Writing {
    /// The next group.
    Group(Prepared),
    /// The checkpoint with which the next generation begins.
    Generation(Text),
}

/// The tables after changes: those given, where they are, and else made of the tables.
fn tables_after(
    alloc: Global,
    tables: &Tables,
    changed: Option<Tables>,
    changes: &[Change],
) -> Result<Tables, AllocError>
    requires { changed ≡ None → AllFitIn (rows_of tables.now) changes.now }
    ensures { IfSome changed (λ given. rows_of given ≡ changed_by (rows_of tables.now) changes.now) →
        IfOk result (λ after. rows_of after ≡ changed_by (rows_of tables.now) changes.now) }
{
    match changed {
        Some(given) => Ok(given),
        None => change_tables(alloc, tables, changes),
    }
}

/// What follows changes: all memory that they want.
#[derive(Drop)]
pub(crate) struct Following {
    /// The tables after them.
    pub(crate) changed: Tables,
    /// What they write.
    pub(crate) writing: Writing,
}

/// Makes what follows changes: the tables after them, which may be given, and their group, or, where they open a
/// generation, the checkpoint of the rows after them. Behind the last generation it answers as if memory were wanting.
pub(crate) fn follow<D: Disk>(
    alloc: Global,
    tables: &Tables,
    journal: &Journal<D>,
    changes: &[Change],
    opens: bool,
    changed: Option<Tables>,
) -> Result<Following, AllocError>
    requires fit { changed ≡ None → AllFitIn (rows_of tables.now) changes.now }
    ensures can { IfOk result (λ f. CanWrite journal.now f.writing) }
    ensures writes { AllFitIn (rows_of tables.now) changes.now → AreRecords changes.now →
        IfSome changed (λ given. rows_of given ≡ changed_by (rows_of tables.now) changes.now) → IfOk result (λ f.
        IsWritingOf (rows_of tables.now) (rows_of f.changed) (next_number journal.now) (generation_of_journal journal.now) opens (left_by f.writing) changes.now) }
    ensures written { AreRecords changes.now →
        IfOk result (λ f. IsWritten (next_number journal.now) opens (left_by f.writing) changes.now) }
    ensures after { IfSome changed (λ given. rows_of given ≡ changed_by (rows_of tables.now) changes.now) →
        IfOk result (λ f. rows_of f.changed ≡ changed_by (rows_of tables.now) changes.now) }
{
    let changed = tables_after(alloc, tables, changed, changes)?;
    if !opens {
        let prepared = journal.prepare(alloc, changes)?;
        let writing = Writing::Group(prepared);
        return Ok(Following { changed, writing });
    }
    let generation = journal.generation();
    if generation >= LAST {
        return Err(AllocError);
    }
    let text = print_generation(alloc, &changed, generation + 1)?;
    let writing = Writing::Generation(text);
    Ok(Following { changed, writing })
}

/// Writes, where nothing is in doubt, and puts the tables after it in the place of those before. Answers
/// whether the disk has failed; then the tables stay.
pub(crate) fn commit<D: Disk>(
    tables: &mut Tables,
    journal: &mut Journal<D>,
    changed: Tables,
    writing: Writing,
) -> bool
    requires stands { (was : Committed) × Stands D.says journal.old was nothing }
    requires can { CanWrite journal.old writing }
    ensures landed { result ≡ false → tables.new ≡ changed }
    ensures failed { result ≡ true → tables.new ≡ tables.old }
    ensures written { (was : Committed) → Stands D.says journal.old was nothing →
        HasWritten D.says was (left_by writing) result journal.old journal.new }
    ensures never_falls { D.says.faults (disk_of journal.old) ≤ D.says.faults (disk_of journal.new) }
    ensures only { result ≡ false → D.says.faults (disk_of journal.new) ≡ D.says.faults (disk_of journal.old) }
    ensures cause { result ≡ true →
        HasRisen (D.says.faults (disk_of journal.old)) (D.says.faults (disk_of journal.new)) }
{
    match writing {
        Writing::Group(prepared) => match journal.commit(prepared) {
            Ok(_) => {
                *tables = changed;
                false
            }
            Err(DiskFault) => true,
        },
        Writing::Generation(text) => match write_generation(journal, &text) {
            Ok(_) => {
                *tables = changed;
                false
            }
            Err(_) => true,
        },
    }
}
