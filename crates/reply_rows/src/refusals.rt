//! The rows of refusals: a code, a name, and what is refused. Each function's one error is want of memory.

ghost use Rattle.std.specs.Prelude.{◌≡◌, ◌∷◌, [], IfOk, codes};
ghost use Rattle.depot_rows.specs.depot_path.Path.{printed};
ghost use Rattle.depot_rows.specs.depot_model.Refusals.{limit, limit_word as word_of_limit, need_word as word_of_need, refusal_row};
ghost use Rattle.depot_rows.specs.depot_model.Rows.{coded_row as row_of_code};
ghost use Rattle.depot_rows.specs.depot_model.declared.refusal.Refusal.TheVariants as refusals;

use crate::fields::{change_field, number_field, path_field, row_of, text_field};
use depot_rows::model::{Field, Limit, Row};
use depot_rows::paths::{DepotPath, Name, PathFault, Sequence};
use depot_rows::protections::Level;
use std::alloc::{AllocError, Global};

/// The first two fields of a refusal, and a third.
fn coded_row(alloc: Global, code: u64, name: &[u8], field: Field) -> Result<Row, AllocError>
    ensures { IfOk result (λ row. row ≡ row_of_code code name.now (field ∷ [])) }
{
    let mut fields = Sequence::new(alloc);
    fields.push(number_field(alloc, b"code", code)?)?;
    fields.push(text_field(alloc, b"name", name)?)?;
    fields.push(field)?;
    Ok(row_of(fields))
}

/// The first two fields of a refusal, and two more.
fn longer_row(
    alloc: Global,
    code: u64,
    name: &[u8],
    third: Field,
    fourth: Field,
) -> Result<Row, AllocError>
    ensures { IfOk result (λ row. row ≡ row_of_code code name.now (third ∷ fourth ∷ [])) }
{
    let mut row = coded_row(alloc, code, name, third)?;
    row.fields.push(fourth)?;
    Ok(row)
}

/// The word of a need.
fn need_word(need: Level) -> &'static [u8]
    ensures { result.now ≡ word_of_need need.0 }
{
    match need.0 {
        1 => b"list",
        2 => b"read",
        3 => b"open",
        4 => b"write",
        5 => b"admin",
        _ => b"super",
    }
}

/// The word of a limit.
fn limit_word(what: Limit) -> &'static [u8]
    ensures { result.now ≡ word_of_limit what }
{
    match what {
        Limit::View => b"view",
        Limit::Protections => b"protections",
        Limit::Users => b"users",
        Limit::Text => b"text",
        Limit::Files => b"files",
        Limit::Change => b"change",
        Limit::Generation => b"generation",
        Limit::Shelf => b"shelf",
        Limit::Jobs => b"jobs",
        Limit::Fixes => b"fixes",
    }
}

/// The greatest number that is within a limit.
fn limit_of(what: Limit) -> u64
    ensures { result ≡ limit what }
{
    match what {
        Limit::View => 200,
        Limit::Protections => 1000,
        Limit::Users => 10_000,
        Limit::Text => 65_536,
        Limit::Files => 10_000,
        Limit::Change => 2_147_483_647,
        Limit::Generation => 4095,
        Limit::Shelf => 16_777_216,
        Limit::Jobs => 999_999,
        Limit::Fixes => 100,
    }
}

/// 1: no command of that word.
pub fn unknown_command_row(alloc: Global, word: &[u8]) -> Result<Row, AllocError>
    ensures { IfOk result (λ row. row ≡ refusal_row (refusals.UnknownCommand word.now)) }
{
    let third = text_field(alloc, b"word", word)?;
    coded_row(alloc, 1, b"UnknownCommand", third)
}

/// 2: words that the command doesn't take.
pub fn usage_row(alloc: Global, command: &[u8]) -> Result<Row, AllocError>
    ensures { IfOk result (λ row. row ≡ refusal_row (refusals.BadUsage command.now)) }
{
    let third = text_field(alloc, b"command", command)?;
    coded_row(alloc, 2, b"BadUsage", third)
}

/// 3: an argument that is no path or pattern, and its fault.
pub fn bad_path_row(alloc: Global, argument: &[u8], fault: PathFault) -> Result<Row, AllocError>
    ensures { IfOk result (λ row. row ≡ refusal_row (refusals.BadPath argument.now fault)) }
{
    let third = text_field(alloc, b"argument", argument)?;
    let fourth = number_field(alloc, b"fault", u64::from(fault.code()))?;
    longer_row(alloc, 3, b"BadPath", third, fourth)
}

/// 4: an argument whose revision can't be read, and its fault.
pub fn bad_revision_row(alloc: Global, argument: &[u8], fault: PathFault) -> Result<Row, AllocError>
    ensures { IfOk result (λ row. row ≡ refusal_row (refusals.BadRevision argument.now fault)) }
{
    let third = text_field(alloc, b"argument", argument)?;
    let fourth = number_field(alloc, b"fault", u64::from(fault.code()))?;
    longer_row(alloc, 4, b"BadRevision", third, fourth)
}

/// 5: a file for which the caller lacks a right.
pub fn denied_row(alloc: Global, path: &DepotPath, need: Level) -> Result<Row, AllocError>
    ensures { IfOk result (λ row. row ≡ refusal_row (refusals.Denied (printed path.now) need.0)) }
{
    let third = path_field(alloc, b"path", path)?;
    let fourth = text_field(alloc, b"needed", need_word(need))?;
    longer_row(alloc, 5, b"Denied", third, fourth)
}

/// 5: a right that the caller has nowhere.
pub fn denied_anywhere_row(alloc: Global, need: Level) -> Result<Row, AllocError>
    ensures { IfOk result (λ row. row ≡ refusal_row (refusals.Denied (codes "//...") need.0)) }
{
    let third = text_field(alloc, b"path", b"//...")?;
    let fourth = text_field(alloc, b"needed", need_word(need))?;
    longer_row(alloc, 5, b"Denied", third, fourth)
}

/// 6: the caller's client isn't saved.
pub fn no_client_row(alloc: Global, client: &Name) -> Result<Row, AllocError>
    ensures { IfOk result (λ row. row ≡ refusal_row (refusals.NoClient client.now)) }
{
    let third = text_field(alloc, b"client", client.as_bytes())?;
    coded_row(alloc, 6, b"NoClient", third)
}

/// 7: a path or an argument that the client's view doesn't show.
pub fn not_in_view_row(alloc: Global, path: &[u8]) -> Result<Row, AllocError>
    ensures { IfOk result (λ row. row ≡ refusal_row (refusals.NotInView path.now)) }
{
    let third = text_field(alloc, b"path", path)?;
    coded_row(alloc, 7, b"NotInView", third)
}

/// 8: an argument that names no file.
pub fn no_such_file_row(alloc: Global, argument: &[u8]) -> Result<Row, AllocError>
    ensures { IfOk result (λ row. row ≡ refusal_row (refusals.NoSuchFile argument.now)) }
{
    let third = text_field(alloc, b"argument", argument)?;
    coded_row(alloc, 8, b"NoSuchFile", third)
}

/// 9: no such change.
pub fn no_such_change_row(alloc: Global, change: u32) -> Result<Row, AllocError>
    ensures { IfOk result (λ row. row ≡ refusal_row (refusals.NoSuchChange change)) }
{
    let third = number_field(alloc, b"change", u64::from(change))?;
    coded_row(alloc, 9, b"NoSuchChange", third)
}

/// 10: the change of another user or client.
pub fn not_yours_row(alloc: Global, change: u32) -> Result<Row, AllocError>
    ensures { IfOk result (λ row. row ≡ refusal_row (refusals.NotYours change)) }
{
    let third = number_field(alloc, b"change", u64::from(change))?;
    coded_row(alloc, 10, b"NotYours", third)
}

/// 11: a file that this client has opened.
pub fn already_open_row(alloc: Global, path: &DepotPath) -> Result<Row, AllocError>
    ensures { IfOk result (λ row. row ≡ refusal_row (refusals.AlreadyOpen path.now)) }
{
    let third = path_field(alloc, b"path", path)?;
    coded_row(alloc, 11, b"AlreadyOpen", third)
}

/// 12: an argument that names no opened file.
pub fn not_open_row(alloc: Global, argument: &[u8]) -> Result<Row, AllocError>
    ensures { IfOk result (λ row. row ≡ refusal_row (refusals.NotOpen argument.now)) }
{
    let third = text_field(alloc, b"path", argument)?;
    coded_row(alloc, 12, b"NotOpen", third)
}

/// 13: a file that another client has opened, one of them alone.
pub fn exclusive_open_row(alloc: Global, path: &DepotPath, client: &Name) -> Result<Row, AllocError>
    ensures { IfOk result (λ row. row ≡ refusal_row (refusals.ExclusiveOpen path.now client.now)) }
{
    let third = path_field(alloc, b"path", path)?;
    let fourth = text_field(alloc, b"client", client.as_bytes())?;
    longer_row(alloc, 13, b"ExclusiveOpen", third, fourth)
}

/// 14: a file that another client has locked.
pub fn locked_row(alloc: Global, path: &DepotPath, client: &Name) -> Result<Row, AllocError>
    ensures { IfOk result (λ row. row ≡ refusal_row (refusals.Locked path.now client.now)) }
{
    let third = path_field(alloc, b"path", path)?;
    let fourth = text_field(alloc, b"client", client.as_bytes())?;
    longer_row(alloc, 14, b"Locked", third, fourth)
}

/// 15: a file opened from a revision that is no longer the head: its base and its head.
pub fn stale_row(alloc: Global, path: &DepotPath, base: u32, head: u32) -> Result<Row, AllocError>
    ensures { IfOk result (λ row. row ≡ refusal_row (refusals.Stale path.now base head)) }
{
    let third = path_field(alloc, b"path", path)?;
    let fourth = number_field(alloc, b"base", u64::from(base))?;
    let mut row = longer_row(alloc, 15, b"Stale", third, fourth)?;
    row.fields
        .push(number_field(alloc, b"head", u64::from(head))?)?;
    Ok(row)
}

/// 16: a file with a resolve that is owed.
pub fn must_resolve_row(alloc: Global, path: &DepotPath) -> Result<Row, AllocError>
    ensures { IfOk result (λ row. row ≡ refusal_row (refusals.MustResolve path.now)) }
{
    let third = path_field(alloc, b"path", path)?;
    coded_row(alloc, 16, b"MustResolve", third)
}

/// 17: a file for which there is no content.
pub fn no_content_row(alloc: Global, path: &DepotPath) -> Result<Row, AllocError>
    ensures { IfOk result (λ row. row ≡ refusal_row (refusals.NoContent path.now)) }
{
    let third = path_field(alloc, b"path", path)?;
    coded_row(alloc, 17, b"NoContent", third)
}

/// 18: a change without files, 0 for the default one.
pub fn empty_change_row(alloc: Global, change: u32) -> Result<Row, AllocError>
    ensures { IfOk result (λ row. row ≡ refusal_row (refusals.EmptyChange change)) }
{
    let third = change_field(alloc, b"change", change)?;
    coded_row(alloc, 18, b"EmptyChange", third)
}

/// 19: a form that isn't as it should be, with the line of the fault, 0 for the whole form.
pub fn bad_form_row(alloc: Global, line: usize) -> Result<Row, AllocError>
    ensures { IfOk result (λ row. row ≡ refusal_row (refusals.BadForm line)) }
{
    let third = number_field(alloc, b"line", line as u64)?;
    coded_row(alloc, 19, b"BadForm", third)
}

/// 20: a name that is no label's.
pub fn no_such_label_row(alloc: Global, label: &Name) -> Result<Row, AllocError>
    ensures { IfOk result (λ row. row ≡ refusal_row (refusals.NoSuchLabel label.now)) }
{
    let third = text_field(alloc, b"label", label.as_bytes())?;
    coded_row(alloc, 20, b"NoSuchLabel", third)
}

/// 21: a locked label.
pub fn label_locked_row(alloc: Global, label: &Name) -> Result<Row, AllocError>
    ensures { IfOk result (λ row. row ≡ refusal_row (refusals.LabelLocked label.now)) }
{
    let third = text_field(alloc, b"label", label.as_bytes())?;
    coded_row(alloc, 21, b"LabelLocked", third)
}

/// 22: a change that can't be deleted.
pub fn not_deletable_row(alloc: Global, change: u32) -> Result<Row, AllocError>
    ensures { IfOk result (λ row. row ≡ refusal_row (refusals.NotDeletable change)) }
{
    let third = number_field(alloc, b"change", u64::from(change))?;
    coded_row(alloc, 22, b"NotDeletable", third)
}

/// 23: a command that a replica doesn't take.
pub fn read_only_row(alloc: Global, command: &[u8]) -> Result<Row, AllocError>
    ensures { IfOk result (λ row. row ≡ refusal_row (refusals.ReadOnly command.now)) }
{
    let third = text_field(alloc, b"command", command)?;
    coded_row(alloc, 23, b"ReadOnly", third)
}

/// 24: more than a limit.
pub fn limit_row(alloc: Global, what: Limit) -> Result<Row, AllocError>
    ensures { IfOk result (λ row. row ≡ refusal_row (refusals.OverLimit what)) }
{
    let third = text_field(alloc, b"what", limit_word(what))?;
    let fourth = number_field(alloc, b"number", limit_of(what))?;
    longer_row(alloc, 24, b"Limit", third, fourth)
}

/// 26: a file for which nothing is left to integrate.
pub fn all_integrated_row(alloc: Global, path: &DepotPath) -> Result<Row, AllocError>
    ensures { IfOk result (λ row. row ≡ refusal_row (refusals.AllIntegrated path.now)) }
{
    let third = path_field(alloc, b"path", path)?;
    coded_row(alloc, 26, b"AllIntegrated", third)
}

/// 27: a file that is there.
pub fn exists_row(alloc: Global, path: &DepotPath) -> Result<Row, AllocError>
    ensures { IfOk result (λ row. row ≡ refusal_row (refusals.Exists path.now)) }
{
    let third = path_field(alloc, b"path", path)?;
    coded_row(alloc, 27, b"Exists", third)
}

/// 28: a file that can't be moved.
pub fn not_movable_row(alloc: Global, path: &DepotPath) -> Result<Row, AllocError>
    ensures { IfOk result (λ row. row ≡ refusal_row (refusals.NotMovable path.now)) }
{
    let third = path_field(alloc, b"path", path)?;
    coded_row(alloc, 28, b"NotMovable", third)
}

/// 29: a file whose other end of a move isn't named with it.
pub fn in_move_row(alloc: Global, path: &DepotPath, other: &DepotPath) -> Result<Row, AllocError>
    ensures { IfOk result (λ row. row ≡ refusal_row (refusals.InMove path.now other.now)) }
{
    let third = path_field(alloc, b"path", path)?;
    let fourth = path_field(alloc, b"other", other)?;
    longer_row(alloc, 29, b"InMove", third, fourth)
}

/// 32: a change with shelved files.
pub fn shelved_row(alloc: Global, change: u32) -> Result<Row, AllocError>
    ensures { IfOk result (λ row. row ≡ refusal_row (refusals.Shelved change)) }
{
    let third = number_field(alloc, b"change", u64::from(change))?;
    coded_row(alloc, 32, b"Shelved", third)
}

/// 33: a file that is shelved in the change.
pub fn already_shelved_row(alloc: Global, path: &DepotPath) -> Result<Row, AllocError>
    ensures { IfOk result (λ row. row ≡ refusal_row (refusals.AlreadyShelved path.now)) }
{
    let third = path_field(alloc, b"path", path)?;
    coded_row(alloc, 33, b"AlreadyShelved", third)
}

/// 34: a file that can't be shelved.
pub fn not_shelvable_row(alloc: Global, path: &DepotPath) -> Result<Row, AllocError>
    ensures { IfOk result (λ row. row ≡ refusal_row (refusals.NotShelvable path.now)) }
{
    let third = path_field(alloc, b"path", path)?;
    coded_row(alloc, 34, b"NotShelvable", third)
}

/// 35: a change without shelved files.
pub fn no_shelf_row(alloc: Global, change: u32) -> Result<Row, AllocError>
    ensures { IfOk result (λ row. row ≡ refusal_row (refusals.NoShelf change)) }
{
    let third = number_field(alloc, b"change", u64::from(change))?;
    coded_row(alloc, 35, b"NoShelf", third)
}

/// 36: no such job.
pub fn no_such_job_row(alloc: Global, job: &[u8]) -> Result<Row, AllocError>
    ensures { IfOk result (λ row. row ≡ refusal_row (refusals.NoSuchJob job.now)) }
{
    let third = text_field(alloc, b"job", job)?;
    coded_row(alloc, 36, b"NoSuchJob", third)
}

/// 37: a change that fixes jobs.
pub fn fixed_row(alloc: Global, change: u32) -> Result<Row, AllocError>
    ensures { IfOk result (λ row. row ≡ refusal_row (refusals.Fixed change)) }
{
    let third = number_field(alloc, b"change", u64::from(change))?;
    coded_row(alloc, 37, b"Fixed", third)
}
