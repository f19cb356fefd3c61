//! The commands whose arguments are files.
#![tactic(auto, using(depot_path::proofs::Answers::right, depot_path::proofs::Answers::wanting, depot_path::proofs::Answers::after, depot_path::proofs::Answers::fails))]

ghost use Rattle.depot_path.specs.Answers.{Answers};
ghost use Rattle.command_words.specs.Options.{seen};
ghost use Rattle.command_words.specs.FileForms as spec;

use crate::arguments::{Takes, wanted};
use crate::ends::Ends;
use crate::options::Invocation;
use crate::table::FileForm;
use depot_model::{Command, Labelling, Taking, WordFault};
use std::alloc::Global;

/// `where PATH...`
fn where_paths(alloc: Global, words: &Invocation) -> Result<Command, WordFault>
    ensures { Answers WordFault.Memory result (spec.where_paths (seen words.now)) }
{
    let paths = words.some_files(alloc, Takes::Path)?;
    Ok(Command::Where { paths })
}

/// `add [-c N] [-t TYPE] PATH...`
fn add(alloc: Global, words: &Invocation) -> Result<Command, WordFault>
    ensures { Answers WordFault.Memory result (spec.add (seen words.now)) }
{
    let change = words.number_option(alloc, b"-c")?;
    let file_type = words.type_option(alloc, b"-t")?;
    let paths = words.some_files(alloc, Takes::Path)?;
    Ok(Command::Add {
        change,
        file_type,
        paths,
    })
}

/// `edit [-c N] [-t TYPE] FILE...`
fn edit(alloc: Global, words: &Invocation) -> Result<Command, WordFault>
    ensures { Answers WordFault.Memory result (spec.edit (seen words.now)) }
{
    let change = words.number_option(alloc, b"-c")?;
    let file_type = words.type_option(alloc, b"-t")?;
    let files = words.some_files(alloc, Takes::NoRevision)?;
    Ok(Command::Edit {
        change,
        file_type,
        files,
    })
}

/// `delete [-c N] FILE...`
fn delete(alloc: Global, words: &Invocation) -> Result<Command, WordFault>
    ensures { Answers WordFault.Memory result (spec.delete (seen words.now)) }
{
    let change = words.number_option(alloc, b"-c")?;
    let files = words.some_files(alloc, Takes::NoRevision)?;
    Ok(Command::Delete { change, files })
}

/// `move [-c N] FROM TO`
fn move_files(alloc: Global, words: &Invocation) -> Result<Command, WordFault>
    ensures { Answers WordFault.Memory result (spec.move_files (seen words.now)) }
{
    let change = words.number_option(alloc, b"-c")?;
    let Ends { from, to } = words.both_ends(alloc, Takes::NoRevision)?;
    Ok(Command::Move { change, from, to })
}

/// `revert [-c N] FILE...`
fn revert(alloc: Global, words: &Invocation) -> Result<Command, WordFault>
    ensures { Answers WordFault.Memory result (spec.revert (seen words.now)) }
{
    let change = words.number_option(alloc, b"-c")?;
    let files = words.some_files(alloc, Takes::NoRevision)?;
    Ok(Command::Revert { change, files })
}

/// `reopen [-c N] [-t TYPE] FILE...`
fn reopen(alloc: Global, words: &Invocation) -> Result<Command, WordFault>
    ensures { Answers WordFault.Memory result (spec.reopen (seen words.now)) }
{
    let change = words.change_option(alloc, b"-c")?;
    let file_type = words.type_option(alloc, b"-t")?;
    let files = words.some_files(alloc, Takes::NoRevision)?;
    Ok(Command::Reopen {
        change,
        file_type,
        files,
    })
}

/// `lock [-c N] FILE...`
fn lock(alloc: Global, words: &Invocation) -> Result<Command, WordFault>
    ensures { Answers WordFault.Memory result (spec.lock (seen words.now)) }
{
    let change = words.number_option(alloc, b"-c")?;
    let files = words.some_files(alloc, Takes::NoRevision)?;
    Ok(Command::Lock { change, files })
}

/// `unlock [-c N] FILE...`
fn unlock(alloc: Global, words: &Invocation) -> Result<Command, WordFault>
    ensures { Answers WordFault.Memory result (spec.unlock (seen words.now)) }
{
    let change = words.number_option(alloc, b"-c")?;
    let files = words.some_files(alloc, Takes::NoRevision)?;
    Ok(Command::Unlock { change, files })
}

/// `opened [-a] [FILE...]`
fn opened(alloc: Global, words: &Invocation) -> Result<Command, WordFault>
    ensures { Answers WordFault.Memory result (spec.opened (seen words.now)) }
{
    let all = words.has(b"-a");
    let files = words.files(alloc, Takes::NoRevision)?;
    Ok(Command::Opened { all, files })
}

/// `changes [-m N] [-s STATUS] [-u USER] [-c CLIENT] [FILE...]`
fn changes(alloc: Global, words: &Invocation) -> Result<Command, WordFault>
    ensures { Answers WordFault.Memory result (spec.changes (seen words.now)) }
{
    let most = words.number_option(alloc, b"-m")?;
    let status = words.text_option(alloc, b"-s")?;
    let user = words.name_option(alloc, b"-u")?;
    let client = words.name_option(alloc, b"-c")?;
    let files = words.files(alloc, Takes::Ranges)?;
    Ok(Command::Changes {
        most,
        status,
        user,
        client,
        files,
    })
}

/// `sync [-f] [-n] [FILE...]`
fn sync(alloc: Global, words: &Invocation) -> Result<Command, WordFault>
    ensures { Answers WordFault.Memory result (spec.sync (seen words.now)) }
{
    let again = words.has(b"-f");
    let shows = words.has(b"-n");
    let files = words.files(alloc, Takes::OneRevision)?;
    Ok(Command::Sync {
        again,
        shows,
        files,
    })
}

/// `have [FILE...]`
fn have(alloc: Global, words: &Invocation) -> Result<Command, WordFault>
    ensures { Answers WordFault.Memory result (spec.have (seen words.now)) }
{
    let files = words.files(alloc, Takes::NoRevision)?;
    Ok(Command::Have { files })
}

/// `tag -l LABEL [-d] FILE...`
fn tag(alloc: Global, words: &Invocation) -> Result<Command, WordFault>
    ensures { Answers WordFault.Memory result (spec.tag (seen words.now)) }
{
    let removes = words.has(b"-d");
    let given = words.name_option(alloc, b"-l")?;
    let label = wanted(alloc, words.command, given)?;
    let files = words.some_files(alloc, Takes::OneRevision)?;
    Ok(Command::Tag {
        label,
        removes,
        files,
    })
}

/// `labelsync -l LABEL [-a or -d] [FILE...]`
fn label_sync(alloc: Global, words: &Invocation, labelling: Labelling) -> Result<Command, WordFault>
    ensures { Answers WordFault.Memory result (spec.label_sync labelling (seen words.now)) }
{
    let given = words.name_option(alloc, b"-l")?;
    let label = wanted(alloc, words.command, given)?;
    let files = words.files(alloc, Takes::OneRevision)?;
    Ok(Command::LabelSync {
        label,
        labelling,
        files,
    })
}

/// `integrate [-c N] FROM TO`
fn integrate(alloc: Global, words: &Invocation) -> Result<Command, WordFault>
    ensures { Answers WordFault.Memory result (spec.integrate (seen words.now)) }
{
    let change = words.number_option(alloc, b"-c")?;
    let Ends { from, to } = words.both_ends(alloc, Takes::Ranges)?;
    Ok(Command::Integrate { change, from, to })
}

/// `resolve -at or -ay [FILE...]`
fn resolve(alloc: Global, words: &Invocation, taking: Taking) -> Result<Command, WordFault>
    ensures { Answers WordFault.Memory result (spec.resolve taking (seen words.now)) }
{
    let files = words.files(alloc, Takes::NoRevision)?;
    Ok(Command::Resolve { taking, files })
}

/// `integrated FILE...`
fn integrated(alloc: Global, words: &Invocation) -> Result<Command, WordFault>
    ensures { Answers WordFault.Memory result (spec.integrated (seen words.now)) }
{
    let files = words.some_files(alloc, Takes::NoRevision)?;
    Ok(Command::Integrated { files })
}

/// `files [-e] FILE...`
fn files_shown(alloc: Global, words: &Invocation) -> Result<Command, WordFault>
    ensures { Answers WordFault.Memory result (spec.files_shown (seen words.now)) }
{
    let live = words.has(b"-e");
    let files = words.some_files(alloc, Takes::OneRevision)?;
    Ok(Command::Files { live, files })
}

/// `filelog FILE...`
fn file_log(alloc: Global, words: &Invocation) -> Result<Command, WordFault>
    ensures { Answers WordFault.Memory result (spec.file_log (seen words.now)) }
{
    let files = words.some_files(alloc, Takes::OneRevision)?;
    Ok(Command::FileLog { files })
}

/// `print FILE...`
fn print(alloc: Global, words: &Invocation) -> Result<Command, WordFault>
    ensures { Answers WordFault.Memory result (spec.print (seen words.now)) }
{
    let files = words.some_files(alloc, Takes::OneRevision)?;
    Ok(Command::Print { files })
}

/// `dirs PATTERN...`
fn dirs(alloc: Global, words: &Invocation) -> Result<Command, WordFault>
    ensures { Answers WordFault.Memory result (spec.dirs (seen words.now)) }
{
    let patterns = words.some_files(alloc, Takes::Directory)?;
    Ok(Command::Dirs { patterns })
}

/// `fstat FILE...`
fn file_stat(alloc: Global, words: &Invocation) -> Result<Command, WordFault>
    ensures { Answers WordFault.Memory result (spec.file_stat (seen words.now)) }
{
    let files = words.some_files(alloc, Takes::OneRevision)?;
    Ok(Command::FileStat { files })
}

/// `shelve -c N [-f] [FILE...]`
fn shelve(alloc: Global, words: &Invocation) -> Result<Command, WordFault>
    ensures { Answers WordFault.Memory result (spec.shelve (seen words.now)) }
{
    let replaces = words.has(b"-f");
    let given = words.number_option(alloc, b"-c")?;
    let change = wanted(alloc, words.command, given)?;
    let files = words.files(alloc, Takes::NoRevision)?;
    Ok(Command::Shelve {
        change,
        replaces,
        files,
    })
}

/// `shelve -d -c N [FILE...]`
fn shelve_delete(alloc: Global, words: &Invocation) -> Result<Command, WordFault>
    ensures { Answers WordFault.Memory result (spec.shelve_delete (seen words.now)) }
{
    let given = words.number_option(alloc, b"-c")?;
    let change = wanted(alloc, words.command, given)?;
    let files = words.files(alloc, Takes::NoRevision)?;
    Ok(Command::ShelveDelete { change, files })
}

/// `unshelve -s N [-c M] [FILE...]`
fn unshelve(alloc: Global, words: &Invocation) -> Result<Command, WordFault>
    ensures { Answers WordFault.Memory result (spec.unshelve (seen words.now)) }
{
    let given = words.number_option(alloc, b"-s")?;
    let shelved = wanted(alloc, words.command, given)?;
    let change = words.number_option(alloc, b"-c")?;
    let files = words.files(alloc, Takes::NoRevision)?;
    Ok(Command::Unshelve {
        shelved,
        change,
        files,
    })
}

/// The command of a form whose arguments are files.
pub fn file_command(alloc: Global, form: FileForm, words: &Invocation) -> Result<Command, WordFault>
    ensures { Answers WordFault.Memory result (spec.file_command form (seen words.now)) }
{
    match form {
        FileForm::Where => where_paths(alloc, words),
        FileForm::Add => add(alloc, words),
        FileForm::Edit => edit(alloc, words),
        FileForm::Delete => delete(alloc, words),
        FileForm::Move => move_files(alloc, words),
        FileForm::Revert => revert(alloc, words),
        FileForm::Reopen => reopen(alloc, words),
        FileForm::Lock => lock(alloc, words),
        FileForm::Unlock => unlock(alloc, words),
        FileForm::Opened => opened(alloc, words),
        FileForm::Changes => changes(alloc, words),
        FileForm::Sync => sync(alloc, words),
        FileForm::Have => have(alloc, words),
        FileForm::Tag => tag(alloc, words),
        FileForm::LabelSync(labelling) => label_sync(alloc, words, labelling),
        FileForm::Integrate => integrate(alloc, words),
        FileForm::Resolve(taking) => resolve(alloc, words, taking),
        FileForm::Integrated => integrated(alloc, words),
        FileForm::Files => files_shown(alloc, words),
        FileForm::FileLog => file_log(alloc, words),
        FileForm::Print => print(alloc, words),
        FileForm::Dirs => dirs(alloc, words),
        FileForm::FileStat => file_stat(alloc, words),
        FileForm::Shelve => shelve(alloc, words),
        FileForm::ShelveDelete => shelve_delete(alloc, words),
        FileForm::Unshelve => unshelve(alloc, words),
    }
}
