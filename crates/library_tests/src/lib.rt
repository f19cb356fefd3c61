//! Tests of what neither a contract nor a run of the whole server tells: real files, folders and the clock, and a link
//! in memory that no program has.
//!
//! What a run of the whole server can show stands in the cases of the program `acceptance`, and what a definition gives
//! for values from outside is computed in proofs, here that of dates.
#![tactic(auto)]

/// A replica that follows a depot while its parties ask it (`shared_depot`).
#[cfg(test)]
mod at_work;
/// Callers of libraries that programs use too (`depot_path`, `view_map`, `protect_table`, `spec_form`, `record_text`,
/// `archive_file`).
#[cfg(test)]
mod callers;
/// Calls that no program makes, with ample memory (`replica_pull`, `journal_groups`, `table_store`, `wire_text`,
/// `command_needs`).
#[cfg(test)]
mod calls;
/// A node that follows a journal and copies contents, both in memory (`replica_chain`).
#[cfg(test)]
mod chains;
/// Disks in folders, step by step, as the tests ask them.
#[cfg(test)]
mod disks;
/// Disks that keep numbered files in folders (`real_world`).
#[cfg(test)]
mod folders;
/// Disks over a folder that another has (`real_world`).
#[cfg(test)]
mod holders;
/// Words of an order (`order_words`).
#[cfg(test)]
mod lanes;
/// A link that loses what it brings (`memory_world`).
#[cfg(test)]
mod losses;
/// Files and folders of the machine, as the tests make, read and remove them.
#[cfg(test)]
mod machine;
/// A replica's `print`, over an archive in memory (`replica_answers`).
#[cfg(test)]
mod prints;
/// Files of the machine, one of which refuses each sync.
#[cfg(test)]
mod refusing;
/// Files that are read and written in turn, the doors to them, and the clock (`real_world`).
#[cfg(test)]
mod streams;
/// To which files a sync of a disk comes (`real_world`).
#[cfg(test)]
mod syncs;
