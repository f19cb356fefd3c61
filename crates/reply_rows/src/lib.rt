//! What commands answer, and what they do: the rows of replies, and the step of a command.
//!
//! A command makes a [`Step`]: the deeds that it would do, the rows of its reply, the contents that it stores, and
//! where the contents come from that its rows lack. Each refusal has the function of its row.
#![tactic(auto)]

mod builder;
mod content;
mod does;
mod fields;
mod filling;
mod forms;
mod refusals;
mod step;

pub use builder::RowBuilder;
pub use content::RowContent;
pub use fields::{change_field, number_field, path_field, row_of, text_field};
pub use filling::filled;
pub use forms::{form_fields, push_numbered, push_values};
pub use refusals::{
    all_integrated_row, already_open_row, already_shelved_row, bad_form_row, bad_path_row,
    bad_revision_row, denied_anywhere_row, denied_row, empty_change_row, exclusive_open_row,
    exists_row, fixed_row, in_move_row, label_locked_row, limit_row, locked_row, must_resolve_row,
    no_client_row, no_content_row, no_shelf_row, no_such_change_row, no_such_file_row,
    no_such_job_row, no_such_label_row, not_deletable_row, not_in_view_row, not_movable_row,
    not_open_row, not_shelvable_row, not_yours_row, read_only_row, shelved_row, stale_row,
    unknown_command_row, usage_row,
};
pub use step::Step;
