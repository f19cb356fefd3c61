//! The outcome of a request.

use depot_rows::model::Reply;
use depot_rows::paths::{Sequence, Text};
use depot_rows::records::Change;
use reply_rows::RowContent;

/// What a request is answered, and what it changes.
#[derive(Drop)]
pub struct Outcome {
    /// What it is answered. A row that lacks its content has an empty one.
    pub reply: Reply,
    /// What it changes: each row that differs, once, in the order of the keys.
    pub changes: Sequence<Change>,
    /// The contents that it stores, which are put into the archive one after another from the archive's end.
    pub stores: Sequence<Text>,
    /// Where the contents come from that the rows lack, in the order of the rows.
    pub reads: Sequence<RowContent>,
}
