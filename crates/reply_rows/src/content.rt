//! Where the contents of rows come from.

use depot_rows::paths::Text;
use depot_rows::records::Spot;

/// Where the content of a row comes from.
#[derive(Drop)]
pub enum RowContent {
    /// It stands at this spot of the archive.
    At(Spot),
    /// It is this text.
    Given(Text),
}
