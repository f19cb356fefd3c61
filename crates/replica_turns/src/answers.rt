//! The answers to a replica's commands.

ghost use Rattle.std.specs.Prelude.{◌≡◌, ◌∷◌, [], true, false, IfOk};
ghost use Rattle.depot_rows.specs.depot_model.Printed.{printed};
ghost use Rattle.depot_rows.specs.depot_model.Refusals.{refusal_row};
ghost use Rattle.depot_rows.specs.depot_model.Rows.{disk_row};
ghost use Rattle.depot_rows.specs.depot_model.declared.refusal.Refusal.TheVariants.{BadArchive};

use crate::party::Answered;
use depot_rows::model::{Reply, Row};
use depot_rows::paths::{Sequence, Text};
use reply_rows::RowBuilder;
use std::alloc::{AllocError, Global};
use wire_text::print_reply;

/// An answer that tells of no disk.
pub(crate) fn tells(text: Text) -> Answered
    ensures { result ≡ record { text = text; lost = false } }
{
    Answered { text, lost: false }
}

/// An answer that tells that a disk failed.
pub(crate) fn loses(text: Text) -> Answered
    ensures { result ≡ record { text = text; lost = true } }
{
    Answered { text, lost: true }
}

/// The reply of one row to the command of that number.
fn reply_of(alloc: Global, row: Row, number: u32) -> Result<Text, AllocError>
    ensures { IfOk result (λ text. text ≡ printed (row ∷ []) number) }
{
    let mut rows = Sequence::new(alloc);
    rows.push(row)?;
    let reply = Reply { rows };
    let text = print_reply(alloc, &reply, number)?;
    Ok(text)
}

/// The reply to the command of that number for which a disk failed.
pub(crate) fn fault_reply(alloc: Global, number: u32) -> Result<Text, AllocError>
    ensures { IfOk result (λ text. text ≡ printed (disk_row ∷ []) number) }
{
    let row = RowBuilder::new(alloc)
        .number(b"code", 30)?
        .text(b"name", b"Disk")?
        .row();
    reply_of(alloc, row, number)
}

/// The answer to the `print` of that number for which the archive has not the content at this place.
pub(crate) fn tells_bad(alloc: Global, at: u64, number: u32) -> Result<Answered, AllocError>
    ensures { IfOk result (λ answered. answered ≡
        record { text = printed (refusal_row (BadArchive at) ∷ []) number; lost = false }) }
{
    let row = RowBuilder::new(alloc)
        .number(b"code", 38)?
        .text(b"name", b"BadArchive")?
        .number(b"at", at)?
        .row();
    let text = reply_of(alloc, row, number)?;
    Ok(tells(text))
}
