//! Reading blocks.

ghost use Rattle.std.specs.Prelude.{◌≡◌, ◌≤◌, ◌<◌, ◌+◌, ◌++◌, take, drop, length, OnOk, IfOk};
ghost use Rattle.wire_text.specs.Intake.{BlockCase, BytesCase};

use crate::intake::{Intake, Stop};
use depot_model::paths::Text;
use outside_api::Source;
use std::alloc::{AllocError, Global};

/// What comes where bytes are wanted.
#[derive(Drop)]
enum BytesRead {
    /// So many bytes.
    Bytes(Vec<u8>),
    /// No further byte, before there were so many.
    Stopped(Stop),
}

/// What comes where a block is wanted.
#[derive(Drop)]
pub(crate) enum BlockRead {
    /// The block, behind which a line feed was passed.
    Block(Text),
    /// A block, and behind it another byte than a line feed.
    Bad,
    /// No further byte, before the line feed behind the block.
    Stopped(Stop),
}

/// Moves bytes that are held to the end of others, at most so many.
fn move_bytes(intake: &mut Intake, bytes: &mut Vec<u8>, most: usize) -> Result<(), AllocError>
    ensures bytes { OnOk result (bytes.new.items ≡ bytes.old.items ++ take most intake.old.held) }
    ensures held { OnOk result (intake.new.held ≡ drop most intake.old.held) }
    ensures place { OnOk result (intake.new.place ≡ intake.old.place + length (take most intake.old.held)) }
    ensures most { OnOk result (intake.new.place + length intake.new.held ≤ 67108864) }
{
    let held = intake.held();
    let count = most.min(held.len());
    bytes.extend_from_slice(&held[..count])?;
    intake.pass(count);
    Ok(())
}

/// Reads so many bytes, each of which is copied once.
fn read_bytes<S: Source>(
    alloc: Global,
    source: &mut S,
    intake: &mut Intake,
    count: usize,
) -> Result<BytesRead, AllocError>
    requires { intake.old.place + length intake.old.held ≤ 67108864 }
    ensures bytes { IfOk result (BytesCase (S.says.left source.old) (S.says.left source.new) (S.says.faults source.old) (S.says.faults source.new) intake.old intake.new count) }
    ensures counts { S.says.faults source.old ≤ S.says.faults source.new }
{
    let mut bytes = Vec::with_capacity(alloc, count)?;
    loop {
        let missing = count - bytes.len();
        move_bytes(intake, &mut bytes, missing)?;
        if bytes.len() == count {
            return Ok(BytesRead::Bytes(bytes));
        }
        if let Some(stop) = intake.refill(source) {
            return Ok(BytesRead::Stopped(stop));
        }
    }
}

/// Reads a block of so many bytes and the line feed behind it.
pub(crate) fn read_block<S: Source>(
    alloc: Global,
    source: &mut S,
    intake: &mut Intake,
    size: u32,
) -> Result<BlockRead, AllocError>
    requires { intake.old.place + length intake.old.held ≤ 67108864 }
    ensures block { IfOk result (BlockCase (S.says.left source.old) (S.says.left source.new) (S.says.faults source.old) (S.says.faults source.new) intake.old intake.new size) }
    ensures counts { S.says.faults source.old ≤ S.says.faults source.new }
{
    match read_bytes(alloc, source, intake, size as usize + 1)? {
        BytesRead::Bytes(mut bytes) => match bytes.pop() {
            Some(b'\n') => Ok(BlockRead::Block(Text::from_vec(bytes))),
            _ => Ok(BlockRead::Bad),
        },
        BytesRead::Stopped(stop) => Ok(BlockRead::Stopped(stop)),
    }
}
