//! What the mode `load` prints.

ghost use Rattle.std.specs.Prelude.{◌≡◌, ◌++◌, OnOk, IfOk};
ghost use Rattle.load_script.specs.Lines.{line_of, lines_of};

use depot_path::Text;
use itoa::Buffer;
use std::alloc::{AllocError, Global};

/// The figures of a load.
#[derive(Clone, Copy)]
pub struct LoadFigures {
    /// The commands of its script.
    pub commands: u64,
    /// The submitted changes.
    pub changes: u64,
    /// The live files.
    pub files: u64,
    /// The sum of the revisions' sizes.
    pub bytes: u64,
}

fn put_line(out: &mut Text, word: &[u8], number: u64) -> Result<(), AllocError>
    ensures { OnOk result (out.new ≡ out.old ++ line_of word.now number) }
{
    out.append(word)?;
    out.append(b" ")?;
    out.append(Buffer::new().format(number).as_bytes())?;
    out.append(b"\n")
}

/// The four lines of a load. The one error is want of memory.
pub fn load_lines(alloc: Global, figures: LoadFigures) -> Result<Text, AllocError>
    ensures { IfOk result (λ text. text ≡ lines_of figures) }
{
    let mut out = Text::new(alloc);
    put_line(&mut out, b"commands", figures.commands)?;
    put_line(&mut out, b"changes", figures.changes)?;
    put_line(&mut out, b"files", figures.files)?;
    put_line(&mut out, b"bytes", figures.bytes)?;
    Ok(out)
}
