//! The lines that tell an end.

ghost use Rattle.std.specs.Prelude.{◌≡◌, ◌++◌, codes};
ghost use Rattle.std.specs.List.{flat_map};
ghost use Rattle.outside_api.specs.Count.{HasCause};
ghost use Rattle.wire_text.specs.Giving.{GivesAll};
ghost use Rattle.end_lines.specs.Lines.{cause_line, damage_line, damage_words, disk_word as word_of_disk, generation_line};

use crate::cause::Cause;
use itoa::Buffer;
use outside_api::Sink;
use recovery::DepotDisk;
use wire_text::{GiveFault, give_all};

/// Gives pieces one after another. It takes no memory.
pub fn give_pieces<K: Sink>(out: &mut K, pieces: &[&[u8]]) -> Result<(), GiveFault>
    ensures given { GivesAll (K.says.given out.old) (K.says.given out.new)
        (flat_map (λ piece. piece.now) pieces.now) result }
    ensures cause { HasCause (K.says.faults out.old) (K.says.faults out.new) result }
{
    for piece in pieces {
        match give_all(out, piece) {
            Ok(()) => {}
            Err(fault) => return Err(fault),
        }
    }
    Ok(())
}

/// The word by which a line names a disk.
fn disk_word(disk: DepotDisk) -> &'static [u8]
    ensures { result.now ≡ word_of_disk disk }
{
    match disk {
        DepotDisk::Journal => b"journal",
        DepotDisk::Archive => b"archive",
    }
}

/// Gives the line of a damage in these words.
fn give_words<K: Sink>(out: &mut K, disk: &[u8], file: &[u8], place: &[u8]) -> Result<(), GiveFault>
    ensures given { GivesAll (K.says.given out.old) (K.says.given out.new)
        (damage_words disk.now file.now place.now) result }
    ensures cause { HasCause (K.says.faults out.old) (K.says.faults out.new) result }
{
    give_pieces(out, &[b"damaged ", disk, b" ", file, b" ", place, b"\n"])
}

/// Gives the line of a damage.
fn give_damage<K: Sink>(
    out: &mut K,
    disk: DepotDisk,
    file: u32,
    place: u64,
) -> Result<(), GiveFault>
    ensures given { GivesAll (K.says.given out.old) (K.says.given out.new) (damage_line disk file place) result }
    ensures cause { HasCause (K.says.faults out.old) (K.says.faults out.new) result }
{
    let mut file_digits = Buffer::new();
    let mut place_digits = Buffer::new();
    give_words(
        out,
        disk_word(disk),
        file_digits.format(file).as_bytes(),
        place_digits.format(place).as_bytes(),
    )
}

/// Gives the line of a generation in these digits.
fn give_digits<K: Sink>(out: &mut K, digits: &[u8]) -> Result<(), GiveFault>
    ensures given { GivesAll (K.says.given out.old) (K.says.given out.new)
        (codes "journal " ++ (digits.now ++ codes "\n")) result }
    ensures cause { HasCause (K.says.faults out.old) (K.says.faults out.new) result }
{
    give_pieces(out, &[b"journal ", digits, b"\n"])
}

/// Gives the line of the generation that a checkpoint began, or of the limit where it began none. It takes no memory.
pub fn give_generation<K: Sink>(out: &mut K, begun: Option<u32>) -> Result<(), GiveFault>
    ensures given { GivesAll (K.says.given out.old) (K.says.given out.new) (generation_line begun) result }
    ensures cause { HasCause (K.says.faults out.old) (K.says.faults out.new) result }
{
    match begun {
        Some(generation) => {
            let mut digits = Buffer::new();
            give_digits(out, digits.format(generation).as_bytes())
        }
        None => give_all(out, b"limit generation 4095\n"),
    }
}

/// Gives the line of a cause. It takes no memory.
pub fn give_cause<K: Sink>(out: &mut K, cause: Cause) -> Result<(), GiveFault>
    ensures given { GivesAll (K.says.given out.old) (K.says.given out.new) (cause_line cause) result }
    ensures cause { HasCause (K.says.faults out.old) (K.says.faults out.new) result }
{
    match cause {
        Cause::Usage => give_all(out, b"usage\n"),
        Cause::Made => give_all(out, b"made\n"),
        Cause::Unmade => give_all(out, b"unmade\n"),
        Cause::Damaged { disk, file, place } => give_damage(out, disk, file, place),
        Cause::Fault => give_all(out, b"fault\n"),
        Cause::Done | Cause::Script | Cause::Memory => give_all(out, b""),
    }
}
