//! The script of a seed and a number of steps.

ghost use Rattle.std.specs.Prelude.{◌≡◌, ◌<◌, ◌++◌, [], OnOk, IfOk};
ghost use Rattle.load_script.specs.Script.{block_line_of, block_of, commands_of, content_of, digit_of, files_after, opening_word as opening_word_of, script_of, step_of, steps_behind};

use depot_path::Text;
use seeded_numbers::Draw;
use std::alloc::{AllocError, Global};

/// The last digit of a number.
fn digit(number: u32) -> u8
    ensures { result ≡ digit_of number }
{
    b'0' + (number % 10) as u8
}

fn put_content(out: &mut Text, number: u32) -> Result<(), AllocError>
    ensures { OnOk result (out.new ≡ out.old ++ content_of number) }
{
    out.append(&[
        digit(number / 10_000_000),
        digit(number / 1_000_000),
        digit(number / 100_000),
        digit(number / 10_000),
        digit(number / 1_000),
        digit(number / 100),
        digit(number / 10),
        digit(number),
    ])
}

fn put_block_line(out: &mut Text, file: u32) -> Result<(), AllocError>
    ensures { OnOk result (out.new ≡ out.old ++ block_line_of file) }
{
    out.append(b"file //load/")?;
    out.append(&[digit(file)])?;
    out.append(b" 8\n")
}

fn put_block(out: &mut Text, file: u32, number: u32) -> Result<(), AllocError>
    ensures { OnOk result (out.new ≡ out.old ++ block_of file number) }
{
    put_block_line(out, file)?;
    put_content(out, number)?;
    out.append(b"\n")
}

/// The command that opens a file.
fn opening_word(known: bool) -> &'static [u8]
    ensures { result.now ≡ opening_word_of known }
{
    if known { b"edit" } else { b"add" }
}

fn put_commands(out: &mut Text, file: u32, known: bool) -> Result<(), AllocError>
    ensures { OnOk result (out.new ≡ out.old ++ commands_of file known) }
{
    out.append(b"p4 ")?;
    out.append(opening_word(known))?;
    out.append(b" //load/")?;
    out.append(&[digit(file)])?;
    out.append(b"\np4 submit -d load\n")
}

fn put_step(out: &mut Text, file: u32, known: bool, number: u32) -> Result<(), AllocError>
    ensures { OnOk result (out.new ≡ out.old ++ step_of file known number) }
{
    put_block(out, file, number)?;
    put_commands(out, file, known)
}

/// A step for each number from 1 to the count.
fn put_steps(out: &mut Text, seed: u32, count: u32) -> Result<(), AllocError>
    ensures { OnOk result (out.new ≡ out.old ++ steps_behind [] (files_after seed count)) }
{
    let mut draw = Draw::new(seed);
    let mut known = [false; 10];
    for done in 0..count {
        let file = draw.next() % 10;
        let at = file as usize;
        put_step(out, file, known[at], done + 1)?;
        known[at] = true;
    }
    Ok(())
}

/// The script that the mode `load` runs: its session saves a client, and brings in one of ten files at each step, as
/// the seed draws them. The one error is want of memory.
pub fn load_script(alloc: Global, seed: u32, count: u32) -> Result<Text, AllocError>
    ensures { IfOk result (λ text. text ≡ script_of seed count) }
{
    let mut out = Text::from_bytes(
        alloc,
        b"session load load load\ninput 45\nClient:\tload\n\nView:\n\t//depot/... //load/...\n\n\np4 client -i\n",
    )?;
    put_steps(&mut out, seed, count)?;
    Ok(out)
}
