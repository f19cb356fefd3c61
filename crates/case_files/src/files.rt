//! Files of cases, compared with the files of the answers that are expected.

use crate::answers::Answers;
use crate::cases::Cases;
use crate::comparison::{first_difference, line_at, line_count};
use crate::fault::CaseFault;
use crate::server::Server;
use crate::world::World;
use std::alloc::Global;
use std::io::{ErrorKind, Write};
use std::process::ExitCode;
use std::rt::{Env, Files};
use std::sync::Wait;
use std::thread::Threads;
use std::{env, fs, io};

/// Follows the lines of a file of cases up to its end or to the first line with a fault, and returns whether none has
/// one.
fn follow_lines<'a, R: Threads + Wait + Sync, S: Server>(
    rt: &R,
    server: &S,
    cases: &'a [u8],
    world: &mut World<'a>,
    answers: &mut Answers,
) -> bool {
    for line in Cases::new(cases) {
        let followed = match line.step {
            Ok(step) => world.follow(rt, server, step, answers),
            Err(fault) => Err(fault),
        };
        let fault = match followed {
            Err(fault) => Some(fault),
            Ok(()) if answers.is_whole() => None,
            Ok(()) => Some(CaseFault::Memory),
        };
        if let Some(fault) = fault {
            answers.add_fault(fault, line.number);
            return false;
        }
    }
    true
}

/// Answers the cases of a file up to its end or to the first line with a fault, and returns whether none has one.
fn answer_cases<R: Threads + Wait + Sync, S: Server>(
    rt: &R,
    server: &S,
    alloc: Global,
    cases: &[u8],
    answers: &mut Answers,
) -> bool {
    let mut world = World::new(alloc);
    let is_followed = follow_lines(rt, server, cases, &mut world, answers);
    drop(world);
    is_followed
}

/// The answers that are expected of the cases of a file. Nothing where there is no file of them.
fn expected_of<R: Files + AllocGlobal>(rt: &R, name: &str) -> io::Result<Option<Vec<u8>>> {
    let stem = name.strip_suffix(".cases").unwrap_or(name);
    let path = format!(in rt.alloc(); "{stem}.expected")?;
    match fs::read(rt, path) {
        Ok(expected) => Ok(Some(expected)),
        Err(error) if error.kind() == ErrorKind::NotFound => {
            drop(error);
            Ok(None)
        }
        Err(error) => Err(error),
    }
}

/// Prints pieces one after another.
fn print_all<R: Print>(rt: &R, pieces: &[&[u8]]) -> io::Result<()> {
    for piece in pieces {
        io::writer(rt).write_all(piece)?;
    }
    Ok(())
}

/// Prints how the answers of the cases of a file compare with those that are expected, and returns whether they are the
/// same.
fn compare<R: Print>(rt: &R, name: &str, answered: &[u8], expected: &[u8]) -> io::Result<bool> {
    match first_difference(answered, expected) {
        None => {
            println!(rt; "{name}: {} lines as expected", line_count(expected))?;
            Ok(true)
        }
        Some(number) => {
            println!(rt; "{name}: line {number} differs, expected and answered are")?;
            let (one, other) = (line_at(expected, number), line_at(answered, number));
            print_all(rt, &[one, b"\n", other, b"\n"])?;
            Ok(false)
        }
    }
}

/// Compares the answers of the cases of a file with those that are expected, or prints them where none are.
fn tell_answers<R: Files + AllocGlobal + Print>(
    rt: &R,
    name: &str,
    answered: &[u8],
    is_followed: bool,
) -> io::Result<bool> {
    match expected_of(rt, name)? {
        Some(expected) => {
            let compared = compare(rt, name, answered, &expected);
            drop(expected);
            compared
        }
        None => {
            print_all(rt, &[answered])?;
            Ok(is_followed)
        }
    }
}

/// Answers the cases of a file, and returns whether no line has a fault and nothing differs from what is expected.
fn answer_file<R: Files + AllocGlobal + Print + Threads + Wait + Sync, S: Server>(
    rt: &R,
    server: &S,
    name: &str,
) -> io::Result<bool> {
    let cases = fs::read(rt, name)?;
    let mut answers = Answers::new(rt.alloc());
    let is_followed = answer_cases(rt, server, rt.alloc(), &cases, &mut answers);
    drop(cases);
    let told = tell_answers(rt, name, answers.as_bytes(), is_followed);
    drop(answers);
    told
}

/// Answers the cases of each file that the words of the command line name.
pub fn answer_files<R: Env + Files + AllocGlobal + Print + Threads + Wait + Sync, S: Server>(
    rt: &R,
    server: &S,
) -> io::Result<ExitCode> {
    let mut end = ExitCode::SUCCESS;
    for name in env::args(rt)?.skip(1) {
        let answered = answer_file(rt, server, &name);
        drop(name);
        if !answered? {
            end = ExitCode::FAILURE;
        }
    }
    Ok(end)
}
