//! What came of ways in which workers or hands run a program.
ghost use Rattle.std.specs.Prelude.{◌≤◌};
ghost use Rattle.tau_value.specs.declared.limits.TheConstants.{STEP_LIMIT};
ghost use Rattle.tau_tree.specs.Sound.{Sound};

use crate::deeds::add_deeds;
use crate::locked::add_locked;
use crate::on_seats::add_run;
use crate::turns::add_turns;
use std::alloc::{AllocError, Global};
use std::sync::Wait;
use std::thread::Threads;
use tau_text::read_program;
use tau_tree::Program;
use tau_value::STEP_LIMIT;
use tau_workers::Settings;

/// Adds what came of the line above a program.
pub fn add_way<R: Threads + Wait + Sync>(
    rt: &R,
    alloc: Global,
    text: &mut String,
    line: &str,
    spelled: &str,
) -> Result<(), AllocError> {
    match read_program(alloc, spelled.as_bytes()) {
        Ok(program) => {
            let added = add_line(rt, alloc, text, line, &program);
            drop(program);
            added
        }
        Err(error) => writeln!(text, "{error}"),
    }
}

/// Adds what came of a line: of its deeds, or of each number of its way.
fn add_line<R: Threads + Wait + Sync>(
    rt: &R,
    alloc: Global,
    text: &mut String,
    line: &str,
    program: &Program,
) -> Result<(), AllocError>
    requires { Sound program.now }
{
    let (way, words) = line.split_once(" ").unwrap_or((line, ""));
    if way == "deeds" {
        return add_deeds(rt, alloc, text, program, words);
    }
    for word in words.split_whitespace() {
        match word.parse() {
            Ok(number) if number > 0 => add_number(rt, alloc, text, way, program, number)?,
            _ => text.push_str("no number\n")?,
        }
    }
    Ok(())
}

/// Adds what came of a number of a way. The number isn't 0.
fn add_number<R: Threads + Wait + Sync>(
    rt: &R,
    alloc: Global,
    text: &mut String,
    way: &str,
    program: &Program,
    number: u32,
) -> Result<(), AllocError>
    requires sound { Sound program.now }
    requires some { 1 ≤ number }
{
    let settings = Settings {
        workers: number,
        jobs: 1,
        seed: 0,
        limit: STEP_LIMIT,
    };
    match way {
        "seats" => add_run(rt, alloc, text, program, settings, false),
        "checked" => add_run(rt, alloc, text, program, settings, true),
        "lock" => add_locked(rt, alloc, text, program, settings, false),
        "both" => {
            add_run(rt, alloc, text, program, settings, true)?;
            add_locked(rt, alloc, text, program, settings, false)
        }
        "short" => add_locked(rt, alloc, text, program, settings, true),
        "turns" => add_turns(rt, alloc, text, program, number),
        _ => text.push_str("no way\n"),
    }
}
