//! `intcalc <type> <call> <operand> ..` makes one call of `num_integer` or `ratio64`, and prints the
//! answer on a line.
//!
//! The status is 0 for an answer, 1 for a refusal, 2 for words that ask for no call, 3 if there was no
//! memory, and 4 if the line could not be written.
#![tactic(auto)]

ghost use Rattle.std.specs.Prelude.{◌≡◌, ◌≢◌, ◌<◌, ◌≤◌, ◌↔◌, codes, false, IsTrue, IfOk, OnErr};
ghost use Rattle.std.specs.Io.KnownBytes.{Appends};
ghost use Rattle.std.specs.Process.{exit_status};
ghost use Rattle.intcalc.specs.Arguments.{words_of, words_read};
ghost use Rattle.intcalc_core.specs.Line.{PrintsLine};

use intcalc_core::run::{put_line, run};
use intcalc_core::sink::{Console, Sink};
use std::alloc::{AllocError, Global};
use std::env::Args;
use std::io::ErrorKind;
use std::process::ExitCode;
use std::{env, io};

/// Passes the words to `run`, without the name of the program.
fn run_args<S: Sink>(alloc: Global, args: Args, out: &mut S) -> Result<u8, AllocError>
    ensures failed { IfOk result (λ status. (status ≡ 4) ↔ IsTrue (S.has_failed out.new)) }
    ensures untouched { OnErr result (out.new ≡ out.old) }
    ensures line { IfOk result (λ status. status ≢ 4
        → PrintsLine (words_of args) (S.contents out.old) (S.contents out.new) status) }
    ensures finished { IfOk result (λ status. status ≢ 4 → IsTrue (S.is_finished out.new)) }
{
    let texts: Vec<String> = args.skip(1).collect(alloc)?;
    let words: Vec<&str> = texts.iter().map(String::as_str).collect(alloc)?;
    Ok(run(&words, out))
}

/// Puts the line `no memory`, and returns its status.
fn put_no_memory<S: Sink>(out: &mut S) -> u8
    ensures status { result ≡ 3 }
    ensures line { S.has_failed out.new ≡ false
        → Appends (S.contents out.old) (S.contents out.new) (codes "no memory\n") }
    ensures finished { S.has_failed out.new ≡ false → IsTrue (S.is_finished out.new) }
{
    put_line(out, b"no memory\n");
    3
}

/// Puts the line for the arguments, and returns the exit code of the program: the status of the line,
/// 3 if there was no memory, and 4 if the sink has failed.
fn run_program<S: Sink>(alloc: Global, args: io::Result<Args>, out: &mut S) -> ExitCode
    ensures line { exit_status result < 3
        → PrintsLine (words_read args) (S.contents out.old) (S.contents out.new) (exit_status result) }
    ensures no_memory { exit_status result ≡ 3 → S.has_failed out.new ≡ false
        → Appends (S.contents out.old) (S.contents out.new) (codes "no memory\n") }
    ensures finished { S.has_failed out.new ≡ false → IsTrue (S.is_finished out.new) }
    ensures failed { IsTrue (S.has_failed out.new) → 3 ≤ exit_status result }
    ensures four { exit_status result ≡ 4 → IsTrue (S.has_failed out.new) }
    ensures bound { exit_status result ≤ 4 }
{
    let status = match args {
        Ok(args) => match run_args(alloc, args, out) {
            Ok(status) => status,
            Err(AllocError) => put_no_memory(out),
        },
        Err(e) if e.kind() == ErrorKind::OutOfMemory => put_no_memory(out),
        Err(_) => run(&[], out),
    };
    ExitCode::from(status)
}

fn main(rt: HostRuntime) -> ExitCode {
    run_program(rt.alloc(), env::args(&rt), &mut Console::new(rt.stdout()))
}
