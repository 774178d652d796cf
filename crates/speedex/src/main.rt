//! The program: standard input and output, the words after the program's name, and the exit code.
//!
//! It holds no rule of the exchange. See `sx_run` for what is read, written and answered.
#![tactic(auto)]

ghost use Rattle.std.specs.Prelude.{◌≡◌, ◌<◌};

use std::alloc::Global;
use std::env;
use std::io::{ErrorKind, Write};
use std::marker::Brand;
use std::process::ExitCode;
use std::rt::Env;
use std::sync::ledger::{Blank, Ledger};
use std::thread::Threads;
use sx_base::{Sink, Source, StdSink, StdSource};
use sx_net::Steps;
use sx_run::{Status, run, status_line};
use sx_workers::NoGate;

// The words after the program's name. A word that is no text is no word of a command.
fn words_of<R: Env + AllocGlobal>(rt: &R) -> Result<Vec<String>, Status> {
    let args = match env::args(rt) {
        Ok(args) => args,
        Err(error) if error.kind() == ErrorKind::OutOfMemory => return Err(Status::NoMemory),
        Err(_) => return Err(Status::Usage),
    };
    let mut words = Vec::new(rt.alloc());
    for word in args.skip(1) {
        if words.push(word).is_err() {
            return Err(Status::NoMemory);
        }
    }
    Ok(words)
}

// Runs the command of these words with a new counter of searches and no gate.
fn run_counted<R: Threads + Sync, S: Source, K: Sink, L: Ledger>(
    rt: &R,
    alloc: Global,
    words: &[String],
    source: &mut S,
    sink: &mut K,
    blank: Blank,
) -> Status
    requires name { blank.name ≡ L.name }
    requires parts { blank.parts ≡ L.parts }
    requires some { 0 < blank.parts }
{
    let mut steps = Steps::<L>::new(blank);
    run(rt, alloc, words, source, sink, &NoGate, &mut steps)
}

fn main(rt: HostRuntime) -> ExitCode {
    let alloc = rt.alloc();
    let status = match words_of(&rt) {
        Ok(words) => {
            let mut source = StdSource::new(rt.stdin());
            let mut sink = StdSink::new(rt.stdout());
            run_counted::<_, _, _, Brand>(&rt, alloc, &words, &mut source, &mut sink, Blank::new(1))
        }
        Err(status) => status,
    };
    if let Ok(line) = status_line(alloc, &status) {
        let _ = rt.stderr().write_all(line.bytes());
    }
    ExitCode::from(status.code())
}
