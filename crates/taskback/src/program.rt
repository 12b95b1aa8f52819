//! The program: options, standard streams and the exit status.

use std::alloc::AllocError;
use std::io::{Eprint, ErrorKind, Input, Print};
use std::rt::Env;
use std::sync::Wait;
use std::thread::Threads;
use std::{env, io};
use tb_options::{Settings, is_memory, settings};
use tb_session::{CountedReader, CountedWriter, Halt, run};

/// The exit status where the options are wrong.
const USAGE: u8 = 2;

/// Runs the session of the standard streams, and gives the exit status.
pub fn start<R: Env + Input + Print + Eprint + AllocGlobal + Threads + Wait + Sync>(rt: &R) -> u8 {
    match read_options(rt) {
        Ok(settings) => serve_standard_streams(rt, settings),
        Err(status) => status,
    }
}

/// The settings, or the exit status where there is nothing to run.
fn read_options<R: Env + Print + Eprint + AllocGlobal>(rt: &R) -> Result<Settings, u8> {
    let args = match env::args(rt) {
        Ok(args) => args,
        Err(error) if error.kind() == ErrorKind::InvalidData => return Err(no_text(rt)),
        Err(_) => return Err(told(rt, Halt::Memory)),
    };
    let words: Result<Vec<String>, AllocError> = args.collect(rt.alloc());
    let Ok(words) = words else {
        return Err(told(rt, Halt::Memory));
    };
    match settings(rt.alloc(), words.as_slice()) {
        Ok(settings) => Ok(settings),
        Err(error) if is_memory(&error) => Err(told(rt, Halt::Memory)),
        Err(error) => {
            let is_printed = error.print(rt);
            if error.use_stderr() {
                // There is nowhere else to say it.
                return Err(USAGE);
            }
            Err(match is_printed {
                Ok(()) => 0,
                Err(fault) => unwritten(rt, fault.kind() == ErrorKind::BrokenPipe),
            })
        }
    }
}

/// Says that a word of the command line isn't text, as `clap` says what else is wrong with the words.
fn no_text<R: Eprint>(rt: &R) -> u8 {
    // There is nowhere else to report it.
    let _ = eprintln!(rt;
        "error: invalid UTF-8 was detected in one or more arguments\n\nFor more information, try '--help'."
    );
    USAGE
}

fn serve_standard_streams<R: Input + Print + Eprint + AllocGlobal + Threads + Wait + Sync>(
    rt: &R,
    settings: Settings,
) -> u8 {
    let mut source = CountedReader {
        inner: rt.reader(),
        failed: 0,
    };
    let mut sink = CountedWriter {
        inner: io::writer(rt),
        failed: 0,
        is_unread: false,
    };
    match run(rt, rt.alloc(), &mut source, &mut sink, settings) {
        Ok(()) => 0,
        Err(Halt::Write) => unwritten(rt, sink.is_unread),
        Err(halt) => told(rt, halt),
    }
}

/// The exit status where the output can't be written, said on standard error but where nobody reads
/// the output any more: who closed the pipe knows.
fn unwritten<R: Eprint>(rt: &R, is_unread: bool) -> u8 {
    if is_unread {
        Halt::Write.status()
    } else {
        told(rt, Halt::Write)
    }
}

/// Says on standard error why there is no more, and gives the exit status.
fn told<R: Eprint>(rt: &R, halt: Halt) -> u8 {
    // There is nowhere else to report it.
    let _ = eprintln!(rt; "taskback: {halt}");
    halt.status()
}
