//! The program: the words of the command line, the run text and its report, and the exit status.

use std::alloc::AllocError;
use std::fs::File;
use std::io::{Eprint, ErrorKind, Input, Print, Read};
use std::rt::{Env, Files};
use std::sync::Wait;
use std::{env, io};
use tb_options::{file_named, is_memory};
use tb_taskcheck::{CountedReader, CountedWriter, Halt, judge};

/// The exit status where the words of the command line are wrong.
const USAGE: u8 = 64;

/// The exit status where a file can't be opened.
const UNOPENED: u8 = 3;

/// Judges the run text of the file that the command line names, or of standard input, and gives the
/// exit status.
pub fn start<R: Env + Files + Input + Print + Eprint + AllocGlobal + Wait>(rt: &R) -> u8 {
    let args = match env::args(rt) {
        Ok(args) => args,
        Err(error) if error.kind() == ErrorKind::InvalidData => return no_text(rt),
        Err(_) => return halted(rt, Halt::Memory),
    };
    let words: Result<Vec<String>, AllocError> = args.collect(rt.alloc());
    match words {
        Ok(words) => judge_named(rt, words.as_slice()),
        Err(_) => halted(rt, Halt::Memory),
    }
}

/// Judges the run text that these words name, or writes the help, the version, or what is wrong with
/// the words.
fn judge_named<R: Files + Input + Print + Eprint + AllocGlobal + Wait>(
    rt: &R,
    words: &[String],
) -> u8 {
    match file_named(rt.alloc(), words) {
        Ok(None) => judge_from(rt, rt.reader()),
        Ok(Some(name)) => match File::open(rt, name) {
            Ok(file) => judge_from(rt, file),
            Err(error) => unopened(rt, name, error),
        },
        Err(error) if is_memory(&error) => halted(rt, Halt::Memory),
        Err(error) => {
            let is_printed = error.print(rt);
            if error.use_stderr() {
                // There is nowhere else to say it.
                return USAGE;
            }
            match is_printed {
                Ok(()) => 0,
                Err(fault) => unwritten(rt, fault.kind() == ErrorKind::BrokenPipe),
            }
        }
    }
}

/// Judges the run text that the reader gives.
fn judge_from<R: Print + Eprint + AllocGlobal + Wait, F: Read + Drop>(rt: &R, inner: F) -> u8 {
    let mut source = CountedReader { inner, failed: 0 };
    let mut sink = CountedWriter {
        inner: io::writer(rt),
        failed: 0,
        is_unread: false,
    };
    match judge(rt, rt.alloc(), &mut source, &mut sink) {
        Ok(outcome) => outcome.status(),
        Err(Halt::Write) => unwritten(rt, sink.is_unread),
        Err(halt) => halted(rt, halt),
    }
}

/// Says that a word of the command line isn't text, as `clap` says what else is wrong with the words.
fn no_text<R: Eprint>(rt: &R) -> u8 {
    // There is nowhere else to report it.
    let _ = eprintln!(rt;
        "error: invalid UTF-8 was detected in one or more arguments\n\nFor more information, try '--help'."
    );
    USAGE
}

/// Says why the file with this name can't be opened.
fn unopened<R: Eprint>(rt: &R, name: &str, error: io::Error) -> u8 {
    // There is nowhere else to report it.
    let _ = eprintln!(rt; "taskcheck: {name}: {error}");
    UNOPENED
}

/// The exit status where the output can't be written, said on standard error but where nobody reads
/// the output any more: who closed the pipe knows.
fn unwritten<R: Eprint>(rt: &R, is_unread: bool) -> u8 {
    if is_unread {
        Halt::Write.status()
    } else {
        halted(rt, Halt::Write)
    }
}

/// Says on standard error why there is no more, and gives the exit status.
fn halted<R: Eprint>(rt: &R, halt: Halt) -> u8 {
    // There is nowhere else to report it.
    let _ = eprintln!(rt; "taskcheck: {halt}");
    halt.status()
}
