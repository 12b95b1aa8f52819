//! Reads the options, by `clap`.

ghost use Rattle.std.specs.Prelude.{◌≡◌, ◌≤◌, ◌↔◌, IfOk, IsTrue};
ghost use Rattle.clap.specs.Values.{kind_of};
ghost use Rattle.clap.specs.declared.error.kind.ErrorKind.TheVariants.{OutOfMemory};

use crate::limits::{DEFAULT_LIMIT, DEFAULT_WORKERS, MOST_ENTRIES, MOST_WORKERS, Settings};
use clap::error::ErrorKind;
use clap::{Arg, ArgAction, Command, Error};
use std::alloc::Global;
use std::convert::AsStr;

/// What is below the options in the help.
const EXAMPLES: &str = "\
A session comes on standard input: a program, a line `---`, and commands.
Each reply is written before the next command is read.

Examples:
  taskback < examples/race.session          a stored session
  taskback --limit 50 < examples/race.session
                                            with room for 50 entries
  taskback                                  typed: the program, `---`, commands

A session, and its replies:
  cells 1
  body main 0
    store 0 7
  end
  ---
  step 0                                    0#1 start
  run 9                                     0#2 store 0 7 / 0#3 end / ran 2 done
  undo 0#3                                  undone 0#3
  cells                                     cells 1 / 0 7

Commands:
  step T, run N, go W N                     take steps: of task T, of the least
                                            that can, and by W workers, up to a
                                            breakpoint
  undo T#K                                  take a step back that nothing needs
  roll T#K, rolltask T, rollcell C, rollprint
                                            take a step back with all that need it
  cells, out, hist, tasks, task T, ready, waits, deps T, breaks
                                            show what stands
  why T#K, causes T#K, who T#K, edges, races
                                            show what needs what, and what races
  break task T, break cell C, break body B, break print, break fault, clear K
                                            stop `go` after such a step

docs/NOTATION.md has the programs, docs/COMMANDS.md the commands.";

/// The settings that these words ask for. The first word is the program's name. `--help` and
/// `--version` are answered as an error whose text goes to standard output.
pub fn settings<'a, S: AsStr>(alloc: Global, words: &'a [S]) -> Result<Settings, Error>
    ensures workers { IfOk result (λ s. (1 ≤ s.workers) × (s.workers ≤ 64)) }
    ensures limit { IfOk result (λ s. (1 ≤ s.limit) × (s.limit ≤ 1000000)) }
{
    let workers = Arg::new(alloc, "workers")
        .long("workers")
        .value_name("W")
        .help("The most workers that `go` may be given, 1 to 64")
        .action(ArgAction::Set)
        .value_parser(clap::value_parser!(u32).range(1..=64))
        .default_value("4");
    let limit = Arg::new(alloc, "limit")
        .long("limit")
        .value_name("L")
        .help("The most entries of the journal, 1 to 1000000")
        .action(ArgAction::Set)
        .value_parser(clap::value_parser!(u32).range(1..=1_000_000))
        .default_value("100000");
    let command = Command::new(alloc, "taskback")
        .version("0.1.0")
        .about("Runs a task program step by step, and takes back any step with all that need it")
        .after_help(EXAMPLES)
        .arg(workers)?
        .arg(limit)?;
    let matches = command.try_get_matches_from(words)?;
    let workers = matches.get_one::<u32>("workers").unwrap_or(DEFAULT_WORKERS);
    let limit = matches.get_one::<u32>("limit").unwrap_or(DEFAULT_LIMIT);
    // The parsers have refused all others already.
    Ok(Settings {
        workers: workers.clamp(1, MOST_WORKERS),
        limit: limit.clamp(1, MOST_ENTRIES),
    })
}

/// Whether the words weren't read because memory ran out.
pub fn is_memory(error: &Error) -> bool
    ensures { IsTrue result ↔ (kind_of error.now ≡ OutOfMemory) }
{
    error.kind() == ErrorKind::OutOfMemory
}
