//! Reads the words of the program that judges recorded runs, by `clap`.

ghost use Rattle.std.specs.Prelude.{◌≡◌, IfErr, IfOk, map, option_map, true};
ghost use Rattle.clap.specs.Words.{kind_of, takes};
ghost use Rattle.clap.specs.declared.error.kind.ErrorKind.TheVariants.{OutOfMemory};
ghost use Rattle.tb_options.specs.Commands.{file_of, run_command};

use clap::{Arg, ArgAction, Command, Error};
use std::alloc::Global;
use std::convert::AsStr;

/// What is below the options in the help.
const EXAMPLES: &str = "\
A run text is what a run's tasks did, one event a line. Its report says whether
OpenMP allows this order, which tasks haven't ended, and which steps race.

Examples:
  taskcheck sum.run                         a file
  openmp/merge part.* | taskcheck           standard input

A run, and its report:
  cells 1                                   legal 10
  0 start                                   unended 0
  0 spawn 0.1 write                         races 1
  0 spawn 0.2 read                          0.1#2 0.2#2 cell 0
  0.1 start
  0.1 store 0 7     # sum.c:12
  0.2 start
  0.2 load r0 0 7   # sum.c:15
  0.2 end
  0.1 end
  0 end

Exit status:
  0   the run is legal and over, and only steps race that `apart` is written at
  1   it is refused: OpenMP doesn't allow this order
  2   two steps race
  3   it isn't over, or the text has a fault, or reading or writing failed
  64  the words of the command line are wrong

docs/RUNS.md has the text and its judgement.";

/// The name of the file with the run text, where these words name one. The first word is the
/// program's name. `--help` and `--version` are answered as an error whose text goes to standard
/// output.
pub fn file_named<'a, S: AsStr>(alloc: Global, words: &'a [S]) -> Result<Option<&'a str>, Error>
    ensures file { IfOk result (λ file.
        option_map (λ name. name.now) file ≡ file_of (map S.text words.entry.now)) }
    ensures refused { IfErr result (λ error. takes run_command (map S.text words.entry.now) ≡ true
        → kind_of error ≡ OutOfMemory) }
{
    let file = Arg::new(alloc, "FILE")
        .help("The run text; standard input where no file is named")
        .action(ArgAction::Set);
    let command = Command::new(alloc, "taskcheck")
        .version("0.1.0")
        .about("Judges a recorded run of tasks: is it legal, is it over, which steps race")
        .after_help(EXAMPLES)
        .arg(file)?;
    let matches = command.try_get_matches_from(words)?;
    Ok(matches.get_str("FILE"))
}
