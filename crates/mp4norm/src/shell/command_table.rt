//! The commands, and the words that each takes.

use clap::{Arg, ArgAction, Command, value_parser};
use std::alloc::{AllocError, Global};

/// The program's version, and the number of the normal form.
const VERSION: &str = "0.3.0, normal form 1";

/// What follows the help of the whole program.
const AFTER_HELP: &str = "\
A FILE that is named - is standard input, read whole into memory. @LIST stands for the files that \
LIST names, read one after the other as one file. Without arguments mp4norm lists the boxes of \
standard input.

Columns of samples: number decode_time composition_time duration flags description size

Status:
  0   all is done
  1   refused: the file has a fault; its kind, box and offset are named
  2   failed: memory
  3   failed: store, failed: store changed, failed: write
  4   failed: no such track
  5   compare: the files differ; sum --check: a sum does, or a name is new
  64  the arguments are invalid

Examples:
  mp4norm compare source.mp4 packaged.mp4 --without packaging-2
  mp4norm check *.mp4
  mp4norm sum *.mp4 > sums
  mp4norm normalise movie.mp4 --out normal.mp4
  mp4norm print movie.mp4 > movie.txt
  mp4norm show movie.mp4
  mp4norm samples movie.mp4 --track 1
  mp4norm extract movie.mp4 --track 1 --out video.bin
  mp4norm boxes movie.mp4 --fields
  mp4norm strip movie.mp4 --foreign --out stripped.mp4";

// The help of options.
const EXPLAIN: &str = "\
Explain a refusal by its box path, clause and meaning, and a failure by its file and cause";

const BRIEF: &str = "Print only one line for a refusal or a failure, on a terminal too";

const REPLACE: &str = "\
Replace NEW once the whole answer is written, to a new file beside it: NEW.mp4norm-part-..";

const WITHOUT: &str = "\
Ignore sets or categories of content, separated by commas. Sets: packaging-2 for what packagers \
change, media-2 for that and names for people; packaging-1 and media-1 ignore the audio/video \
offset too. Categories: times, edits, flags, groups, metadata, bitrates, ends, origins, labels, \
timing, roles, ids, timescales, lead-ins";

const TRACK: &str = "Take only the track with this ID, as if the file had no other";

const TRACKS: &str = "\
Compare a track of A with one of B, by their IDs, each as if its file had no other: 1:2";

const PROGRESS: &str = "Show progress on standard error, in percent and MB/s";

const HEADER: &str = "Begin with a line of the names of the columns";

const JSON: &str = "Print JSON objects, one on each line";

const FOREIGN: &str = "Change all boxes that aren't in the profile where they are";

const LOSSY: &str = "\
With --foreign: write NEW even if a box is lost that players need or that describes samples";

const READ_FOREIGN: &str = "\
Read boxes that aren't in the profile as free space, as in the copy that strip --foreign makes";

const READ_LOSSY: &str = "\
With --foreign: answer even if a box is lost that players need or that describes samples";

const ZERO: &str = "End each line with a zero byte instead of a line feed, and don't escape names";

const NO_HEADER: &str = "Print no first line, which says what the sums are of";

const QUIET: &str = "With --check: print nothing for files that have their sum";

const FIELDS: &str = "\
Show the fields of each box after its line, by their names in ISO/IEC 14496-12";

const SUMMARY: &str = "\
With --check: print at the end, on standard error, how many files have their sum";

const BYTES: &str = "\
After all other lines, print one that says so and the SHA-256 of the bytes of each refused file";

const NEW: &str = "\
With --check: open no file, and print the names among FILEs that LIST doesn't have";

const ALL: &str = "Print all differences, not only the first, and how many there are";

const ALIGN: &str = "\
The same, and first where the samples of two tracks begin to differ and agree again; samples are \
listed only of tracks that have the same number of them in both files";

// An option without a value.
fn flag<'a>(alloc: Global, name: &'a str, help: &'a str) -> Arg<'a> {
    Arg::new(alloc, name)
        .long(name)
        .help(help)
        .action(ArgAction::SetTrue)
}

fn file_arg<'a>(alloc: Global) -> Arg<'a> {
    Arg::new(alloc, "file")
        .value_name("FILE")
        .help("The MP4 file, - for standard input, or @LIST for a list of files")
        .required(true)
        .action(ArgAction::Set)
}

fn track_arg<'a>(alloc: Global) -> Arg<'a> {
    Arg::new(alloc, "track")
        .long("track")
        .value_name("ID")
        .help("The track's ID, from 1")
        .required(true)
        .action(ArgAction::Set)
        .value_parser(value_parser!(u32).range(1..))
}

// A track that is looked at alone.
fn alone_arg<'a>(alloc: Global) -> Arg<'a> {
    Arg::new(alloc, "track")
        .long("track")
        .value_name("ID")
        .help(TRACK)
        .action(ArgAction::Set)
}

// A track of each of two files.
fn tracks_arg<'a>(alloc: Global) -> Arg<'a> {
    Arg::new(alloc, "tracks")
        .long("track")
        .value_name("A:B")
        .help(TRACKS)
        .action(ArgAction::Set)
}

fn out_arg<'a>(alloc: Global) -> Arg<'a> {
    Arg::new(alloc, "out")
        .long("out")
        .short('o')
        .value_name("NEW")
        .help(
            "The file to write, or - for standard output; it must not exist, except with --replace",
        )
        .required(true)
        .action(ArgAction::Set)
}

fn most_arg<'a>(alloc: Global) -> Arg<'a> {
    Arg::new(alloc, "max-bytes")
        .long("max-bytes")
        .value_name("N")
        .help("Write nothing if the answer has more than N bytes")
        .action(ArgAction::Set)
        .value_parser(value_parser!(u64))
}

// How many files a list may name.
fn parts_arg<'a>(alloc: Global) -> Arg<'a> {
    Arg::new(alloc, "max-parts")
        .long("max-parts")
        .value_name("N")
        .help("Read lists of at most N files; 100000 if it isn't given")
        .action(ArgAction::Set)
        .value_parser(value_parser!(u64))
}

// What every command takes that reads a file.
fn with_reading<'a>(command: Command<'a>, alloc: Global) -> Result<Command<'a>, AllocError> {
    command
        .arg(parts_arg(alloc))?
        .arg(flag(alloc, "explain", EXPLAIN))?
        .arg(flag(alloc, "brief", BRIEF))
}

// What commands take that can read boxes as free space.
fn with_foreign<'a>(command: Command<'a>, alloc: Global) -> Result<Command<'a>, AllocError> {
    command
        .arg(flag(alloc, "foreign", READ_FOREIGN))?
        .arg(flag(alloc, "lossy", READ_LOSSY))
}

// A command that writes a file.
fn with_out<'a>(command: Command<'a>, alloc: Global) -> Result<Command<'a>, AllocError> {
    command
        .arg(out_arg(alloc))?
        .arg(flag(alloc, "replace", REPLACE))?
        .arg(most_arg(alloc))?
        .arg(flag(alloc, "progress", PROGRESS))
}

// A command that reads a file.
fn of_file<'a>(
    alloc: Global,
    name: &'a str,
    about: &'a str,
    example: &'a str,
) -> Result<Command<'a>, AllocError> {
    Command::new(alloc, name)
        .about(about)
        .after_help(example)
        .arg(file_arg(alloc))
}

fn boxes_command<'a>(alloc: Global) -> Result<Command<'a>, AllocError> {
    let command = of_file(
        alloc,
        "boxes",
        "Lists the boxes of a file, indented by container: type, offset, size",
        "Example: mp4norm boxes movie.mp4 --fields",
    )?;
    let command = command
        .arg(flag(alloc, "json", JSON))?
        .arg(flag(alloc, "fields", FIELDS))?
        .arg(rows_arg(alloc))?;
    with_reading(command, alloc)
}

// How many rows of a box are shown.
fn rows_arg<'a>(alloc: Global) -> Arg<'a> {
    Arg::new(alloc, "rows")
        .long("rows")
        .value_name("N")
        .help("With --fields: show at most N entries of a table; 16 if it isn't given")
        .action(ArgAction::Set)
        .value_parser(value_parser!(u64))
}

fn show_command<'a>(alloc: Global) -> Result<Command<'a>, AllocError> {
    let command = of_file(
        alloc,
        "show",
        "Prints the movie and its tracks as one line of JSON",
        "Example: mp4norm show movie.mp4",
    )?;
    with_reading(command, alloc)
}

fn samples_command<'a>(alloc: Global) -> Result<Command<'a>, AllocError> {
    let command = of_file(
        alloc,
        "samples",
        "Lists the samples of a track: number, decode time, composition time, duration, flags, \
         description, size",
        "Example: mp4norm samples movie.mp4 --track 1",
    )?;
    let command = command
        .arg(track_arg(alloc))?
        .arg(flag(alloc, "header", HEADER))?
        .arg(flag(alloc, "json", JSON))?;
    with_reading(command, alloc)
}

fn extract_command<'a>(alloc: Global) -> Result<Command<'a>, AllocError> {
    let command = of_file(
        alloc,
        "extract",
        "Writes the bytes of a track's samples, one after the other",
        "Example: mp4norm extract movie.mp4 --track 1 --out video.bin",
    )?;
    with_reading(with_out(command.arg(track_arg(alloc))?, alloc)?, alloc)
}

fn normalise_command<'a>(alloc: Global) -> Result<Command<'a>, AllocError> {
    let command = of_file(
        alloc,
        "normalise",
        "Writes the normal form of a file",
        "Example: mp4norm normalise movie.mp4 --out normal.mp4",
    )?;
    let command = command
        .alias("normalize")?
        .arg(without_arg(alloc))?
        .arg(alone_arg(alloc))?;
    with_reading(with_out(with_foreign(command, alloc)?, alloc)?, alloc)
}

fn print_command<'a>(alloc: Global) -> Result<Command<'a>, AllocError> {
    let command = of_file(
        alloc,
        "print",
        "Prints a file's content as text for version control: a line for each value and sample",
        "Example: mp4norm print movie.mp4 --without times > movie.txt",
    )?;
    let command = command.arg(without_arg(alloc))?.arg(alone_arg(alloc))?;
    let command = with_foreign(command, alloc)?
        .arg(out_arg(alloc).required(false))?
        .arg(flag(alloc, "replace", REPLACE))?;
    with_reading(command, alloc)
}

fn without_arg<'a>(alloc: Global) -> Arg<'a> {
    Arg::new(alloc, "without")
        .long("without")
        .value_name("WORDS")
        .help(WITHOUT)
        .action(ArgAction::Append)
}

fn drop_arg<'a>(alloc: Global) -> Arg<'a> {
    Arg::new(alloc, "drop")
        .long("drop")
        .value_name("TYPES")
        .help(
            "Change boxes of these types, separated by commas; moov/uuid means those in a moov \
             only, uuid:be7acfcb-97a9-42e8-9c71-999491e3afac the uuid boxes with this UUID",
        )
        .action(ArgAction::Set)
}

fn strip_command<'a>(alloc: Global) -> Result<Command<'a>, AllocError> {
    let command = of_file(
        alloc,
        "strip",
        "Copies a file, and changes some of its boxes to free space",
        "Example: mp4norm strip movie.mp4 --drop uuid,minf/hdlr --out stripped.mp4",
    )?;
    let command = command
        .arg(flag(alloc, "foreign", FOREIGN))?
        .arg(flag(alloc, "lossy", LOSSY))?
        .arg(drop_arg(alloc))?;
    with_reading(with_out(command, alloc)?, alloc)
}

fn files_arg<'a>(alloc: Global) -> Result<Arg<'a>, AllocError> {
    Arg::new(alloc, "file")
        .value_name("FILE")
        .help("The MP4 files to check; - for standard input, @LIST for a list of files")
        .num_args(1..)
        .action(ArgAction::Append)
        .required_unless_present("names-from")
}

fn list_arg<'a>(alloc: Global) -> Arg<'a> {
    Arg::new(alloc, "names-from")
        .long("names-from")
        .value_name("LIST")
        .help("A file of more names, each ended by a zero byte, or - for standard input")
        .action(ArgAction::Set)
}

fn check_command<'a>(alloc: Global) -> Result<Command<'a>, AllocError> {
    let command = Command::new(alloc, "check")
        .about("Prints for each file whether it is accepted, or why it is refused")
        .after_help("Example: mp4norm check *.mp4")
        .arg(files_arg(alloc)?)?
        .arg(list_arg(alloc))?
        .arg(flag(alloc, "zero", ZERO))?
        .arg(flag(alloc, "json", JSON))?;
    with_reading(with_foreign(command, alloc)?, alloc)
}

fn sum_command<'a>(alloc: Global) -> Result<Command<'a>, AllocError> {
    let files = files_arg(alloc)?.help(
        "The MP4 files to sum; - for standard input, @LIST for a list of files",
    );
    let command = Command::new(alloc, "sum")
        .about("Prints the SHA-256 of each normal form, as sha256sum does, or checks such a list")
        .after_help("Example: mp4norm sum *.mp4 --without times > sums; mp4norm sum --check sums")
        .arg(files.required_unless_present("check")?)?
        .arg(without_arg(alloc))?
        .arg(checked_arg(alloc))?
        .arg(flag(alloc, "quiet", QUIET))?
        .arg(flag(alloc, "summary", SUMMARY))?
        .arg(flag(alloc, "new", NEW))?;
    sum_flags(command, alloc)
}

fn sum_flags<'a>(command: Command<'a>, alloc: Global) -> Result<Command<'a>, AllocError> {
    let command = with_foreign(command, alloc)?
        .arg(alone_arg(alloc))?
        .arg(flag(alloc, "no-header", NO_HEADER))?
        .arg(flag(alloc, "bytes", BYTES))?
        .arg(list_arg(alloc))?
        .arg(flag(alloc, "zero", ZERO))?
        .arg(flag(alloc, "json", JSON))?;
    with_reading(command, alloc)
}

fn checked_arg<'a>(alloc: Global) -> Arg<'a> {
    Arg::new(alloc, "check")
        .long("check")
        .value_name("LIST")
        .help("Check whether each file that LIST names has the sum given there")
        .action(ArgAction::Set)
}

fn side_arg<'a>(alloc: Global, name: &'a str, shown: &'a str) -> Arg<'a> {
    Arg::new(alloc, name)
        .value_name(shown)
        .help("An MP4 file, - for standard input, or @LIST for a list of files")
        .required(true)
        .action(ArgAction::Set)
}

fn limit_arg<'a>(alloc: Global) -> Arg<'a> {
    Arg::new(alloc, "limit")
        .long("limit")
        .value_name("N")
        .help("With --all or --align: list at most N differences; 100 if it isn't given")
        .action(ArgAction::Set)
        .value_parser(value_parser!(u32))
}

fn compare_command<'a>(alloc: Global) -> Result<Command<'a>, AllocError> {
    let command = Command::new(alloc, "compare")
        .about("Compares the content of two files, and prints the first difference")
        .after_help("Example: mp4norm compare source.mp4 packaged.mp4 --without packaging-2")
        .arg(side_arg(alloc, "left", "A"))?
        .arg(side_arg(alloc, "right", "B"))?
        .arg(without_arg(alloc))?
        .arg(flag(alloc, "all", ALL))?
        .arg(flag(alloc, "align", ALIGN))?
        .arg(limit_arg(alloc))?
        .arg(tracks_arg(alloc))?
        .arg(flag(alloc, "json", JSON))?;
    with_reading(with_foreign(command, alloc)?, alloc)
}

fn top_command<'a>(alloc: Global) -> Result<Command<'a>, AllocError> {
    Command::new(alloc, "mp4norm")
        .about("Compares MP4 files by their content, and writes each in one normal form")
        .after_help(AFTER_HELP)
        .version(VERSION)
        .no_binary_name(true)
        .subcommand_required(true)
        .bin_name("mp4norm")
}

/// All commands, their words and their help.
pub(crate) fn whole_command<'a>(alloc: Global) -> Result<Command<'a>, AllocError> {
    top_command(alloc)?
        .subcommand(compare_command(alloc)?)?
        .subcommand(check_command(alloc)?)?
        .subcommand(sum_command(alloc)?)?
        .subcommand(normalise_command(alloc)?)?
        .subcommand(print_command(alloc)?)?
        .subcommand(show_command(alloc)?)?
        .subcommand(samples_command(alloc)?)?
        .subcommand(extract_command(alloc)?)?
        .subcommand(boxes_command(alloc)?)?
        .subcommand(strip_command(alloc)?)
}
