//! What the words of a command line ask for.
ghost use Rattle.std.specs.Prelude.{◌≡◌, ◌≤◌, [], IfOk, IfSome, Ok};
ghost use Rattle.mp4norm.specs.words.Actions.{IsJob, IsAction, boxes_of_input};

use crate::shell::action::{
    Action, CommandFault, ComparedInputs, Finding, Freeing, Input, Order, SumCheck, Target, Telling,
};
use crate::shell::command_table::whole_command;
use crate::shell::drop_lists::names_of;
use crate::shell::file_names::shown_word;
use crate::shell::lists::MOST_PARTS;
use clap::error::ErrorKind;
use clap::{ArgMatches, Error};
use mp4_answers::box_names::Name;
use mp4_answers::commands::compare::{LineForm, Lines, Listing};
use mp4_answers::jobs::{Form, Job, Syntax, VerdictStyle};
use mp4_answers::selection::Selection;
use mp4_answers::text::sum_lines::SumOf;
use mp4_answers::without_words::{leaving_both, leaving_of};
use mp4_content::Without;
use std::alloc::{AllocError, Global};

// What may be wrong with words that clap accepts.
const REPLACED_OUTPUT: &str = "the argument '--replace' cannot be used with '--out -'";

const REPLACED_NOTHING: &str = "the argument '--replace' is of use only with '--out <NEW>'";

const TWO_FORMS: &str = "the argument '--header' cannot be used with '--json'";

const BRIEFLY_EXPLAINED: &str = "the argument '--brief' cannot be used with '--explain'";

const LIMIT_ALONE: &str = "the argument '--limit <N>' is of use only with '--all' or '--align'";

const ROWS_ALONE: &str = "the argument '--rows <N>' is of use only with '--fields'";

const NO_LIST: &str = "'@' names no list of files; a file of this name is './@'";

const NOTHING_DROPPED: &str = "\
the argument '--drop <TYPES>' or '--foreign' is required: which boxes are to be free space";

const LOSSY_ALONE: &str = "the argument '--lossy' is of use only with '--foreign'";

const QUIET_ALONE: &str = "the argument '--quiet' is of use only with '--check <LIST>'";

const SUMMARY_ALONE: &str = "the argument '--summary' is of use only with '--check <LIST>'";

const NEW_ALONE: &str = "the argument '--new' is of use only with '--check <LIST>'";

const NEW_OF_NOTHING: &str = "the argument '--new' wants a <FILE> or '--names-from <LIST>'";

const NEW_OPENS_NOTHING: &str = "\
the argument '--new' can be used only with '--check <LIST>', '--names-from', '--zero', \
'--max-parts', '--explain' and '--brief'";

const BYTES_UNMARKED: &str = "\
the argument '--bytes' cannot be used with '--json', '--zero' and '--no-header': a line says \
which sums are of bytes";

const TRACK_OF_BYTES: &str = "\
the argument '--track <ID>' cannot be used with '--bytes': bytes are summed of whole files";

const TRACK_UNMARKED: &str = "\
the argument '--track <ID>' cannot be used with '--no-header': a line says of which track the \
sums are";

const CHECK_ALONE: &str = "\
the argument '--check <LIST>' can be used only with '--quiet', '--summary', '--new', \
'--foreign', '--lossy', '--max-parts', '--explain' and '--brief'";

const INPUT_TWICE: &str = "standard input ('-') can be read only once";

// The rules of lists of words.
const DROP_RULE: &str = "\
each type is four printable characters or eight hexadecimal digits, and not free, or uuid: and a \
UUID; before a slash only a container whose boxes are listed may stand";

const WITHOUT_RULE: &str = "\
each word is a set, packaging-2, media-2, packaging-1 or media-1, or a category: times, edits, \
flags, groups, metadata, bitrates, ends, origins, labels, timing, roles, ids, timescales or \
lead-ins";

const TRACK_RULE: &str = "\
one ID of a track is wanted, from 1 to 4294967295; only compare takes two, as A:B";

const TRACKS_RULE: &str = "\
compare takes two IDs as A:B, each from 1 to 4294967295: of a track of the first file, and of one \
of the second";

/// How many rows of a box are shown where no number is given.
const ROWS: u64 = 16;

/// How many differences are listed where no number is given.
const LIMIT: u32 = 100;

// The ID of a track; none where it is 0.
fn track_of(found: &ArgMatches) -> Option<u32>
    ensures { IfSome result (λ track. 1 ≤ track) }
{
    found.get_one::<u32>("track").filter(|track| *track >= 1)
}

// What a word names that is to be read, and is never a list.
fn plain_input_of(word: &str) -> Input<'_> {
    match word {
        "-" => Input::Standard,
        name => Input::File { name },
    }
}

/// What a word names that is to be read; a list may name so many files.
pub(crate) fn input_of(word: &str, most: u64) -> Input<'_> {
    if word.starts_with('@') {
        Input::List { word, most }
    } else {
        plain_input_of(word)
    }
}

// How many files a list may name.
fn most_parts_of(found: &ArgMatches) -> u64 {
    found.get_one::<u64>("max-parts").unwrap_or(MOST_PARTS)
}

// Where the answer goes: to standard output where no other word is given.
fn target_of<'a>(found: &ArgMatches<'a>) -> Target<'a> {
    match found.get_str("out") {
        None | Some("-") => Target::Standard,
        Some(name) if found.get_flag("replace") => Target::Replaced { name },
        Some(name) => Target::New { name },
    }
}

// What is said beside the answer.
fn telling_of(found: &ArgMatches) -> Telling {
    Telling {
        explain: found.get_flag("explain"),
        brief: found.get_flag("brief"),
        progress: found.get_flag("progress"),
    }
}

// Which boxes are read as free space.
fn freeing_of(found: &ArgMatches) -> Freeing {
    Freeing {
        foreign: found.get_flag("foreign"),
        lossy: found.get_flag("lossy"),
    }
}

// What is read, where the answer goes, and what is said beside it.
fn order_of<'a>(found: &ArgMatches<'a>, file: &'a str) -> Order<'a> {
    Order {
        input: input_of(file, most_parts_of(found)),
        target: target_of(found),
        most: found.get_one::<u64>("max-bytes"),
        freeing: freeing_of(found),
        telling: telling_of(found),
    }
}

// In which syntax the answer is asked for.
fn syntax_of(found: &ArgMatches) -> Syntax {
    if found.get_flag("json") {
        Syntax::Json
    } else {
        Syntax::Text
    }
}

// How samples are listed.
fn form_of(found: &ArgMatches) -> Form {
    if found.get_flag("json") {
        Form::Json
    } else if found.get_flag("header") {
        Form::Named
    } else {
        Form::Plain
    }
}

// The files that are named.
fn files_of<'a>(alloc: Global, found: &ArgMatches<'a>) -> Result<Vec<Input<'a>>, AllocError> {
    let mut files = Vec::new(alloc);
    let most = most_parts_of(found);
    for word in found.get_strs("file").unwrap_or(&[]) {
        files.push(input_of(word, most))?;
    }
    Ok(files)
}

// The byte that ends each line.
fn end_of(found: &ArgMatches) -> u8 {
    if found.get_flag("zero") { 0 } else { b'\n' }
}

// Which files are to be judged, or summed.
fn check_asked<'a>(
    alloc: Global,
    found: &ArgMatches<'a>,
    finding: Finding,
) -> Result<Action<'a>, AllocError>
    ensures { IfOk result IsAction }
{
    let list = found.get_str("names-from").map(plain_input_of);
    let style = VerdictStyle {
        syntax: syntax_of(found),
        end: end_of(found),
    };
    Ok(Action::Check {
        files: files_of(alloc, found)?,
        list,
        finding,
        style,
        freeing: freeing_of(found),
        telling: telling_of(found),
    })
}

// What is wrong with the words, said as clap does.
fn usage(alloc: Global, what: &str) -> CommandFault {
    match format!(in alloc; "error: {what}\n\nFor more information, try '--help'.\n") {
        Ok(text) => CommandFault::Shown(text),
        Err(_) => CommandFault::Memory,
    }
}

// What is wrong with a list of words, by the rule of such lists.
fn list_fault(alloc: Global, list: &str, option: &str, rule: &str) -> CommandFault {
    let Ok(list) = shown_word(alloc, list) else {
        return CommandFault::Memory;
    };
    match format!(in alloc; "invalid value '{list}' for '{option}': {rule}") {
        Ok(what) => usage(alloc, &what),
        Err(_) => CommandFault::Memory,
    }
}

// A word is missing. clap has seen that none is.
fn missing(alloc: Global) -> CommandFault {
    CommandFault::Shown(String::new(alloc))
}

// The boxes that a list of types names.
fn listed_names(alloc: Global, list: &str) -> Result<Vec<Name>, CommandFault> {
    match names_of(alloc, list)? {
        Some(names) => Ok(names),
        None => Err(list_fault(alloc, list, "--drop <TYPES>", DROP_RULE)),
    }
}

// Which boxes of which file are to be free space.
fn strip_asked<'a>(alloc: Global, found: &ArgMatches<'a>) -> Result<Action<'a>, CommandFault>
    ensures { IfOk result IsAction }
{
    let mut names = match found.get_str("drop") {
        Some(list) => listed_names(alloc, list)?,
        None => Vec::new(alloc),
    };
    if found.get_flag("foreign") && names.push(Name::Foreign).is_err() {
        return Err(CommandFault::Memory);
    }
    if names.is_empty() {
        return Err(usage(alloc, NOTHING_DROPPED));
    }
    match found.get_str("file") {
        Some(file) => {
            let order = order_of(found, file);
            Ok(Action::Strip { names, order })
        }
        None => Err(missing(alloc)),
    }
}

// What a list of words leaves out.
fn listed_out(alloc: Global, list: &str) -> Result<Without, CommandFault> {
    match leaving_of(list) {
        Some(leaving) => Ok(leaving),
        None => Err(list_fault(alloc, list, "--without <WORDS>", WITHOUT_RULE)),
    }
}

// What is left out: what all lists of words say; nothing where none is given.
fn left_out(alloc: Global, found: &ArgMatches) -> Result<Without, CommandFault> {
    let mut leaving = Without::NOTHING;
    for list in found.get_strs("without").unwrap_or(&[]) {
        leaving = leaving_both(leaving, listed_out(alloc, list)?);
    }
    Ok(leaving)
}

// The ID of a track.
fn id_of(word: &str) -> Option<u32>
    ensures { IfSome result (λ id. 1 ≤ id) }
{
    let id: u32 = word.parse().ok()?;
    (id >= 1).then_some(id)
}

// Two of them, apart by a colon.
fn ids_of(pair: &str) -> Option<(u32, u32)> {
    let (first, second) = pair.split_once(":")?;
    Some((id_of(first)?, id_of(second)?))
}

// Which track is looked at, where it is one alone.
fn track_alone(alloc: Global, found: &ArgMatches) -> Result<Option<u32>, CommandFault>
    ensures { IfOk result (λ track. IfSome track (λ id. 1 ≤ id)) }
{
    let Some(word) = found.get_str("track") else {
        return Ok(None);
    };
    match id_of(word) {
        Some(id) => Ok(Some(id)),
        None => Err(list_fault(alloc, word, "--track <ID>", TRACK_RULE)),
    }
}

// Which track is looked at, where it is one alone, and what of it is left out.
fn selection_of(alloc: Global, found: &ArgMatches) -> Result<Selection, CommandFault>
    ensures { IfOk result (λ selection. IfSome selection.track (λ id. 1 ≤ id)) }
{
    Ok(Selection {
        track: track_alone(alloc, found)?,
        leaving: left_out(alloc, found)?,
    })
}

// Which track of each of two files is looked at, where it is one alone.
fn tracks_of(
    alloc: Global,
    found: &ArgMatches,
) -> Result<(Option<u32>, Option<u32>), CommandFault> {
    let Some(pair) = found.get_str("tracks") else {
        return Ok((None, None));
    };
    match ids_of(pair) {
        Some((first, second)) => Ok((Some(first), Some(second))),
        None => Err(list_fault(alloc, pair, "--track <A:B>", TRACKS_RULE)),
    }
}

// Whether an option that takes a word is given.
fn is_given(found: &ArgMatches, option: &str) -> bool {
    found.get_str(option).is_some()
}

// What is to be done; nothing where a word is missing.
fn job_of(
    alloc: Global,
    name: &str,
    found: &ArgMatches,
) -> Result<Option<Job<'static>>, CommandFault>
    ensures { IfOk result (λ job. IfSome job IsJob) }
{
    let job = match (name, track_of(found)) {
        ("boxes", _) if found.get_flag("fields") => {
            let syntax = syntax_of(found);
            let rows = found.get_one::<u64>("rows").unwrap_or(ROWS);
            Job::Fields { syntax, rows }
        }
        ("boxes", _) => {
            let syntax = syntax_of(found);
            Job::Boxes { syntax }
        }
        ("show", _) => Job::Show,
        ("samples", Some(track)) => {
            let form = form_of(found);
            Job::Samples { track, form }
        }
        ("extract", Some(track)) => Job::Extract { track },
        ("print", _) => {
            let selection = selection_of(alloc, found)?;
            Job::Print { selection }
        }
        ("normalise", _) if is_given(found, "track") || is_given(found, "without") => {
            let selection = selection_of(alloc, found)?;
            Job::Reduce { selection }
        }
        ("normalise", _) => Job::Normalise,
        _ => return Ok(None),
    };
    Ok(Some(job))
}

// Which job is asked for, over which file.
fn run_asked<'a>(
    alloc: Global,
    name: &str,
    found: &ArgMatches<'a>,
) -> Result<Action<'a>, CommandFault>
    ensures { IfOk result IsAction }
{
    let (Some(job), Some(file)) = (job_of(alloc, name, found)?, found.get_str("file")) else {
        return Err(missing(alloc));
    };
    let order = order_of(found, file);
    Ok(Action::Run { job, order })
}

// Which files are looked for in a list of sums.
fn new_asked<'a>(
    alloc: Global,
    found: &ArgMatches<'a>,
    list: Input<'a>,
) -> Result<Action<'a>, AllocError>
    ensures { IfOk result IsAction }
{
    Ok(Action::NewNames {
        list,
        files: files_of(alloc, found)?,
        names: found.get_str("names-from").map(plain_input_of),
        end: end_of(found),
        telling: telling_of(found),
    })
}

// Which files are to be summed, or which list of sums is to be checked, or searched.
fn sum_asked<'a>(alloc: Global, found: &ArgMatches<'a>) -> Result<Action<'a>, CommandFault>
    ensures { IfOk result IsAction }
{
    if let Some(word) = found.get_str("check") {
        let list = plain_input_of(word);
        if found.get_flag("new") {
            return Ok(new_asked(alloc, found, list)?);
        }
        return Ok(Action::CheckSums {
            list,
            how: SumCheck {
                quiet: found.get_flag("quiet"),
                summary: found.get_flag("summary"),
                most_parts: most_parts_of(found),
                freeing: freeing_of(found),
                telling: telling_of(found),
            },
        });
    }
    let is_plain = !found.get_flag("zero") && !found.get_flag("json");
    let finding = Finding::Sum {
        what: SumOf::Form(left_out(alloc, found)?),
        track: track_alone(alloc, found)?,
        header: is_plain && !found.get_flag("no-header"),
        bytes: found.get_flag("bytes"),
    };
    Ok(check_asked(alloc, found, finding)?)
}

// In which form: a line says when its sample is decoded where more is to be explained.
fn line_form_of(found: &ArgMatches) -> LineForm {
    match syntax_of(found) {
        Syntax::Text if found.get_flag("explain") => LineForm::Timed,
        syntax => LineForm::of(syntax),
    }
}

// How differences are to be told of.
fn listing_of(found: &ArgMatches) -> Listing {
    let form = line_form_of(found);
    if !has_any(found, &["all", "align"]) {
        return Listing::First(form);
    }
    Listing::All(Lines {
        limit: found.get_one::<u32>("limit").unwrap_or(LIMIT),
        form,
        aligned: found.get_flag("align"),
    })
}

// Which files are to be compared, and how.
fn compare_asked<'a>(alloc: Global, found: &ArgMatches<'a>) -> Result<Action<'a>, CommandFault>
    ensures { IfOk result IsAction }
{
    let (Some(left), Some(right)) = (found.get_str("left"), found.get_str("right")) else {
        return Err(missing(alloc));
    };
    let most = most_parts_of(found);
    let (first, second) = tracks_of(alloc, found)?;
    Ok(Action::Compare(ComparedInputs {
        left: input_of(left, most),
        right: input_of(right, most),
        first,
        second,
        leaving: left_out(alloc, found)?,
        listing: listing_of(found),
        freeing: freeing_of(found),
        telling: telling_of(found),
    }))
}

// Whether a word names standard input, or a list that is read from there.
fn is_standard(word: &str) -> bool {
    word == "-" || word == "@-"
}

// Whether a word should name a list, and names none.
fn names_no_list(found: &ArgMatches) -> bool {
    let files = found.get_strs("file").unwrap_or(&[]);
    let sides = ["left", "right"];
    files.iter().any(|file| *file == "@") || sides.iter().any(|it| found.get_str(*it) == Some("@"))
}

// Whether files are named, by words or by a list.
fn names_files(found: &ArgMatches) -> bool {
    found
        .get_strs("file")
        .is_some_and(|files| !files.is_empty())
        || found.get_str("names-from").is_some()
}

// Whether one of these is given.
fn has_any(found: &ArgMatches, flags: &[&str]) -> bool {
    flags.iter().any(|flag| found.get_flag(*flag))
}

// What is wrong with the words of `sum`: a list of sums says itself which files are summed, and
// how.
fn sum_conflict(found: &ArgMatches) -> Option<&'static str> {
    let is_checked = found.get_str("check").is_some();
    let is_new = found.get_flag("new");
    let is_alone = is_given(found, "track");
    let says_how = is_alone || is_given(found, "without") || has_any(found, &["json", "no-header"]);
    if !is_checked && found.get_flag("quiet") {
        Some(QUIET_ALONE)
    } else if !is_checked && found.get_flag("summary") {
        Some(SUMMARY_ALONE)
    } else if !is_checked && is_new {
        Some(NEW_ALONE)
    } else if found.get_flag("bytes") && has_any(found, &["json", "zero", "no-header"]) {
        Some(BYTES_UNMARKED)
    } else if is_alone && found.get_flag("bytes") {
        Some(TRACK_OF_BYTES)
    } else if is_alone && !is_checked && found.get_flag("no-header") {
        Some(TRACK_UNMARKED)
    } else if is_new && (says_how || has_any(found, &["bytes", "quiet", "summary", "foreign"])) {
        Some(NEW_OPENS_NOTHING)
    } else if is_new && !names_files(found) {
        Some(NEW_OF_NOTHING)
    } else if is_new && found.get_str("check") == Some("-") && inputs_in(found) > 0 {
        Some(INPUT_TWICE)
    } else if is_checked && !is_new && (says_how || says_what_to_sum(found)) {
        Some(CHECK_ALONE)
    } else {
        None
    }
}

// Whether words say which files are summed, and in which lines.
fn says_what_to_sum(found: &ArgMatches) -> bool {
    names_files(found) || has_any(found, &["zero", "bytes"])
}

// How often standard input is named.
fn inputs_in(found: &ArgMatches) -> usize {
    let files = found.get_strs("file").unwrap_or(&[]);
    let named = files.iter().filter(|file| is_standard(file)).count();
    let sides = ["left", "right"];
    let more = sides
        .iter()
        .filter(|name| found.get_str(*name).is_some_and(is_standard));
    let list = usize::from(found.get_str("names-from") == Some("-"));
    named.saturating_add(more.count()).saturating_add(list)
}

// What is wrong with words that clap accepts.
fn conflict_in(matches: &ArgMatches) -> Option<&'static str> {
    let (_, found) = matches.subcommand()?;
    if found.get_flag("replace") && found.get_str("out") == Some("-") {
        Some(REPLACED_OUTPUT)
    } else if found.get_flag("replace") && found.get_str("out").is_none() {
        Some(REPLACED_NOTHING)
    } else if found.get_flag("brief") && found.get_flag("explain") {
        Some(BRIEFLY_EXPLAINED)
    } else if found.get_flag("header") && found.get_flag("json") {
        Some(TWO_FORMS)
    } else if names_no_list(found) {
        Some(NO_LIST)
    } else if inputs_in(found) > 1 {
        Some(INPUT_TWICE)
    } else if found.get_one::<u32>("limit").is_some() && !has_any(found, &["all", "align"]) {
        Some(LIMIT_ALONE)
    } else if found.get_one::<u64>("rows").is_some() && !found.get_flag("fields") {
        Some(ROWS_ALONE)
    } else if found.get_flag("lossy") && !found.get_flag("foreign") {
        Some(LOSSY_ALONE)
    } else {
        sum_conflict(found)
    }
}

fn fault_of(alloc: Global, error: &Error) -> CommandFault {
    let Ok(text) = error.to_string(alloc) else {
        return CommandFault::Memory;
    };
    match error.kind() {
        ErrorKind::OutOfMemory => CommandFault::Memory,
        ErrorKind::DisplayHelp | ErrorKind::DisplayVersion => CommandFault::Help(text),
        _ => CommandFault::Usage(text),
    }
}

// What the words ask for that clap accepted.
fn of_matches<'a>(alloc: Global, matches: &ArgMatches<'a>) -> Result<Action<'a>, CommandFault>
    ensures { IfOk result IsAction }
{
    if let Some(text) = conflict_in(matches) {
        return Err(usage(alloc, text));
    }
    let Some((name, found)) = matches.subcommand() else {
        return Err(missing(alloc));
    };
    match name {
        "check" => Ok(check_asked(alloc, found, Finding::Verdict)?),
        "sum" => sum_asked(alloc, found),
        "strip" => strip_asked(alloc, found),
        "compare" => compare_asked(alloc, found),
        name => run_asked(alloc, name, found),
    }
}

/// What the words behind the program's name ask for: with no words, the boxes of standard input.
pub fn action<'a>(alloc: Global, words: &'a [String]) -> Result<Action<'a>, CommandFault>
    ensures none { words.entry.now ≡ [] → result ≡ Ok boxes_of_input }
    ensures action { IfOk result IsAction }
{
    if words.is_empty() {
        let order = Order {
            input: Input::Standard,
            target: Target::Standard,
            most: None,
            freeing: Freeing::NOTHING,
            telling: Telling::NOTHING,
        };
        return Ok(Action::Run {
            job: Job::Boxes {
                syntax: Syntax::Text,
            },
            order,
        });
    }
    let command = whole_command(alloc)?;
    match command.try_get_matches_from(words) {
        Ok(matches) => of_matches(alloc, &matches),
        Err(error) => Err(fault_of(alloc, &error)),
    }
}
