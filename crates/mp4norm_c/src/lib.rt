//! The C interface: what MP4 files say, of bytes in memory.
//!
//! Each export looks at a file, or at two, of which all bytes are in memory, and says in an
//! [`Answer`] whether there is an answer. It keeps nothing, and may be called by several threads at
//! once. What a text has from a place on is put into the caller's buffer; its rest stays as it was.
//! What is asked for in numbers and is unknown is answered by status 64.
#![tactic(auto)]

mod answer;
mod asked;
mod compared;
mod counting;
mod looks;
mod window;
mod window_answers;

ghost use Rattle.std.specs.Prelude.{◌≡◌, Some};
ghost use Rattle.mp4_answers.specs.declared.jobs.Job.TheVariants as jobs;
ghost use Rattle.mp4norm_c.specs.format.Exports.{Answers, Checks, Compares, Measures, Sums, boxes_job, comparison_asked, fields_job, first_asked, form_of, print_job, reduce_job, samples_job, syntax_of, version_here, without_of};

use crate::asked::{comparison_asked, first_asked, form_of, syntax_of, without_of};
use crate::compared::answer_compare;
use crate::looks::{answer_check, answer_length, answer_sum};
use crate::window_answers::answer_window;
pub use answer::{Answer, Digest};
pub use asked::{Comparison, Version};
use mp4_answers::{Job, Selection};
use std::alloc::Global;

/// Whether a file has a normal form.
#[unsafe(no_mangle)]
pub extern "C" fn mp4norm_check(alloc: Global, file: &[u8], answer: &mut Answer)
    ensures { Checks file.now answer.new }
{
    *answer = answer_check(alloc, file);
}

/// How many bytes the normal form has of what is left of a file. It takes as long as to put it.
#[unsafe(no_mangle)]
pub extern "C" fn mp4norm_normal_len(alloc: Global, file: &[u8], words: u32, answer: &mut Answer)
    ensures { Measures (without_of words) file.now answer.new }
{
    *answer = answer_length(alloc, file, without_of(words));
}

/// The SHA-256 of the normal form of what is left of a file. Without an answer the digest stays as
/// it is.
#[unsafe(no_mangle)]
pub extern "C" fn mp4norm_sum(
    alloc: Global,
    file: &[u8],
    words: u32,
    digest: &mut Digest,
    answer: &mut Answer,
)
    ensures { Sums (without_of words) file.now digest.old.bytes digest.new.bytes answer.new }
{
    *answer = answer_sum(alloc, file, without_of(words), digest);
}

/// The bytes of the normal form of what is left of a file, from the place `from` on.
#[unsafe(no_mangle)]
pub extern "C" fn mp4norm_normal_range(
    alloc: Global,
    file: &[u8],
    words: u32,
    from: u64,
    out: &mut [u8],
    answer: &mut Answer,
)
    ensures { Answers (reduce_job (without_of words)) file.now from out.old out.new answer.new }
{
    let job = without_of(words).map(|leaving| Job::Reduce {
        selection: Selection::whole(leaving),
    });
    *answer = answer_window(alloc, job, file, from, out);
}

/// The text of what is left of a file, as `print` has it, from the place `from` on.
#[unsafe(no_mangle)]
pub extern "C" fn mp4norm_print_range(
    alloc: Global,
    file: &[u8],
    words: u32,
    from: u64,
    out: &mut [u8],
    answer: &mut Answer,
)
    ensures { Answers (print_job (without_of words)) file.now from out.old out.new answer.new }
{
    let job = without_of(words).map(|leaving| Job::Print {
        selection: Selection::whole(leaving),
    });
    *answer = answer_window(alloc, job, file, from, out);
}

/// The line of JSON that `show` has of a file, from the place `from` on.
#[unsafe(no_mangle)]
pub extern "C" fn mp4norm_show_range(
    alloc: Global,
    file: &[u8],
    from: u64,
    out: &mut [u8],
    answer: &mut Answer,
)
    ensures { Answers (Some jobs.Show) file.now from out.old out.new answer.new }
{
    *answer = answer_window(alloc, Some(Job::Show), file, from, out);
}

/// The list of the samples of the track with this ID, in a form (0: lines, 1: lines behind the
/// names of their columns, 2: objects of JSON), from the place `from` on.
#[unsafe(no_mangle)]
pub extern "C" fn mp4norm_samples_range(
    alloc: Global,
    file: &[u8],
    track: u32,
    form: u32,
    from: u64,
    out: &mut [u8],
    answer: &mut Answer,
)
    ensures { Answers (samples_job track (form_of form)) file.now from out.old out.new answer.new }
{
    let job = form_of(form).map(|form| Job::Samples { track, form });
    *answer = answer_window(alloc, job, file, from, out);
}

/// The bytes of the samples of the track with this ID, from the place `from` on.
#[unsafe(no_mangle)]
pub extern "C" fn mp4norm_extract_range(
    alloc: Global,
    file: &[u8],
    track: u32,
    from: u64,
    out: &mut [u8],
    answer: &mut Answer,
)
    ensures { Answers (Some (jobs.Extract track)) file.now from out.old out.new answer.new }
{
    *answer = answer_window(alloc, Some(Job::Extract { track }), file, from, out);
}

/// The list of the boxes of a file, in a syntax (0: lines, 1: objects of JSON), from the place
/// `from` on.
#[unsafe(no_mangle)]
pub extern "C" fn mp4norm_boxes_range(
    alloc: Global,
    file: &[u8],
    syntax: u32,
    from: u64,
    out: &mut [u8],
    answer: &mut Answer,
)
    ensures { Answers (boxes_job (syntax_of syntax)) file.now from out.old out.new answer.new }
{
    let job = syntax_of(syntax).map(|syntax| Job::Boxes { syntax });
    *answer = answer_window(alloc, job, file, from, out);
}

/// The boxes of a file, each with its fields by their names in the standard (ISO/IEC 14496-12) and
/// at most so many of its rows, in a syntax (0: lines, 1: objects of JSON), from the place `from`
/// on.
#[unsafe(no_mangle)]
pub extern "C" fn mp4norm_fields_range(
    alloc: Global,
    file: &[u8],
    syntax: u32,
    rows: u64,
    from: u64,
    out: &mut [u8],
    answer: &mut Answer,
)
    ensures { Answers (fields_job rows (syntax_of syntax)) file.now from out.old out.new
        answer.new }
{
    let job = syntax_of(syntax).map(|syntax| Job::Fields { syntax, rows });
    *answer = answer_window(alloc, job, file, from, out);
}

/// Whether the same is left of two files, and the line of the first difference, as `compare` has
/// it.
#[unsafe(no_mangle)]
pub extern "C" fn mp4norm_compare(
    alloc: Global,
    file: &[u8],
    other: &[u8],
    words: u32,
    out: &mut [u8],
    answer: &mut Answer,
)
    ensures { Compares (first_asked words) file.now other.now 0 out.old out.new answer.new }
{
    *answer = answer_compare(alloc, first_asked(words), file, other, 0, out);
}

/// Whether the same is left of two files, and what `compare` says of them, from the place `from`
/// on.
#[unsafe(no_mangle)]
pub extern "C" fn mp4norm_compare_range(
    alloc: Global,
    file: &[u8],
    other: &[u8],
    asked: &Comparison,
    from: u64,
    out: &mut [u8],
    answer: &mut Answer,
)
    ensures { Compares (comparison_asked asked.now) file.now other.now from out.old out.new
        answer.new }
{
    *answer = answer_compare(alloc, comparison_asked(*asked), file, other, from, out);
}

/// The version of this library, which is that of the program.
#[unsafe(no_mangle)]
pub extern "C" fn mp4norm_version(version: &mut Version)
    ensures { version.new ≡ version_here }
{
    *version = Version {
        major: 0,
        minor: 3,
        patch: 0,
    };
}
