//! Heads of movies and of tracks, compared.
ghost use Rattle.std.specs.Prelude.{◌≡◌, ◌++◌, IfOk, OnOk};
ghost use Rattle.mp4_head.specs.words.Seen.{media_seen, track_seen, movie_seen};
ghost use Rattle.mp4_content.specs.declared.comparing.differences.Subject.TheVariants as subjects;
ghost use Rattle.mp4_content.specs.format.Differences.{head_differences};
ghost use Rattle.mp4_content.specs.words.HeadsDiffer.{movies_differ, media_differ};
ghost use Rattle.mp4_content.specs.words.Differing.{movie_values, track_values, size_values, media_values};

use crate::comparing::differences::{Difference, Entries, Field, Subject, Value};
use crate::comparing::entries::{Entry, Spot, compare_lists, compare_payloads};
use crate::comparing::fields::{compare_matrices, compare_numbers, compare_values, number, signed};
use mp4_boxes::Memory;
use mp4_head::{Media, MovieHead, TrackHead};
use std::alloc::Global;

// The fields of `mvhd` before its matrix.
fn movie_values(head: &MovieHead) -> [(Field, Value); 5]
    ensures { result ≡ movie_values (movie_seen head.now) }
{
    [
        number(Field::Creation, head.creation),
        number(Field::Modification, head.modification),
        number(Field::Timescale, u64::from(head.timescale)),
        signed(Field::Rate, i64::from(head.rate)),
        signed(Field::Volume, i64::from(head.volume)),
    ]
}

// The fields of `tkhd` before its matrix.
fn track_values(head: &TrackHead) -> [(Field, Value); 7]
    ensures { result ≡ track_values (track_seen head.now) }
{
    [
        number(Field::Flags, u64::from(head.flags)),
        number(Field::Creation, head.creation),
        number(Field::Modification, head.modification),
        number(Field::Id, u64::from(head.id)),
        signed(Field::Layer, i64::from(head.layer)),
        signed(Field::AlternateGroup, i64::from(head.alternate_group)),
        signed(Field::Volume, i64::from(head.volume)),
    ]
}

// The fields of `tkhd` behind its matrix.
fn size_values(head: &TrackHead) -> [(Field, Value); 2]
    ensures { result ≡ size_values (track_seen head.now) }
{
    [
        number(Field::Width, u64::from(head.width)),
        number(Field::Height, u64::from(head.height)),
    ]
}

// The fields of `mdhd`.
fn media_values(media: &Media) -> [(Field, Value); 4]
    ensures { result ≡ media_values (media_seen media.now) }
{
    [
        number(Field::MediaCreation, media.creation),
        number(Field::MediaModification, media.modification),
        number(Field::MediaTimescale, u64::from(media.timescale)),
        number(Field::Language, u64::from(media.language)),
    ]
}

/// What differs between what two movies say apart from their tracks, and the number of these.
pub(crate) fn movie_differences(
    alloc: Global,
    left: &MovieHead,
    right: &MovieHead,
) -> Result<Vec<Difference>, Memory>
    ensures { IfOk result (λ found. found.items ≡ movies_differ left.now right.now) }
{
    let of = Subject::Movie;
    let mut found = Vec::new(alloc);
    let values = movie_values(left);
    compare_values(of, &values, &movie_values(right), &mut found)?;
    compare_matrices(of, left.matrix, right.matrix, &mut found)?;
    compare_lists(of, Entries::Kept, &left.kept, &right.kept, &mut found)?;
    let tracks = left.tracks.len() as u64;
    let others = right.tracks.len() as u64;
    compare_numbers(of, Field::Tracks, tracks, others, &mut found)?;
    Ok(found)
}

// Adds what differs between two media.
fn compare_media(
    of: Subject,
    left: &Media,
    right: &Media,
    found: &mut Vec<Difference>,
) -> Result<(), Memory>
    ensures { OnOk result (found.new.items ≡ found.old.items
        ++ media_differ of left.now right.now) }
{
    let values = media_values(left);
    compare_values(of, &values, &media_values(right), found)?;
    let at = Spot::new(of, Entries::Handler, 1);
    compare_payloads(at, left.handler, right.handler, found)?;
    let list = Entries::ExtendedLanguages;
    let languages = &left.extended_languages;
    compare_lists(of, list, languages, &right.extended_languages, found)?;
    let at = Spot::new(of, Entries::MediaHeader, 1);
    left.header.compare(&right.header, at, found)?;
    let list = Entries::Descriptions;
    compare_lists(of, list, &left.descriptions, &right.descriptions, found)
}

/// What differs between what two tracks at this place, from 1, say apart from their samples.
pub(crate) fn track_differences(
    alloc: Global,
    place: u64,
    left: &TrackHead,
    right: &TrackHead,
) -> Result<Vec<Difference>, Memory>
    ensures { IfOk result (λ found. found.items
        ≡ head_differences (subjects.Track place) (track_seen left.now) (track_seen right.now)) }
{
    let of = Subject::Track(place);
    let mut found = Vec::new(alloc);
    let values = track_values(left);
    compare_values(of, &values, &track_values(right), &mut found)?;
    compare_matrices(of, left.matrix, right.matrix, &mut found)?;
    compare_values(of, &size_values(left), &size_values(right), &mut found)?;
    compare_lists(of, Entries::Edits, &left.edits, &right.edits, &mut found)?;
    compare_lists(of, Entries::Kept, &left.kept, &right.kept, &mut found)?;
    compare_media(of, &left.media, &right.media, &mut found)?;
    let list = Entries::GroupDescriptions;
    let groups = &left.group_descriptions;
    compare_lists(of, list, groups, &right.group_descriptions, &mut found)?;
    Ok(found)
}
