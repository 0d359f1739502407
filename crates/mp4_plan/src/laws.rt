//! Laws of the definitions.

ghost use Rattle.mp4_plan.specs.format.Laws.{DenotedIsValid, DenotesOne, FaultRefuses, FirstFaultRefuses, JudgedIsDenoted, NormalDenotes, NormalIsExact, NormalIsFixed, NormalIsJudged};
ghost use Rattle.mp4_plan.specs.format.PieceLaws.{CutsAreLeast, FragmentsAreLast, PiecesAreDue, PiecesAreLongest, PiecesJoin};
ghost use Rattle.mp4_plan.specs.words.PlannerLaws.{GatheringSumsUp};
ghost use Rattle.mp4_plan.specs.words.PiecesComing.{TurnsBeginWithAll};
ghost use Rattle.mp4_plan.specs.words.Taken.{PieceIsSpelled, PiecesTakeAlike};
ghost use Rattle.mp4_plan.specs.words.TurnLaws.{TurnsTakeAll};
ghost use Rattle.mp4_plan.specs.format.HeadLaws.{MovieLengthIsLargest, NextTrackIdIsLeast};
ghost use Rattle.mp4_plan.specs.format.SpellingLaws.{ColumnsAreSpelledOnce, GroupRowsAreLongest, PieceKeysAreThose};
ghost use Rattle.mp4_plan.specs.format.TableLaws.{GroupsAreIndexes, KeysAreRanked, SamplesLieInChunks};
ghost use Rattle.mp4_present.specs.format.Stands.{Reason, header, child, missing, leaf, tables, fragment, count, limit, order};

/// A file denotes at most one presentation.
pub fn denotes_one()
    ensures { DenotesOne }
{}

/// The normal form of a valid presentation denotes it.
pub fn normal_denotes()
    ensures { NormalDenotes }
{}

/// A file denotes a presentation exactly if it is judged to be that one.
pub fn judged_is_denoted()
    ensures { JudgedIsDenoted }
{}

/// The normal form of a valid presentation is judged to be it.
pub fn normal_is_judged()
    ensures { NormalIsJudged }
{}

/// What has a first fault denotes nothing.
pub fn first_fault_refuses()
    ensures { FirstFaultRefuses }
{}

/// Normal forms of valid presentations are equal exactly if the presentations are.
pub fn normal_is_exact()
    ensures { NormalIsExact }
{}

/// What a normal form denotes has this normal form: to normalise twice gives the bytes of once.
pub fn normal_is_fixed()
    ensures { NormalIsFixed }
{}

/// What bytes denote is valid.
pub fn denoted_is_valid()
    ensures { DenotedIsValid }
{}

/// Where there are sizes for all chunks, the samples of each chunk follow those of the chunks
/// before it, and lie one after the other from its offset.
pub fn samples_lie_in_chunks()
    ensures { SamplesLieInChunks }
{}

/// Where `sbgp`s keep their rules, each sample has at each key the index that the `sbgp` of the key
/// gives it.
pub fn groups_are_indexes()
    ensures { GroupsAreIndexes }
{}

/// Keys of sample groups are the same exactly if their ranks are.
pub fn keys_are_ranked()
    ensures { KeysAreRanked }
{}

/// No track is longer than the movie, and the movie has the length of some track, or 0.
pub fn movie_length_is_largest()
    ensures { MovieLengthIsLargest }
{}

/// The next track ID is above each ID that leaves room for one above it, fits 32 bits, and is no
/// larger than that takes.
pub fn next_track_id_is_least()
    ensures { NextTrackIdIsLeast }
{}

/// The cuts are those of the first track: its first sample, and from each cut on the least sync
/// sample at least a second behind.
pub fn cuts_are_least()
    ensures { CutsAreLeast }
{}

/// The pieces of each track hold its samples in order, each once.
pub fn pieces_join()
    ensures { PiecesJoin }
{}

/// The pieces of each track follow one another in time, from its start on.
pub fn pieces_are_due()
    ensures { PiecesAreDue }
{}

/// The pieces of a track in a fragment are the longest runs of one description among its samples
/// there.
pub fn pieces_are_longest()
    ensures { PiecesAreLongest }
{}

/// The fragment of a sample is that of the last cut that has begun, by number or by time; the first
/// one if none has.
pub fn fragments_are_last()
    ensures { FragmentsAreLast }
{}

/// In the normal form of what is valid a number that all samples of a piece have is a default of
/// its `tfhd` and no column of its `trun`, and any other number is a column and no default.
pub fn columns_are_spelled_once()
    ensures { ColumnsAreSpelledOnce }
{}

/// The rows of an `sbgp` are the longest runs of the indexes of its samples.
pub fn group_rows_are_longest()
    ensures { GroupRowsAreLongest }
{}

/// A piece has an `sbgp` for each key at which some sample has an index, once, in the order of
/// keys.
pub fn piece_keys_are_those()
    ensures { PieceKeysAreThose }
{}

/// A file in which a header can't be read denotes nothing.
pub fn header_fault_refuses()
    ensures { FaultRefuses header }
{}

/// A file in which a box stands where it may not, or once more than it may, denotes nothing.
pub fn child_fault_refuses()
    ensures { FaultRefuses child }
{}

/// A file in which a box is missing denotes nothing.
pub fn missing_fault_refuses()
    ensures { FaultRefuses missing }
{}

/// A file in which a leaf, an entry or a kept box is refused denotes nothing.
pub fn leaf_fault_refuses()
    ensures { FaultRefuses leaf }
{}

/// A file in which the tables of a track do not fit denotes nothing.
pub fn tables_fault_refuses()
    ensures { FaultRefuses tables }
{}

/// A file in which a `traf` breaks a rule behind all that is as it should be denotes nothing.
pub fn fragment_fault_refuses()
    ensures { FaultRefuses fragment }
{}

/// A file that names more samples than the limit allows denotes nothing.
pub fn count_fault_refuses()
    ensures { FaultRefuses count }
{}

/// A file that passes a limit on times or on the length of the `moov` denotes nothing.
pub fn limit_fault_refuses()
    ensures { FaultRefuses limit }
{}

/// A file with a `moof` before its `moov` denotes nothing.
pub fn order_fault_refuses()
    ensures { FaultRefuses order }
{}

/// A file in which a fault stands denotes nothing, whatever the reason.
pub fn fault_refuses()
    ensures { (reason : Reason) → FaultRefuses reason }
{}

/// What a planner gathers of the samples of a piece is what they have: how many, how many bytes,
/// what they share, which rows their groups make.
pub fn gathering_sums_up()
    ensures { GatheringSumsUp }
{}

/// What is written of the samples of a piece, by what was gathered and noted of them, and then
/// their bytes, is the piece of the normal form.
pub fn piece_is_spelled()
    ensures { PieceIsSpelled }
{}

/// From the first turn on, the pieces that are left are all pieces.
pub fn turns_begin_with_all()
    ensures { TurnsBeginWithAll }
{}

/// Turns take the pieces that are left, one after the other.
pub fn turns_take_all()
    ensures { TurnsTakeAll }
{}

/// A piece of samples that are those of a presentation takes as many as a turn takes of these.
pub fn pieces_take_alike()
    ensures { PiecesTakeAlike }
{}
