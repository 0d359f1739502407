//! What samples of two tracks are compared by.
ghost use Rattle.std.specs.Prelude.{◌≡◌, ◌++◌, ◌&&◌, [], map, fold, if◌then◌else◌, IfOk, OnOk};
ghost use Rattle.mp4_tables.specs.words.Keys.{key_seen, keys_seen};
ghost use Rattle.mp4_content.specs.format.Comparison.{with_key};
ghost use Rattle.mp4_content.specs.words.ComingLess.{keeps_times};

use crate::comparing::tracks::Tracks;
use crate::reduced::Reduction;
use crate::without::{Without, Word};
use mp4_boxes::Memory;
use mp4_tables::{GroupKey, Keys};
use std::alloc::Global;

// Puts a key among keys in their order, where it isn't there yet.
fn put_key(keys: &mut Vec<GroupKey>, key: GroupKey) -> Result<(), Memory>
    ensures { OnOk result (map key_seen keys.new.items
        ≡ with_key (map key_seen keys.old.items) (key_seen key)) }
{
    let rank = key.rank();
    for k in 0..keys.len() {
        let other = keys[k].rank();
        if rank < other {
            keys.insert(k, key).map_err(|_| Memory)?;
            return Ok(());
        }
        if rank == other {
            return Ok(());
        }
    }
    keys.push(key).map_err(|_| Memory)?;
    Ok(())
}

// Puts the keys of a track among keys in their order.
fn put_keys(keys: &mut Vec<GroupKey>, more: &Keys) -> Result<(), Memory>
    ensures { OnOk result (map key_seen keys.new.items
        ≡ fold with_key (map key_seen keys.old.items) (keys_seen more.now)) }
{
    for j in 0..more.count() {
        put_key(keys, more.key_at(j))?;
    }
    Ok(())
}

// The keys of two tracks in their order, each once; none where groups are left out.
fn joint_keys(
    alloc: Global,
    leaving: Without,
    left: &Keys,
    right: &Keys,
) -> Result<Vec<GroupKey>, Memory>
    ensures { IfOk result (λ keys. map key_seen keys.items ≡ (if leaving.groups then []
        else fold with_key [] (keys_seen left.now ++ keys_seen right.now))) }
{
    let mut keys = Vec::new(alloc);
    if !leaving.has(Word::Groups) {
        put_keys(&mut keys, left)?;
        put_keys(&mut keys, right)?;
    }
    Ok(keys)
}

// What samples of two tracks are compared by: the number of the tracks, the keys of each and what
// its samples are left by, and the keys of both in their order.
#[derive(Drop)]
pub(crate) struct Pairing {
    // Whether durations and composition offsets of samples stay as they are.
    pub(crate) is_plain: bool,
    pub(crate) track: u64,
    pub(crate) left: Keys,
    pub(crate) right: Keys,
    pub(crate) left_reduction: Reduction,
    pub(crate) right_reduction: Reduction,
    pub(crate) keys: Vec<GroupKey>,
    ghost plain: { is_plain ≡ keeps_times left_reduction && keeps_times right_reduction },
}

impl Pairing {
    ghost use Rattle.std.specs.Prelude.{◌≡◌, IfOk};
    ghost use Rattle.mp4_content.specs.words.Compared.{HasReductions, HaveTracks, IsPairingAt};

    // Of two tracks whose samples are left by these.
    pub(crate) fn new(
        alloc: Global,
        tracks: Tracks,
        left: Reduction,
        right: Reduction,
    ) -> Result<Pairing, Memory>
        requires { HaveTracks tracks.place tracks.movies.now.left tracks.movies.now.right }
        ensures pairing { IfOk result (IsPairingAt tracks.entry.leaving tracks.entry.place
            tracks.entry.movies.now.left tracks.entry.movies.now.right) }
        ensures reductions { IfOk result (HasReductions left right) }
    {
        let Tracks {
            movies,
            place,
            leaving,
            ..
        } = tracks;
        let info = movies.left.tracks()[place];
        let other = movies.right.tracks()[place];
        let keys = joint_keys(alloc, leaving, &info.keys, &other.keys)?;
        Ok(Pairing {
            is_plain: left.keeps_times() && right.keeps_times(),
            track: place as u64 + 1,
            left: info.keys,
            right: other.keys,
            left_reduction: left,
            right_reduction: right,
            keys,
        })
    }
}
