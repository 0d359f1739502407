//! A `traf` is opened: what goes for its samples.
ghost use Rattle.std.specs.Prelude.{◌≡◌, ◌+◌, ◌≤◌, false};
ghost use Rattle.mp4_tables.specs.words.Indexes.{AreIndexPlaces, indexes_coming};
ghost use Rattle.mp4_tables.specs.words.Keys.{keys_seen};
ghost use Rattle.mp4_frag.specs.words.PlacesIn.{ChangesIndexes, ChangesHead, IsBoxIn, bytes_inside, group_work, groups_work};
ghost use Rattle.mp4_frag.specs.words.Walks.{are_named, boxes_from, names, with_head, with_group, with_leaves, reached};

use crate::box_places::{Lying, box_at};
use crate::check::{SBGP, TFHD};
use crate::heads::{read_head, what_is_inherited};
use crate::places::TrafPlace;
use crate::trex::Trex;
use mp4_tables::{Keys, open_rows, read_group};

// Takes the rows of an `sbgp`, if its key is one of the track's: its indexes are to come there, at
// a step for each row.
fn open_group(payload: &[u8], keys: Keys, lying: Lying, place: &mut TrafPlace)
    requires lies { IsBoxIn payload.now lying }
    requires places { AreIndexPlaces payload.now place.old.index_rows place.old.indexes }
    ensures places { AreIndexPlaces payload.now place.new.index_rows place.new.indexes }
    ensures same { ChangesIndexes place.old place.new }
    ensures on { place.old.passed ≤ place.new.passed }
    ensures work { place.new.passed ≤ place.old.passed
        + group_work (bytes_inside payload.now lying) }
    ensures indexes { indexes_coming payload.now place.new.index_rows place.new.indexes
        ≡ with_group (keys_seen keys)
        (indexes_coming payload.now place.old.index_rows place.old.indexes)
        (bytes_inside payload.now lying) }
{
    let Ok(group) = read_group(&payload[lying.inside..lying.end]) else {
        return;
    };
    let Some(j) = keys.place(group.key) else {
        return;
    };
    let at = lying.inside + group.rows;
    open_rows(
        payload,
        &mut place.index_rows,
        &mut place.indexes,
        j,
        at,
        group.count,
    );
    place.passed = place.passed.saturating_add(u64::from(group.count));
}

// Takes what the `tfhd` says, and says whether it names the track with this ID.
fn open_head(payload: &[u8], id: u32, trex: Trex, lying: Lying, place: &mut TrafPlace) -> bool
    requires lies { IsBoxIn payload.now lying }
    ensures same { ChangesHead place.old place.new }
    ensures named { result ≡ names id (bytes_inside payload.now lying) }
    ensures reached { reached payload.now place.new
        ≡ with_head trex (reached payload.now place.old) (bytes_inside payload.now lying) }
{
    let Ok(head) = read_head(&payload[lying.inside..lying.end]) else {
        return false;
    };
    place.inherited = what_is_inherited(head, trex);
    head.id == id
}

/// Takes what goes for the samples of a `traf`: its `tfhd` and each `sbgp` may stand behind runs. A
/// step is taken for each row of an `sbgp`. Whether the `traf` names the track with this ID.
pub(crate) fn open_traf(
    payload: &[u8],
    id: u32,
    trex: Trex,
    keys: Keys,
    place: &mut TrafPlace,
) -> bool
    requires indexes { AreIndexPlaces payload.now place.old.index_rows place.old.indexes }
    ensures indexes { AreIndexPlaces payload.now place.new.index_rows place.new.indexes }
    ensures same { (place.new.next ≡ place.old.next) × (place.new.run ≡ place.old.run)
        × (place.new.dts ≡ place.old.dts) }
    ensures on { place.old.passed ≤ place.new.passed }
    ensures work { place.new.passed
        ≤ place.old.passed + groups_work (boxes_from payload.now 0) }
    ensures named { result ≡ are_named id false (boxes_from payload.now 0) }
    ensures reached { reached payload.now place.new ≡ with_leaves trex (keys_seen keys)
        (reached payload.now place.old) (boxes_from payload.now 0) }
{
    let mut is_named = false;
    let mut at = 0;
    while at < payload.len() {
        let Some(child) = box_at(payload, at, payload.len()) else {
            return is_named;
        };
        at = child.end;
        if child.kind == TFHD {
            is_named = open_head(payload, id, trex, child, place);
        } else if child.kind == SBGP {
            open_group(payload, keys, child, place);
        }
    }
    is_named
}
