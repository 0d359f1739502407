//! What an `sbgp` says: its key, and where its rows lie (ISO/IEC 14496-12, 8.9.2).
ghost use Rattle.std.specs.Prelude.{◌≡◌, ◌≤◌, length, IfOk};
ghost use Rattle.mp4_boxes.specs.format.FirstFault.{FirstNamed, leaf_tests};
ghost use Rattle.mp4_boxes.specs.format.Layout.{sbgp};
ghost use Rattle.mp4_boxes.specs.format.Layout.{version as version_of};
ghost use Rattle.mp4_tables.specs.format.Groups.{key_of as key_in};
ghost use Rattle.mp4_tables.specs.words.Keys.{key_seen};
ghost use Rattle.mp4_tables.specs.words.GroupBoxes.{IsGroup};

use crate::keys::GroupKey;
use mp4_boxes::{FourCc, Kind, front, u32_at};

/// What an `sbgp` says, and where its rows begin in its payload.
#[derive(Clone, Copy)]
pub struct Group {
    pub key: GroupKey,
    pub rows: usize,
    pub count: u32,
}

// The type and the parameter.
fn key_of(payload: &[u8], version: u8) -> GroupKey
    requires room { 12 ≤ length payload.now }
    requires version { version ≡ version_of payload.now }
    ensures { key_seen result ≡ key_in payload.now }
{
    GroupKey {
        kind: FourCc([payload[4], payload[5], payload[6], payload[7]]),
        parameter: if version == 0 {
            None
        } else {
            Some(u32_at(payload, 8))
        },
    }
}

/// What the `sbgp` of this payload says.
pub fn read_group(payload: &[u8]) -> Result<Group, Kind>
    ensures group { IfOk result (IsGroup payload.now) }
    ensures exact { FirstNamed (leaf_tests sbgp payload.now) result }
{
    let (version, _) = front(payload)?;
    if version > 1 {
        return Err(Kind::BadVersion);
    }
    let rows = if version == 0 { 12 } else { 16 };
    if payload.len() < rows {
        return Err(Kind::ShortBox);
    }
    let count = u32_at(payload, rows - 4);
    if payload.len() < rows + 8 * count as usize {
        return Err(Kind::ShortBox);
    }
    Ok(Group {
        key: key_of(payload, version),
        rows,
        count,
    })
}
