//! Parts of a text on their way to a sink.
ghost use Rattle.std.specs.Prelude.{flat_map};
ghost use Rattle.mp4_present.specs.words.Latches.{Goes};

use mp4_present::Latch;
use mp4_store::Sink;

pub(crate) const SPACE: &[u8] = b" ";

pub(crate) const LINE_FEED: &[u8] = b"\n";

/// Takes these parts of a text along.
pub(crate) fn put_parts<K: Sink>(parts: &[&[u8]], latch: &mut Latch<K>)
    ensures { Goes K.Sink latch.old latch.new
        (flat_map (λ part. part.now) parts.now) }
{
    for part in parts {
        latch.put(part);
    }
}
