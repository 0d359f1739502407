//! Laws of the definitions: contracts that functions without a body meet.
ghost use Rattle.mp4_head.specs.format.FirstFaultLaws.{JudgedHeadIsSound, JudgedHeadFaultStands};
ghost use Rattle.mp4_head.specs.format.FirstFaultLaws.{SoundHeadIsJudged};
ghost use Rattle.mp4_head.specs.words.ReadingLaws.{WrittenHeadIsRead};

/// Where no fault of a `moov` is named, apart from tables, it has the tree that is answered, and
/// the tree is sound.
pub fn judged_head_is_sound()
    ensures { JudgedHeadIsSound }
{}

/// The fault of a `moov` that is named, apart from tables, stands there.
pub fn judged_head_fault_stands()
    ensures { JudgedHeadFaultStands }
{}

/// Where a `moov` has a sound tree, no fault of it is named, apart from tables, and the tree that
/// is answered is that one.
pub fn sound_head_is_judged()
    ensures { SoundHeadIsJudged }
{}

/// Of a `moov` that was written the head is read that was written, or no memory was to be had:
/// where its head is read, and else its first fault is named.
pub fn written_head_is_read()
    ensures { WrittenHeadIsRead }
{}
