//! A sink that keeps a window of what is put.
ghost use Rattle.std.specs.Prelude.{◌≡◌, ◌+◌, ◌-◌, ◌≤◌, min, length, []};
ghost use Rattle.std.specs.List.{splice};

use mp4_store::{Sink, WriteFailed};

/// Keeps what is put from a place on in a buffer, until that is full: from then on a put that has
/// more fails.
#[derive(Drop)]
pub(crate) struct WindowSink<'a> {
    skip: u64,
    room: &'a mut [u8],
    filled: usize,
    failed: u64,
}

// Copies bytes to a place of a buffer, of which the length stays.
fn copy_in(room: &mut [u8], at: usize, bytes: &[u8])
    requires { at + length bytes.now ≤ length room.old }
    ensures bytes { room.new ≡ splice room.old at (at + length bytes.now) bytes.now }
    ensures many { length room.new ≡ length room.old }
{
    room[at..at + bytes.len()].copy_from_slice(bytes);
}

impl<'a> WindowSink<'a> {
    ghost use Rattle.std.specs.Prelude.{◌≡◌, [], length, false};
    ghost use Rattle.mp4norm_c.specs.words.Windows.{Keeps, Kept};

    /// The window from this place on; nothing is put yet.
    pub(crate) fn new(skip: u64, room: &'a mut [u8]) -> WindowSink<'a>
        ensures same { result.room.ghost_name ≡ room.entry.ghost_name }
        ensures empty { Keeps skip room.old result [] }
        ensures sound { result.failed ≡ 0 }
    {
        WindowSink {
            skip,
            room,
            filled: 0,
            failed: 0,
        }
    }

    /// How many bytes of the window are there.
    pub(crate) fn filled(&self) -> u64
        ensures { result ≡ self.now.filled }
    {
        self.filled as u64
    }

    /// Keeps what belongs to the window. Whether all of it that lies behind its beginning had room.
    pub(crate) fn keep(&mut self, piece: &[u8]) -> bool
        ensures failed { self.new.failed ≡ self.old.failed }
        ensures kept { Kept self.old self.new piece.now }
        ensures full { result ≡ false → self.new.filled ≡ length self.new.room.now }
    {
        let skipped = (piece.len() as u64).min(self.skip);
        self.skip -= skipped;
        let rest = &piece[skipped as usize..];
        let filled = self.filled.min(self.room.len());
        let count = rest.len().min(self.room.len() - filled);
        copy_in(self.room, filled, &rest[..count]);
        self.filled = filled + count;
        count == rest.len()
    }
}

impl Sink for WindowSink<'_> {
    ghost use Rattle.mp4norm_c.specs.words.Windows.{Kept, kept_nothing, kept_on};

    ghost takes = { Kept };

    ghost put_failures = { λ s. s.failed };

    fn put(&mut self, piece: &[u8]) -> Result<(), WriteFailed> {
        if self.keep(piece) {
            return Ok(());
        }
        self.failed = self.failed.saturating_add(1);
        Err(WriteFailed)
    }

    ghost takes_nothing = { kept_nothing };

    ghost takes_on = { kept_on };
}
