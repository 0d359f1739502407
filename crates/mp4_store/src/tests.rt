//! Stores and sinks: real files, slow writers, bytes in memory, a store that reads ahead, and one
//! of parts.
ghost use Rattle.std.specs.Prelude.{◌<◌, None, false, replicate};

use super::*;
use std::fs::File;
use std::io::Write;
use std::test::Fail;
use std::{fs, io};

// How a writer answers.
#[derive(Clone, Copy, PartialEq)]
enum WriterAnswer {
    OneByte,
    Nothing,
    Interrupted,
}

// Keeps the first bytes that it takes.
#[derive(Drop)]
struct Slow {
    answer: WriterAnswer,
    // So many calls were interrupted.
    interrupted: u8,
    held: [u8; 8],
    len: usize,
}

impl Write for &mut Slow {
    fn write(&mut self, buf: &[u8]) -> io::Result<usize> {
        match self.answer {
            WriterAnswer::Interrupted if self.interrupted < 3 => {
                self.interrupted += 1;
                Err(io::Error::from(io::ErrorKind::Interrupted))
            }
            WriterAnswer::OneByte | WriterAnswer::Interrupted if !buf.is_empty() && self.len < 8 =>
                {
                    self.held[self.len] = buf[0];
                    self.len += 1;
                    Ok(1)
                }
            _ => Ok(0),
        }
    }

    fn flush(&mut self) -> io::Result<()> {
        Ok(())
    }
}

#[test]
fn writers_of_all_kinds(rt: HostRuntime) {
    for (answer, want) in [
        (WriterAnswer::OneByte, Ok(())),
        (WriterAnswer::Nothing, Err(WriteFailed)),
        (WriterAnswer::Interrupted, Ok(())),
    ] {
        let mut slow = Slow {
            answer,
            interrupted: 0,
            held: [0; 8],
            len: 0,
        };
        let mut sink = IoSink::new(&mut slow);
        assert_eq!(rt; sink.put(b"hello"), want);
        if answer != WriterAnswer::Nothing {
            assert_eq!(rt; slow.held, *b"hello\0\0\0");
        }
    }
}

#[test]
fn a_real_file(rt: HostRuntime) -> Result<(), Fail> {
    fs::write(&rt, "whole.bin", b"0123456789".as_slice())?;
    let mut store = FileStore::new(File::open(&rt, "whole.bin")?)?;
    assert_eq!(rt; store.len(), 10);
    let mut out = [0u8; 4];
    assert!(rt; 10 <= store.len());
    assert_eq!(rt; store.read_at(6, &mut out), Ok(()));
    assert_eq!(rt; out, *b"6789");
    assert_eq!(rt; store.read_at(0, &mut out), Ok(()));
    assert_eq!(rt; out, *b"0123");
    Ok(())
}

#[test]
fn a_file_cut_after_it_was_opened(rt: HostRuntime) -> Result<(), Fail> {
    fs::write(&rt, "cut.bin", b"0123456789".as_slice())?;
    let mut store = FileStore::new(File::open(&rt, "cut.bin")?)?;
    fs::write(&rt, "cut.bin", b"01234567".as_slice())?;
    let mut out = [0u8; 4];
    assert!(rt; 10 <= store.len());
    assert_eq!(rt; store.read_at(6, &mut out), Err(StoreFailed));
    assert_eq!(rt; store.read_at(4, &mut out), Ok(()));
    assert_eq!(rt; out, *b"4567");
    Ok(())
}

// The ten digits, read by place: at most so many at a time, and so many calls are interrupted
// first.
#[derive(Drop)]
struct Digits {
    most: usize,
    interrupted: u32,
    fails: bool,
}

impl Placed for Digits {
    ghost known = { λ _. None };

    ghost is_sound = { λ _. false };

    fn read_some(&mut self, out: &mut [u8], at: u64) -> io::Result<usize> {
        if self.fails {
            return Err(io::Error::from(io::ErrorKind::Other));
        }
        if self.interrupted > 0 {
            self.interrupted -= 1;
            return Err(io::Error::from(io::ErrorKind::Interrupted));
        }
        let left = &b"0123456789"[at.min(10) as usize..];
        let count = left.len().min(out.len()).min(self.most);
        out[..count].copy_from_slice(&left[..count]);
        Ok(count)
    }
}

#[test]
fn reads_by_place_of_all_kinds(rt: HostRuntime) {
    for (most, interrupted, fails, want) in [
        (10, 0, false, Ok(())),
        (1, 0, false, Ok(())),
        (3, 5, false, Ok(())),
        (0, 0, false, Err(StoreFailed)),
        (10, 0, true, Err(StoreFailed)),
    ] {
        let digits = Digits {
            most,
            interrupted,
            fails,
        };
        let mut store = FileStore::over(digits, 12);
        let mut out = [0u8; 7];
        assert!(rt; 12 <= store.len());
        assert_eq!(rt; store.read_at(2, &mut out), want);
        if want == Ok(()) {
            assert_eq!(rt; out, *b"2345678");
            // Two of these bytes are not there.
            assert_eq!(rt; store.read_at(5, &mut out), Err(StoreFailed));
        }
    }
}

#[test]
fn bytes_in_memory(rt: HostRuntime) -> Result<(), Fail> {
    let mut store = MemStore::new(b"abc");
    let mut out = [0u8; 2];
    assert_eq!(rt; store.read_at(1, &mut out), Ok(()));
    let mut sink = MemSink::new(rt.alloc());
    assert_eq!(rt; sink.put(&out), Ok(()));
    assert_eq!(rt; sink.put(b"d"), Ok(()));
    assert_eq!(rt; sink.bytes(), b"bcd".as_slice());
    Ok(())
}

// A store in which each place says its byte. It counts its reads, keeps the length of the last one,
// and fails those of more than `most` bytes.
#[derive(Drop)]
struct Places {
    most: usize,
    reads: u64,
    last: usize,
    failed: u64,
}

// None was read yet.
fn below_for(most: usize) -> Places {
    Places {
        most,
        reads: 0,
        last: 0,
        failed: 0,
    }
}

// The byte at a place.
fn byte_at(place: u64) -> u8 {
    (place % 251) as u8
}

// Whether these are the bytes from a place on.
fn are_from(at: u64, bytes: &[u8]) -> bool {
    let mut place = at;
    for byte in bytes {
        if *byte != byte_at(place) {
            return false;
        }
        place = place.saturating_add(1);
    }
    true
}

impl Store for &mut Places {
    ghost is_honest = { λ _. false };

    ghost file = { λ _. replicate 100000 0 };

    ghost read_failures = { λ s. s.now.failed };

    fn len(&self) -> u64 {
        100_000
    }

    fn read_at(&mut self, at: u64, out: &mut [u8]) -> Result<(), StoreFailed> {
        self.reads = self.reads.saturating_add(1);
        self.last = out.len();
        if out.len() > self.most {
            self.failed = self.failed.saturating_add(1);
            return Err(StoreFailed);
        }
        let mut place = at;
        for byte in out.iter_mut() {
            *byte = byte_at(place);
            place = place.saturating_add(1);
        }
        Ok(())
    }
}

#[test]
fn short_reads_read_ahead(rt: HostRuntime) -> Result<(), Fail> {
    let mut below = below_for(usize::MAX);
    let mut header = [0u8; 16];
    let mut payload = [0u8; 1024];
    {
        let mut store = BufferedStore::new(rt.alloc(), &mut below)?;
        assert_eq!(rt; store.len(), 100_000);
        assert!(rt; 100_000 <= store.len());
        assert_eq!(rt; store.read_at(5000, &mut header), Ok(()));
        assert!(rt; are_from(5000, &header));
        assert_eq!(rt; store.read_at(5016, &mut payload), Ok(()));
        assert!(rt; are_from(5016, &payload));
        assert_eq!(rt; store.read_at(9080, &mut header), Ok(()));
        assert!(rt; are_from(9080, &header));
        // Neither a header nor behind these bytes.
        assert_eq!(rt; store.read_at(70_000, &mut payload), Ok(()));
        assert!(rt; are_from(70_000, &payload));
    }
    assert_eq!(rt; (below.reads, below.last), (2, 1024));
    Ok(())
}

#[test]
fn other_reads_go_below(rt: HostRuntime) -> Result<(), Fail> {
    let mut below = below_for(usize::MAX);
    let mut header = [0u8; 16];
    let mut payload = [0u8; 2057];
    {
        let mut store = BufferedStore::new(rt.alloc(), &mut below)?;
        assert!(rt; 100_000 <= store.len());
        assert_eq!(rt; store.read_at(40_000, &mut header), Ok(()));
        // More than a fourth of what would be read ahead, and its last byte lies behind those that
        // were.
        assert_eq!(rt; store.read_at(42_040, &mut payload), Ok(()));
        assert!(rt; are_from(42_040, &payload));
    }
    assert_eq!(rt; (below.reads, below.last), (2, 2057));
    Ok(())
}

#[test]
fn headers_and_data_by_turns(rt: HostRuntime) -> Result<(), Fail> {
    let mut below = below_for(usize::MAX);
    let mut header = [0u8; 16];
    let mut payload = [0u8; 1000];
    {
        let mut store = BufferedStore::new(rt.alloc(), &mut below)?;
        assert!(rt; 100_000 <= store.len());
        // The first of the data is read as it is, the second reads ahead.
        for turn in 0u64..5 {
            assert_eq!(rt; store.read_at(16 * turn, &mut header), Ok(()));
            assert!(rt; are_from(16 * turn, &header));
            assert_eq!(rt; store.read_at(50_000 + 1000 * turn, &mut payload), Ok(()));
            assert!(rt; are_from(50_000 + 1000 * turn, &payload));
        }
    }
    assert_eq!(rt; (below.reads, below.last), (3, 4096));
    Ok(())
}

#[test]
fn how_far_is_read_ahead(rt: HostRuntime) -> Result<(), Fail> {
    let mut header = [0u8; 16];
    // Each place is read in turn. The first two lie near one another; of the third one it counts
    // whether it lies near behind them, far behind, near in front, far in front, or at the end.
    for (first, second, third, want) in [
        (0u64, 20_000u64, 44_608u64, 8224usize),
        (0, 20_000, 44_609, 4096),
        (0, 20_000, 3600, 8224),
        (0, 20_000, 3599, 4096),
        (60_000, 80_000, 99_984, 16),
    ] {
        let mut below = below_for(usize::MAX);
        {
            let mut store = BufferedStore::new(rt.alloc(), &mut below)?;
            assert!(rt; 100_000 <= store.len());
            assert_eq!(rt; store.read_at(first, &mut header), Ok(()));
            assert_eq!(rt; store.read_at(second, &mut header), Ok(()));
            assert_eq!(rt; store.read_at(third, &mut header), Ok(()));
            assert!(rt; are_from(third, &header));
        }
        assert_eq!(rt; (below.reads, below.last), (3, want));
    }
    Ok(())
}

#[test]
fn headers_backwards(rt: HostRuntime) -> Result<(), Fail> {
    let mut below = below_for(usize::MAX);
    let mut header = [0u8; 16];
    {
        let mut store = BufferedStore::new(rt.alloc(), &mut below)?;
        assert!(rt; 100_000 <= store.len());
        for turn in 0u64..4 {
            assert_eq!(rt; store.read_at(90_000 - 1000 * turn, &mut header), Ok(()));
            assert!(rt; are_from(90_000 - 1000 * turn, &header));
        }
    }
    // The second of them from 86,944 on.
    assert_eq!(rt; (below.reads, below.last), (2, 8224));
    Ok(())
}

#[test]
fn what_cannot_be_read_ahead(rt: HostRuntime) -> Result<(), Fail> {
    let mut below = below_for(16);
    let mut header = [0u8; 16];
    let mut payload = [0u8; 17];
    {
        let mut store = BufferedStore::new(rt.alloc(), &mut below)?;
        assert!(rt; 100_000 <= store.len());
        // Just the bytes that are asked for are read, and that works.
        assert_eq!(rt; store.read_at(40_000, &mut header), Ok(()));
        assert!(rt; are_from(40_000, &header));
        assert_eq!(rt; store.read_at(40_000, &mut payload), Err(StoreFailed));
        assert_eq!(rt; store.read_at(0, &mut header), Ok(()));
        assert!(rt; are_from(0, &header));
    }
    assert_eq!(rt; (below.reads, below.failed), (6, 4));
    Ok(())
}

#[test]
fn a_real_file_read_ahead(rt: HostRuntime) -> Result<(), Fail> {
    fs::write(&rt, "ahead.bin", b"0123456789".as_slice())?;
    let file = FileStore::new(File::open(&rt, "ahead.bin")?)?;
    let mut store = BufferedStore::new(rt.alloc(), file)?;
    assert_eq!(rt; store.len(), 10);
    let mut out = [0u8; 4];
    assert!(rt; 10 <= store.len());
    assert_eq!(rt; store.read_at(2, &mut out), Ok(()));
    assert_eq!(rt; out, *b"2345");
    // What was read ahead is still there, what lies before it is not.
    fs::write(&rt, "ahead.bin", b"xxxxxxxxxx".as_slice())?;
    assert_eq!(rt; store.read_at(6, &mut out), Ok(()));
    assert_eq!(rt; out, *b"6789");
    assert_eq!(rt; store.read_at(0, &mut out), Ok(()));
    assert_eq!(rt; out, *b"xxxx");
    Ok(())
}

// A store of no bytes that can be read, of this length.
#[derive(Drop)]
struct Long {
    size: u64,
}

impl Store for Long {
    ghost is_honest = { λ _. false };

    ghost file = { λ s. replicate s.size 0 };

    ghost read_failures = { λ _. 18446744073709551615 };

    fn len(&self) -> u64 {
        self.size
    }

    fn read_at(&mut self, _at: u64, _out: &mut [u8]) -> Result<(), StoreFailed> {
        Err(StoreFailed)
    }
}

#[test]
fn parts_as_one(rt: HostRuntime) -> Result<(), Fail> {
    // Parts of no bytes at the front, between others and at the end.
    let parts = vec![in rt.alloc();
        MemStore::new(b""),
        MemStore::new(b"012"),
        MemStore::new(b""),
        MemStore::new(b""),
        MemStore::new(b"3"),
        MemStore::new(b"456789"),
        MemStore::new(b""),
    ]?;
    let joined = JoinedStore::new(rt.alloc(), parts)?;
    assert!(rt; joined.is_some());
    if let Some(mut store) = joined {
        assert_eq!(rt; store.len(), 10);
        assert_eq!(rt; store.parts().len(), 7);
        let whole = *b"0123456789";
        for at in 0usize..11 {
            for end in at..11 {
                let mut out = [0u8; 10];
                assert!(rt; end as u64 <= store.len());
                assert_eq!(rt; store.read_at(at as u64, &mut out[at..end]), Ok(()));
                assert_eq!(rt; &out[at..end], &whole[at..end]);
            }
        }
        for (at, part, offset) in [
            (0u64, 1usize, 0u64),
            (2, 1, 2),
            (3, 4, 0),
            (4, 5, 0),
            (9, 5, 5),
        ] {
            assert_eq!(rt; store.place(at), Some(PartPlace { part, offset }));
        }
        assert_eq!(rt; store.place(10), None);
    }
    Ok(())
}

#[test]
fn no_parts(rt: HostRuntime) -> Result<(), Fail> {
    let parts: Vec<MemStore> = Vec::new(rt.alloc());
    let joined = JoinedStore::new(rt.alloc(), parts)?;
    assert!(rt; joined.is_some());
    if let Some(mut store) = joined {
        assert_eq!(rt; store.len(), 0);
        assert_eq!(rt; store.read_at(0, &mut []), Ok(()));
        assert_eq!(rt; store.place(0), None);
    }
    Ok(())
}

#[test]
fn a_word_at_some_places(rt: HostRuntime) -> Result<(), Fail> {
    let places = vec![in rt.alloc(); 0u64, 6, 10, 13]?;
    let mut store = LaidStore::new(MemStore::new(b"0123456789abcdefg"), *b"free", places);
    assert_eq!(rt; store.len(), 17);
    let whole = *b"free45freefrefree";
    for at in 0usize..18 {
        for end in at..18 {
            let mut out = [0u8; 17];
            assert!(rt; end as u64 <= store.len());
            assert_eq!(rt; store.read_at(at as u64, &mut out[at..end]), Ok(()));
            assert_eq!(rt; &out[at..end], &whole[at..end]);
        }
    }
    Ok(())
}

#[test]
fn as_many_bytes_as_can_be_counted(rt: HostRuntime) -> Result<(), Fail> {
    let half = 1u64 << 63;
    for (second, fits) in [(half - 1, true), (half, false)] {
        let parts = vec![in rt.alloc(); Long { size: half }, Long { size: second }]?;
        let joined = JoinedStore::new(rt.alloc(), parts)?;
        assert_eq!(rt; joined.is_some(), fits);
        if let Some(mut store) = joined {
            let mut out = [0u8; 2];
            assert_eq!(rt; store.len(), u64::MAX);
            assert_eq!(rt; store.read_at(half - 1, &mut out), Err(StoreFailed));
        }
    }
    Ok(())
}

#[test]
fn a_read_of_a_part_that_fails(rt: HostRuntime) -> Result<(), Fail> {
    let mut first = below_for(usize::MAX);
    let mut second = below_for(16);
    {
        let mut parts = Vec::new(rt.alloc());
        parts.push(&mut first)?;
        parts.push(&mut second)?;
        let joined = JoinedStore::new(rt.alloc(), parts)?;
        assert!(rt; joined.is_some());
        if let Some(mut store) = joined {
            let mut out = [0u8; 20];
            assert!(rt; 200_000 <= store.len());
            // The first 4 bytes of the second part, 16 of them, and 17.
            assert_eq!(rt; store.read_at(99_984, &mut out), Ok(()));
            // 99,999 is 398 times 251 and 101.
            assert_eq!(rt; (out[0], out[15], out[16], out[19]), (86, 101, 0, 3));
            assert_eq!(rt; store.read_at(99_996, &mut out), Ok(()));
            assert_eq!(rt; store.read_at(99_997, &mut out), Err(StoreFailed));
            // Only the part in which its bytes lie is read.
            assert_eq!(rt; store.read_at(80_000, &mut out), Ok(()));
        }
    }
    assert_eq!(rt; (first.reads, second.reads, second.failed), (4, 3, 1));
    Ok(())
}

#[test]
fn parts_read_ahead(rt: HostRuntime) -> Result<(), Fail> {
    let mut first = below_for(usize::MAX);
    let mut second = below_for(usize::MAX);
    {
        let mut parts = Vec::new(rt.alloc());
        parts.push(&mut first)?;
        parts.push(&mut second)?;
        let joined = JoinedStore::new(rt.alloc(), parts)?;
        assert!(rt; joined.is_some());
        if let Some(joined) = joined {
            let mut store = BufferedStore::new(rt.alloc(), joined)?;
            let mut header = [0u8; 16];
            assert!(rt; 200_000 <= store.len());
            assert_eq!(rt; store.read_at(99_000, &mut header), Ok(()));
            assert_eq!(rt; store.read_at(99_992, &mut header), Ok(()));
            assert_eq!(rt; store.read_at(100_008, &mut header), Ok(()));
            assert!(rt; are_from(8, &header));
        }
    }
    assert_eq!(rt; (first.reads, second.reads), (1, 1));
    Ok(())
}

#[test]
fn a_part_is_replaced(rt: HostRuntime) -> Result<(), Fail> {
    let parts = vec![in rt.alloc(); Long { size: 3 }, Long { size: 4 }]?;
    let joined = JoinedStore::new(rt.alloc(), parts)?;
    assert!(rt; joined.is_some());
    if let Some(mut store) = joined {
        let before = store.replace_part(1, Long { size: 4 });
        assert_eq!(rt; (before.size, store.len()), (4, 7));
    }
    Ok(())
}
