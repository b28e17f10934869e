//! What no clause of `vpr_text` says: known texts and numbers, memory that runs out, and readers
//! and writers that fail. They are here, where they are proved at the same time as other crates: in
//! `vpr_text` all others would wait for them.

ghost use Rattle.std.specs.Prelude.{◌≡◌, Some};

use std::alloc::Global;
use std::io::{self, Cursor, ErrorKind, Read, Write};
use std::process::Abort;
use std::test::Fail;
use vpr_text::{
    Adapted, Broken, ByteSink, ByteSource, Lines, OutputBuffer, ReadFault, TextFault, fixed,
    is_decimal, lines, number, read_all,
};

/// The lines of a text, at the second try where memory ran out at the first.
fn lines_again(alloc: Global, text: &[u8]) -> Result<Lines<'_>, TextFault> {
    match lines(alloc, text) {
        Err(TextFault::Memory) => lines(alloc, text),
        other => other,
    }
}

/// Looks at one line: its number, and its words joined by commas.
fn expect_line(rt: &impl Abort, text: &Lines<'_>, i: usize, number: u32, words: &[&[u8]]) {
    assert!(rt; i < text.len(), "line {i} is missing");
    assert_eq!(rt; text.at(i), number, "number of line {i}");
    assert_eq!(rt; text.words(i), words.len(), "words of line {i}");
    for (j, word) in words.iter().enumerate() {
        assert!(rt; text.word(i, j) == Some(*word), "word {j} of line {i}");
    }
    assert!(rt;
        text.word(i, words.len()).is_none(),
        "line {i} has more words"
    );
}

#[test]
fn splits_lines_and_words(rt: HostRuntime) -> Result<(), Fail> {
    let text = lines(rt.alloc(), b"a b \\\n c # x\n\nd \\")?;
    assert_eq!(rt; text.len(), 2);
    expect_line(&rt, &text, 0, 1, &[b"a", b"b", b"c"]);
    expect_line(&rt, &text, 1, 4, &[b"d"]);
    assert!(rt; text.word(2, 0).is_none());

    let text = lines(
        rt.alloc(),
        b"\t\x0bone\x0c\rtwo \x80#\\\n\n#\nthree\\\\\n\\\n\tfour\\x\\ \n\n five",
    )?;
    assert_eq!(rt; text.len(), 3);
    expect_line(&rt, &text, 0, 1, &[b"one", b"two", b"\x80"]);
    expect_line(&rt, &text, 1, 4, &[b"three\\", b"four\\x"]);
    expect_line(&rt, &text, 2, 8, &[b"five"]);

    assert!(rt; lines(rt.alloc(), b"")?.is_empty());
    assert!(rt; lines(rt.alloc(), b" # \\\n\\\n")?.is_empty());
    Ok(())
}

#[test]
fn names_the_first_bad_byte(rt: HostRuntime) {
    let cases: [(&[u8], u32); 6] = [
        (b"a\n\0\n", 2),
        (b"\x08\n\0", 1),
        (b"a # \x7f\n", 1),
        (b"a \\\n\\\n\x0e", 3),
        (b"\n\n\n\x1f", 4),
        (b"\x80\n\xff\n\t\x0b\x0c\r\x01", 3),
    ];
    for (text, number) in cases {
        assert!(rt;
            lines(rt.alloc(), text).err() == Some(TextFault::BadByte(number)),
            "line {number}"
        );
    }
}

#[test]
fn takes_so_many_bytes(rt: HostRuntime) -> Result<(), Fail> {
    let mut text = vec![in rt.alloc(); b'\n'; 16_777_216]?;
    assert!(rt; lines(rt.alloc(), &text)?.is_empty());
    text.push(0)?;
    assert!(rt; lines(rt.alloc(), &text).err() == Some(TextFault::TooLong));
    Ok(())
}

#[test]
fn splits_without_memory(rt: HostRuntime) -> Result<(), Fail> {
    let text = b"a b c d e\nf g\nh\ni\nj\nk\n";
    let split = lines_again(rt.alloc(), text)?;
    assert_eq!(rt; split.len(), 6);
    expect_line(&rt, &split, 0, 1, &[b"a", b"b", b"c", b"d", b"e"]);
    expect_line(&rt, &split, 5, 6, &[b"k"]);
    Ok(())
}

#[test]
fn reads_numbers(rt: HostRuntime) {
    let numbers: [(&[u8], Option<u32>); 8] = [
        (b"0", Some(0)),
        (b"4294967295", Some(4_294_967_295)),
        (b"4294967296", None),
        (b"00000000000000000000012", Some(12)),
        (b"99999999999999999999999", None),
        (b"", None),
        (b"1x", None),
        (b"-1", None),
    ];
    for (word, value) in numbers {
        assert_eq!(rt; number(word), value);
    }
    let fixed_numbers: [(&[u8], Option<u64>); 12] = [
        (b"0.25", Some(250_000_000)),
        (b"1.", Some(1_000_000_000)),
        (b".5", Some(500_000_000)),
        (b"1.0000000001", None),
        (b"0.000000001", Some(1)),
        (b"007", Some(7_000_000_000)),
        (b"18446744073.709551615", Some(18_446_744_073_709_551_615)),
        (b"18446744073.709551616", None),
        (b".", None),
        (b"", None),
        (b"1.2.3", None),
        (b"+1", None),
    ];
    for (word, value) in fixed_numbers {
        assert_eq!(rt; fixed(word), value);
    }
    let decimals: [&[u8]; 8] = [
        b"1",
        b"1.",
        b".5",
        b"-1.5e-12",
        b"+3E+04",
        b"0e0",
        b"-.0E7",
        b"12.34",
    ];
    for word in decimals {
        assert!(rt; is_decimal(word));
    }
    let others: [&[u8]; 10] = [
        b"", b".", b"e1", b"1e", b"1e+", b"--1", b"1.2.3", b"1e2.", b"1e2e3", b"0x1",
    ];
    for word in others {
        assert!(rt; !is_decimal(word));
    }
}

/// Gives its bytes two at a time, and fails after some calls.
#[derive(Drop)]
struct FailingSource<'a> {
    rest: &'a [u8],
    calls: usize,
    failed: bool,
}

impl ByteSource for FailingSource<'_> {
    ghost remaining = { λ s. Some s.rest.now };

    ghost failed = { λ s. s.failed };

    fn take(&mut self, buffer: &mut [u8]) -> Result<usize, Broken> {
        if self.calls == 0 || self.failed {
            self.failed = true;
            return Err(Broken);
        }
        self.calls -= 1;
        let rest = self.rest;
        let count = rest.len().min(buffer.len()).min(2);
        buffer[..count].copy_from_slice(&rest[..count]);
        self.rest = &rest[count..];
        Ok(count)
    }
}

#[test]
fn reads_a_source_whole(rt: HostRuntime) -> Result<(), Fail> {
    let mut source = Adapted::new(b"abc".as_slice());
    assert_eq!(rt;
        read_all(rt.alloc(), &mut source)?.as_slice(),
        b"abc".as_slice()
    );
    assert!(rt; read_all(rt.alloc(), &mut source)?.is_empty());
    assert!(rt; source.get_ref().is_empty());

    let mut source = Adapted::new(Cursor::new(b"abc".as_slice()));
    let mut buffer = [0u8; 2];
    assert_eq!(rt; source.take(&mut buffer)?, 2);
    assert_eq!(rt; buffer, *b"ab");
    assert_eq!(rt; source.take(&mut buffer)?, 1);
    assert_eq!(rt; source.take(&mut buffer)?, 0);
    Ok(())
}

#[test]
fn a_failing_source_fails_for_good(rt: HostRuntime) -> Result<(), Fail> {
    for calls in 0..4 {
        let mut source = FailingSource {
            rest: b"abcde",
            calls,
            failed: false,
        };
        assert!(rt;
            read_all(rt.alloc(), &mut source).err() == Some(ReadFault::Failed),
            "{calls}"
        );
        assert!(rt; source.failed);
        assert!(rt;
            read_all(rt.alloc(), &mut source).err() == Some(ReadFault::Failed),
            "{calls}"
        );
    }
    let mut source = FailingSource {
        rest: b"abcde",
        calls: 4,
        failed: false,
    };
    assert_eq!(rt;
        read_all(rt.alloc(), &mut source)?.as_slice(),
        b"abcde".as_slice()
    );
    Ok(())
}

#[test]
fn reads_one_byte_more_than_a_text_has(rt: HostRuntime) -> Result<(), Fail> {
    let bytes = vec![in rt.alloc(); b'\n'; 16_777_219]?;
    let mut source = Adapted::new(bytes.as_slice());
    assert_eq!(rt; read_all(rt.alloc(), &mut source)?.len(), 16_777_217);
    assert_eq!(rt; source.get_ref().len(), 2);
    Ok(())
}

#[test]
fn reads_without_memory(rt: HostRuntime) -> Result<(), Fail> {
    let bytes = [b'x'; 40_000];
    let mut source = Adapted::new(bytes.as_slice());
    match read_all(rt.alloc(), &mut source) {
        Err(ReadFault::Memory) => {
            let left = source.get_ref().len();
            assert!(rt; left < 40_000);
            assert_eq!(rt; read_all(rt.alloc(), &mut source)?.len(), left);
        }
        other => assert_eq!(rt; other?.len(), 40_000),
    }
    Ok(())
}

/// Takes at most three bytes at a time, and fails once it has no room.
#[derive(Drop)]
struct FailingSink {
    bytes: Vec<u8>,
    room: usize,
    failed: bool,
}

impl ByteSink for FailingSink {
    ghost taken = { λ s. Some s.bytes.items };

    ghost failed = { λ s. s.failed };

    fn put(&mut self, bytes: &[u8]) -> Result<usize, Broken> {
        let count = bytes.len().min(3).min(self.room);
        if count == 0 || self.failed || self.bytes.extend_from_slice(&bytes[..count]).is_err() {
            self.failed = true;
            return Err(Broken);
        }
        self.room -= count;
        Ok(count)
    }
}

/// Writes a text in several pushes.
fn write_text<W: ByteSink>(sink: &mut W, long: &[u8]) -> Result<(), Broken> {
    let mut buffer = OutputBuffer::new();
    buffer.push(sink, b"abc");
    buffer.push(sink, b"");
    buffer.push(sink, b"defgh");
    buffer.push(sink, long);
    buffer.push(sink, b"ijk");
    buffer.finish(sink)
}

#[test]
fn writes_all_through_a_buffer(rt: HostRuntime) -> Result<(), Fail> {
    let mut sink = Adapted::new(Vec::new(rt.alloc()));
    write_text(&mut sink, b"-")?;
    assert_eq!(rt; sink.into_inner().as_slice(), b"abcdefgh-ijk".as_slice());

    let long = vec![in rt.alloc(); b'-'; 20_000]?;
    for len in [8_183, 8_184, 8_185, 8_192, 8_193, 20_000] {
        assert!(rt; len <= long.len());
        let mut sink = Adapted::new(Vec::new(rt.alloc()));
        write_text(&mut sink, &long[..len])?;
        let written = sink.into_inner();
        assert_eq!(rt; written.len(), len + 11);
        assert!(rt;
            written.starts_with(b"abcdefgh-") && written.ends_with(b"-ijk"),
            "{len}"
        );
    }
    Ok(())
}

#[test]
fn a_failing_sink_takes_a_front(rt: HostRuntime) -> Result<(), Fail> {
    let whole = b"abcdefgh-ijk";
    for room in 0..16 {
        let mut sink = FailingSink {
            bytes: Vec::new(rt.alloc()),
            room,
            failed: false,
        };
        let result = write_text(&mut sink, b"-");
        assert_eq!(rt; result.is_err(), room < 12, "{room}");
        assert_eq!(rt; sink.failed, room < 12, "{room}");
        assert!(rt; whole.starts_with(sink.bytes.as_slice()), "{room}");
        assert_eq!(rt; sink.bytes.len(), room.min(12), "{room}");
        if sink.failed {
            assert!(rt; write_text(&mut sink, b"-").is_err(), "{room}");
            assert_eq!(rt; sink.bytes.len(), room, "{room}");
        }
    }
    Ok(())
}

#[test]
fn a_writer_that_takes_nothing_is_broken(rt: HostRuntime) {
    let mut room = [0u8; 2];
    let mut sink = Adapted::new(room.as_mut_slice());
    assert!(rt; sink.put(b"abc") == Ok(2));
    assert!(rt; sink.put(b"c") == Err(Broken));
    assert!(rt; sink.put(b"c") == Err(Broken));
}

/// A reader or a writer with one interrupted call; those before and after it succeed.
#[derive(Drop)]
struct InterruptedOnce<T> {
    inner: T,
    calls: u32,
    interrupted: u32,
}

impl<T> InterruptedOnce<T> {
    /// Counts a call, and fails if it is that one.
    fn call(&mut self) -> io::Result<()>
        ensures { self.new.inner ≡ self.old.inner }
    {
        let call = self.calls;
        self.calls = call.saturating_add(1);
        if call == self.interrupted {
            return Err(io::Error::from(ErrorKind::Interrupted));
        }
        Ok(())
    }
}

impl Read for InterruptedOnce<&[u8]> {
    ghost remaining = { λ r. Some r.inner.now };

    fn read(&mut self, buffer: &mut [u8]) -> io::Result<usize> {
        self.call()?;
        self.inner.read(buffer)
    }
}

impl Write for InterruptedOnce<Vec<u8>> {
    ghost contents = { λ w. Some w.inner.items };

    fn write(&mut self, bytes: &[u8]) -> io::Result<usize> {
        self.call()?;
        self.inner.write(bytes)
    }

    fn flush(&mut self) -> io::Result<()> {
        Ok(())
    }
}

#[test]
fn an_interrupted_reader_is_broken_for_good(rt: HostRuntime) {
    for interrupted in 0..3 {
        let mut source = Adapted::new(InterruptedOnce {
            inner: b"abcde".as_slice(),
            calls: 0,
            interrupted,
        });
        let mut buffer = [0u8; 1];
        for call in 0..6 {
            let taken = if call < interrupted {
                Ok(1)
            } else {
                Err(Broken)
            };
            assert!(rt;
                source.take(&mut buffer) == taken,
                "{call} of {interrupted}"
            );
        }
        assert!(rt;
            read_all(rt.alloc(), &mut source).err() == Some(ReadFault::Failed),
            "{interrupted}"
        );
        let reader = source.into_inner();
        assert_eq!(rt; reader.calls, interrupted + 1);
        assert_eq!(rt; reader.inner.len(), 5 - interrupted as usize);
    }
}

#[test]
fn an_interrupted_writer_is_broken_for_good(rt: HostRuntime) {
    for interrupted in 0..3 {
        let mut sink = Adapted::new(InterruptedOnce {
            inner: Vec::new(rt.alloc()),
            calls: 0,
            interrupted,
        });
        for call in 0..6 {
            let taken = if call < interrupted {
                Ok(1)
            } else {
                Err(Broken)
            };
            assert!(rt; sink.put(b"a") == taken, "{call} of {interrupted}");
        }
        assert!(rt; write_text(&mut sink, b"-").is_err(), "{interrupted}");
        let writer = sink.into_inner();
        assert_eq!(rt; writer.calls, interrupted + 1);
        assert_eq!(rt; writer.inner.len(), interrupted as usize);
    }
}
