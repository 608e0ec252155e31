use lw_fleet::{Fault, OneOptions, bytes_of_hex, one, read_line, write_text};
use lw_stamp::Moment;
use std::alloc::{AllocError, Global};
use std::io::{self, ErrorKind, Read, Write};
use std::process::Abort;
use telling::{AnyFault, tells, tells_in_part};

mod command_line;
mod derived_texts;
mod program;
mod replay;
mod run_command;
mod run_refused;
mod running_server;
mod serving;
mod telling;

/// Gives its bytes a few at a time, and then ends or fails. Every other read is interrupted.
#[derive(Drop)]
struct FewBytes<'a> {
    rest: &'a [u8],
    most: usize,
    fails: bool,
    interrupts: bool,
}

impl<'a> FewBytes<'a> {
    fn new(rest: &'a [u8], most: usize, fails: bool) -> FewBytes<'a> {
        FewBytes {
            rest,
            most,
            fails,
            interrupts: false,
        }
    }
}

impl Read for FewBytes<'_> {
    fn read(&mut self, buf: &mut [u8]) -> io::Result<usize> {
        self.interrupts = !self.interrupts;
        if self.interrupts {
            return Err(io::Error::from(ErrorKind::Interrupted));
        }
        if self.rest.is_empty() && self.fails {
            return Err(io::Error::from(ErrorKind::Other));
        }
        let count = self.most.min(buf.len()).min(self.rest.len());
        let (front, rest) = self.rest.split_at(count);
        buf[..count].copy_from_slice(front);
        self.rest = rest;
        Ok(count)
    }
}

/// How many bytes a writer takes at a time and in all, whether it then fails or takes none, and whether a flush fails.
type Room = (usize, usize, bool, bool);

/// A writer that takes all.
const AMPLE: Room = (4, usize::MAX, false, false);

/// Takes a few bytes at a time while there is room, and then takes none or fails. Every other write is interrupted.
/// What it holds is handed on by a flush, which may fail.
#[derive(Drop)]
struct FewWrites {
    taken: Vec<u8>,
    most: usize,
    room: usize,
    fails: bool,
    interrupts: bool,
    flush_fails: bool,
    flushed: usize,
}

impl FewWrites {
    fn new(alloc: Global, room: Room) -> FewWrites {
        let (most, room, fails, flush_fails) = room;
        FewWrites {
            taken: Vec::new(alloc),
            most,
            room,
            fails,
            interrupts: false,
            flush_fails,
            flushed: 0,
        }
    }

    /// Whether it has taken these bytes.
    fn has(&self, bytes: &[u8]) -> bool {
        self.taken.as_slice() == bytes
    }

    /// Whether it has taken so many bytes, the first of the text.
    fn has_front(&self, text: &[u8], count: usize) -> bool {
        text.get(..count) == Some(self.taken.as_slice())
    }
}

impl Write for FewWrites {
    fn write(&mut self, buf: &[u8]) -> io::Result<usize> {
        self.interrupts = !self.interrupts;
        if self.interrupts {
            return Err(io::Error::from(ErrorKind::Interrupted));
        }
        let count = self.most.min(buf.len()).min(self.room);
        if count == 0 && self.fails {
            return Err(io::Error::from(ErrorKind::Other));
        }
        self.taken.extend_from_slice(&buf[..count])?;
        self.room -= count;
        Ok(count)
    }

    fn flush(&mut self) -> io::Result<()> {
        if self.flush_fails {
            return Err(io::Error::from(ErrorKind::Other));
        }
        self.flushed = self.taken.len();
        Ok(())
    }
}

/// Whether these bytes come, or this fault.
fn is_wanted(given: &Result<Vec<u8>, Fault>, want: Result<&[u8], Fault>) -> bool {
    match given {
        Ok(bytes) => want == Ok(bytes.as_slice()),
        Err(fault) => want == Err(*fault),
    }
}

/// Fails where another line is read of the input, of which so many bytes come at a time and behind which a read may
/// fail.
fn reads(
    rt: &impl Abort,
    alloc: Global,
    (input, most, fails): (&[u8], usize, bool),
    want: Result<&[u8], Fault>,
) {
    let read = read_line(alloc, &mut FewBytes::new(input, most, fails));
    assert!(rt;
        is_wanted(&read, want),
        "{} bytes, {most} at a time",
        input.len()
    );
}

/// Inputs and their first lines.
static LINES: [(&[u8], &[u8]); 5] = [
    (b"", b""),
    (b"\n40", b""),
    (b"4000", b"4000"),
    (b"4000\n50\n", b"4000"),
    (b"40 \r\n", b"40 \r"),
];

/// Tries: read_line
#[test]
fn lines_end_at_the_first_line_feed(rt: HostRuntime) {
    for (input, line) in &LINES {
        for most in [1, 3, 9999] {
            reads(&rt, rt.alloc(), (input, most, false), Ok(line));
        }
    }
}

/// Tries: read_line
#[test]
fn a_read_may_fail_behind_the_line_alone(rt: HostRuntime) {
    let alloc = rt.alloc();
    reads(&rt, alloc, (b"4000", 1, true), Err(Fault::ReadFailed));
    reads(&rt, alloc, (b"4000\n", 1, true), Ok(b"4000"));
}

/// So many `a`.
fn many(rt: &impl Abort, alloc: Global, count: usize) -> Vec<u8> {
    vec![in alloc; b'a'; count].expect(rt, "memory")
}

/// Fails where a line of so many bytes, alone and with a line feed behind it, is read in another way than told.
fn reads_long(rt: &impl Abort, alloc: Global, length: usize, is_too_long: bool) {
    let line = many(rt, alloc, length);
    let mut ended = many(rt, alloc, length);
    ended.push(b'\n').expect(rt, "memory");
    let want = match is_too_long {
        true => Err(Fault::TooLong),
        false => Ok(line.as_slice()),
    };
    reads(rt, alloc, (&line, usize::MAX, false), want);
    reads(rt, alloc, (&ended, usize::MAX, false), want);
}

/// How many bytes a line has.
static LENGTHS: [usize; 9] = [0, 1, 4095, 4096, 4097, 8192, 100_000, 1_048_575, 1_048_576];

/// Tries: read_line
#[test]
fn lines_up_to_the_longest(rt: HostRuntime) {
    for length in &LENGTHS {
        reads_long(&rt, rt.alloc(), *length, false);
    }
    reads_long(&rt, rt.alloc(), 1_048_577, true);
}

/// What is written.
const TEXT: &[u8] = b"fleet\n";

/// Fails where the text is written to such a writer in another way: with another outcome, with other bytes than its
/// first, or with other than so many that are flushed.
fn writes(rt: &impl Abort, alloc: Global, room: Room, want: Result<(), Fault>, flushed: usize) {
    let mut writer = FewWrites::new(alloc, room);
    let result = write_text(&mut writer, TEXT);
    assert!(rt; result == want, "{room:?}: {result:?}");
    assert!(rt; writer.has_front(TEXT, room.1.min(6)), "{room:?}");
    assert_eq!(rt; writer.flushed, flushed, "{room:?}");
}

/// How much room there is and whether writes then fail, what comes of it, and how many bytes are flushed.
static ROOMS: [(usize, bool, Result<(), Fault>, usize); 3] = [
    (6, false, Ok(()), 6),
    (3, false, Err(Fault::WriteFailed), 0),
    (3, true, Err(Fault::WriteFailed), 0),
];

/// Tries: write_text, write_all, flush
#[test]
fn writes_go_on_until_one_takes_nothing(rt: HostRuntime) {
    for (room, fails, want, flushed) in &ROOMS {
        for most in [1, 2, 99] {
            writes(
                &rt,
                rt.alloc(),
                (most, *room, *fails, false),
                *want,
                *flushed,
            );
        }
    }
}

/// Tries: write_text, flush
#[test]
fn a_written_text_is_flushed(rt: HostRuntime) {
    let failed = Err(Fault::WriteFailed);
    writes(&rt, rt.alloc(), (4, 99, false, false), Ok(()), 6);
    writes(&rt, rt.alloc(), (4, 99, false, true), failed, 0);
}

/// A line of hex, and the bytes that it spells.
type Hex = (&'static [u8], Result<&'static [u8], Fault>);

static HEX_LINES: [Hex; 6] = [
    (b"", Ok(&[])),
    (b"00fFA9", Ok(&[0, 255, 169])),
    (b"0", Err(Fault::HexRefused)),
    (b"00\r", Err(Fault::HexRefused)),
    (b"0 0 ", Err(Fault::HexRefused)),
    (b"0g", Err(Fault::HexRefused)),
];

/// Fails where a line of hex spells other bytes.
fn spells(rt: &impl Abort, alloc: Global, line: &[u8], want: Result<&[u8], Fault>) {
    let bytes = bytes_of_hex(alloc, line);
    assert!(rt; is_wanted(&bytes, want), "{} digits", line.len());
}

/// Tries: bytes_of_hex
#[test]
fn hex_lines(rt: HostRuntime) {
    for (line, want) in &HEX_LINES {
        spells(&rt, rt.alloc(), line, *want);
    }
    let line = many(&rt, rt.alloc(), 1_048_576);
    let bytes = vec![in rt.alloc(); 0xaa; 524_288].expect(&rt, "memory");
    spells(&rt, rt.alloc(), &line, Ok(&bytes));
}

/// Each fault of `one` and of `replay`, and its line.
static FAULTS: [(Fault, &str); 10] = [
    (Fault::AddressRefused, "address refused\n"),
    (Fault::ReadFailed, "read failed\n"),
    (Fault::TooLong, "script too long\n"),
    (Fault::HexRefused, "hex refused\n"),
    (Fault::LineRefused { line: 1 }, "line 1 refused\n"),
    (Fault::LineRefused { line: 12 }, "line 12 refused\n"),
    (Fault::LineRefused { line: 1024 }, "line 1024 refused\n"),
    (
        Fault::LineRefused { line: 1_048_577 },
        "line 1048577 refused\n",
    ),
    (Fault::WriteFailed, "write failed\n"),
    (Fault::NoMemory, "no memory\n"),
];

/// Tries: Fault::tell
#[test]
fn fault_lines(rt: HostRuntime) {
    for (fault, line) in &FAULTS {
        tells(&rt, rt.alloc(), AnyFault::Common(*fault), line);
    }
}

/// Tries: Fault::tell
#[test]
fn a_fault_line_in_part(rt: HostRuntime) {
    for (fault, line) in &FAULTS {
        tells_in_part(&rt, rt.alloc(), AnyFault::Common(*fault), line);
    }
}

/// A Register of `a` and what a new node answers to it.
const REGISTER: &[u8] =
    b"4402000101020304b2726411283465703d61056c743d3630096c776d326d3d312e31ff3c2f332f303e\n";

/// Its first 20 bytes.
const REGISTER_FRONT: &[u8] = b"4402000101020304b272";

/// The same in upper case, without the line feed.
const REGISTER_UPPER: &[u8] =
    b"4402000101020304B2726411283465703D61056C743D3630096C776D326D3D312E31FF3C2F332F303E";

const ANSWER: &str = "64410001010203048272640d0330303030303030303030303130303031
{\"address\":\"127.0.0.1:5683\",\"attributes\":{},\"binding\":\"U\",\"endpoint\":\"a\",\"id\":\"0000000000010001\",\"lifetime\":60,\"lwm2m\":\"1.1\",\"objects\":\"</3/0>\",\"queue\":false,\"seen\":0,\"sms\":null}
";

/// Where a datagram comes from.
const FROM: &str = "127.0.0.1:5683";

/// What comes of `one`: the outcome, how many bytes of the input are left, and what is printed.
type Answer<'a> = (Result<(), Fault>, usize, &'a str);

/// Fails where another answer comes of `one` at node 1 and moment 0, with this input of an address and such a writer.
fn answers(
    rt: &impl Abort,
    alloc: Global,
    from: &str,
    mut reader: FewBytes<'_>,
    room: Room,
    (want, unread, text): Answer<'_>,
) {
    let options = OneOptions {
        node: 1,
        now: Moment::START,
        from,
    };
    let mut writer = FewWrites::new(alloc, room);
    let result = one(alloc, &options, &mut reader, &mut writer);
    assert!(rt; result == want, "{result:?} in place of {text}");
    assert_eq!(rt; reader.rest.len(), unread, "unread of {text}");
    assert!(rt; writer.has(text.as_bytes()), "{text}");
}

/// Inputs, of which seven bytes come at a time, and what comes of them.
static ANSWERS: [(&[u8], Answer<'static>); 9] = [
    (REGISTER, (Ok(()), 0, ANSWER)),
    (REGISTER_UPPER, (Ok(()), 0, ANSWER)),
    (b"40000007", (Ok(()), 0, "70000007\n")),
    (b"40010001\n", (Ok(()), 0, "60840001\n")),
    (b"", (Ok(()), 0, "-\n")),
    (b"\n40000007", (Ok(()), 2, "-\n")),
    (b"4000000", (Err(Fault::HexRefused), 0, "")),
    (b"40000007\r\n", (Err(Fault::HexRefused), 0, "")),
    (b"40 000007\n", (Err(Fault::HexRefused), 0, "")),
];

/// Tries: one
#[test]
fn a_line_is_answered(rt: HostRuntime) {
    for (input, answer) in &ANSWERS {
        let reader = FewBytes::new(input, 7, false);
        answers(&rt, rt.alloc(), FROM, reader, AMPLE, *answer);
    }
}

/// Tries: one
#[test]
fn the_longest_line_is_answered(rt: HostRuntime) {
    let alloc = rt.alloc();
    let line = many(&rt, alloc, 1_048_576);
    let reader = FewBytes::new(&line, 7, false);
    answers(&rt, alloc, FROM, reader, AMPLE, (Ok(()), 0, "-\n"));
    let line = many(&rt, alloc, 1_048_577);
    let reader = FewBytes::new(&line, 7, false);
    let too_long = (Err(Fault::TooLong), 0, "");
    answers(&rt, alloc, FROM, reader, AMPLE, too_long);
}

/// A Register of `a` whose payload is one link, `</` and a number of `1` and `>`. With 8,176 of them it has 8,192
/// bytes.
fn long_register(alloc: Global, ones: usize) -> Result<Vec<u8>, AllocError> {
    let mut line = b"40020004b272644465703d61ff3c2f".to_vec(alloc)?;
    for _one in 0..ones {
        line.extend_from_slice(b"31")?;
    }
    line.extend_from_slice(b"3e\n")?;
    Ok(line)
}

/// What a new node answers to a Register whose link has so many `1`.
fn long_answer(alloc: Global, ones: usize) -> Result<String, AllocError> {
    let ones = "1".repeat(alloc, ones)?;
    format!(in alloc;
        r#"604100048272640d0330303030303030303030303130303031
{{"address":"127.0.0.1:5683","attributes":{{}},"binding":"U","endpoint":"a","id":"0000000000010001","lifetime":86400,"lwm2m":"1.0","objects":"</{ones}>","queue":false,"seen":0,"sms":null}}
"#
    )
}

/// Fails where the line of a Register whose link has so many `1` has another length, or has another text printed.
fn answers_register(rt: &impl Abort, alloc: Global, ones: usize, length: usize, text: &str) {
    let line = long_register(alloc, ones).expect(rt, "memory");
    assert_eq!(rt; line.len(), length);
    let reader = FewBytes::new(&line, 7, false);
    answers(rt, alloc, FROM, reader, AMPLE, (Ok(()), 0, text));
}

/// Tries: one
#[test]
fn the_longest_register_is_answered(rt: HostRuntime) {
    let answer = long_answer(rt.alloc(), 8_176).expect(&rt, "memory");
    // Two digits for each of 8,192 bytes, and a line feed.
    answers_register(&rt, rt.alloc(), 8_176, 16_385, answer.as_str());
    answers_register(&rt, rt.alloc(), 8_177, 16_387, "70000004\n");
}

/// Tries: one
#[test]
fn a_refused_address_reads_nothing(rt: HostRuntime) {
    for from in ["x", "127.0.0.1", "[::1]:5683", ""] {
        let reader = FewBytes::new(b"4", 1, true);
        let refused = (Err(Fault::AddressRefused), 1, "");
        answers(&rt, rt.alloc(), from, reader, AMPLE, refused);
    }
}

/// Tries: one
#[test]
fn a_reader_that_fails_is_told(rt: HostRuntime) {
    let reader = FewBytes::new(REGISTER_FRONT, 3, true);
    let failed = (Err(Fault::ReadFailed), 0, "");
    answers(&rt, rt.alloc(), FROM, reader, AMPLE, failed);
}

/// Writers, and what comes of the Register.
static WRITERS: [(Room, Result<(), Fault>); 5] = [
    ((1, 9999, false, false), Ok(())),
    ((1, 70, true, false), Err(Fault::WriteFailed)),
    ((50, 70, false, false), Err(Fault::WriteFailed)),
    ((50, 0, false, false), Err(Fault::WriteFailed)),
    ((50, 9999, false, true), Err(Fault::WriteFailed)),
];

/// Tries: one
#[test]
fn a_writer_that_fails_is_told(rt: HostRuntime) {
    for (room, want) in &WRITERS {
        let front = ANSWER
            .get(..room.1.min(ANSWER.len()))
            .expect(&rt, "a front");
        let reader = FewBytes::new(REGISTER, 7, false);
        answers(&rt, rt.alloc(), FROM, reader, *room, (*want, 0, front));
    }
}
