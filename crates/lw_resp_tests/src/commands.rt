use lw_resp::{FIELD, command};

/// Words, and their command.
type Row = (&'static [&'static [u8]], &'static [u8]);

/// The example of the page on the protocol, words of any bytes, a word that is empty, and no word.
static COMMANDS: [Row; 4] = [
    (
        &[b"LLEN", b"mylist"],
        b"*2\r\n$4\r\nLLEN\r\n$6\r\nmylist\r\n",
    ),
    (
        &[b"XADD", b"fleet", b"NOMKSTREAM", b"*", FIELD, b"\r\n\0\xff"],
        b"*6\r\n$4\r\nXADD\r\n$5\r\nfleet\r\n$10\r\nNOMKSTREAM\r\n$1\r\n*\r\n$1\r\ne\r\n$4\r\n\r\n\0\xff\r\n",
    ),
    (&[b""], b"*1\r\n$0\r\n\r\n"),
    (&[], b"*0\r\n"),
];

/// Tries: lw_resp::command
#[test]
fn a_command_is_an_array_of_bulk_strings(rt: HostRuntime) {
    for row in &COMMANDS {
        let (words, want) = *row;
        let bytes = command(rt.alloc(), words).expect(&rt, "memory");
        assert!(rt; bytes.as_slice() == want, "{want:?}");
    }
}
