use crate::end::{End, status};
use crate::run::run;
use src_io::{MemSink, MemSources};
use std::alloc::Global;
use std::test::Fail;
use tl_text::{Code, List, Name, Place, Refusal};

pub type Files<'a> = &'a [(&'a str, &'a [u8])];

pub const RT: &str =
    "module Rt = struct\n  type word = int\n  let print = fun s -> print_string s\nend\n";

const HELLO: &[u8] = b"val _ = print \"hi\\n\"\n";

const HELLO_A: &str = "module U1_a = struct\n  let _ = Rt.print \"hi\\n\"\nend\n";

const HELLO_B: &str = "module U2_b = struct\n  let _ = Rt.print \"hi\\n\"\nend\n";

const USAGE: &str =
    "usage: smltl LIST [--mode translate|check|demo] [--quiet] [--basis] [--seed N] [--size N]\n";

const ROOM: usize = 4_096;

pub const COMMAND: &[&str] = &["smltl", "l.txt"];

const TWO_HELLOS: Files<'static> = &[
    ("l.txt", b"a.sml\nb.sml\n"),
    ("a.sml", HELLO),
    ("b.sml", HELLO),
];

/// The number of the call that fails, of each device, where it is not 0; and the room on standard output.
#[derive(Clone, Copy)]
pub struct Faults {
    src: u64,
    out: u64,
    notes: u64,
    room: usize,
}

pub const NO_FAULTS: Faults = Faults {
    src: 0,
    out: 0,
    notes: 0,
    room: ROOM,
};

/// How a call of `run` ended, and what it wrote.
#[derive(Drop)]
pub struct Ran {
    pub end: End,
    pub out: MemSink,
    pub notes: MemSink,
}

/// Calls `run` over devices in memory, with output in pieces of ten bytes.
pub fn run_over(
    alloc: Global,
    words: &[&str],
    files: Files<'_>,
    faults: &Faults,
) -> Result<Ran, Fail> {
    let mut given = Vec::new(alloc);
    for word in words {
        given.push(String::from_str(alloc, word)?)?;
    }
    let mut held = List::new(alloc);
    for (name, bytes) in files {
        let bytes = List::from_vec(Vec::from_slice(alloc, bytes)?);
        held.push((Name::new(alloc, name.as_bytes())?, bytes))?;
    }
    let mut src = MemSources::new(held, 65_536, Vec::from_slice(alloc, &[faults.src])?);
    let mut out = MemSink::new(alloc, 10, Vec::from_slice(alloc, &[faults.out])?);
    out.reserve(faults.room)?;
    let mut notes = MemSink::new(alloc, 10, Vec::from_slice(alloc, &[faults.notes])?);
    notes.reserve(ROOM)?;
    let end = run(alloc, &given, &mut src, &mut out, &mut notes);
    Ok(Ran { end, out, notes })
}

pub fn joined(alloc: Global, parts: &[&str]) -> Result<Vec<u8>, Fail> {
    let mut bytes = Vec::new(alloc);
    for part in parts {
        bytes.extend_from_slice(part.as_bytes())?;
    }
    Ok(bytes)
}

/// The end at a source that is refused at the first line.
pub fn refused(source: u32, col: u32, code: Code) -> End {
    let place = Place {
        source,
        line: 1,
        col,
        byte: col.saturating_sub(1),
    };
    End::Refused(Refusal { place, code })
}

// A unit that is named by another part of its source's name.
#[test]
fn names_units(rt: HostRuntime) -> Result<(), Fail> {
    let alloc = rt.alloc();
    let cases = [
        ("hello.sml", "U1_hello"),
        ("examples/hello.sml", "U1_hello"),
        ("a.b/c.d.e", "U1_c"),
        ("my-source 2", "U1_my_source_2"),
        ("é", "U1___"),
        (".sml", "U1_"),
        ("a/", "U1_"),
    ];
    for (name, module) in cases {
        let files: [(&str, &[u8]); 2] = [("l.txt", name.as_bytes()), (name, b"")];
        let got = run_over(alloc, COMMAND, &files, &NO_FAULTS)?;
        let want = joined(alloc, &[RT, "module ", module, " = struct\nend\n"])?;
        assert_eq!(rt; got.end, End::Done, "of {name}");
        assert_eq!(rt; got.out.bytes(), want.as_slice(), "of {name}");
    }
    Ok(())
}

// Words that are taken for a command or are not, and what is said of them.
#[test]
fn judges_words(rt: HostRuntime) -> Result<(), Fail> {
    let alloc = rt.alloc();
    let missing = End::Missing { name: 0 };
    let cases: [(&[&str], End, &str); 11] = [
        (&[], End::BadWords, USAGE),
        (&["smltl"], End::BadWords, USAGE),
        (&["l.txt"], End::BadWords, USAGE),
        (&["smltl", "-x"], End::BadWords, USAGE),
        (&["smltl", "--help"], End::BadWords, USAGE),
        (&["smltl", "l.txt", "l.txt"], End::BadWords, USAGE),
        (&["smltl", "l.txt", "--mode", "both"], End::BadWords, USAGE),
        (&["smltl", "--mode", "demo", "l.txt"], End::BadWords, USAGE),
        (&["smltl", "-"], missing, "smltl: -: cannot be opened\n"),
        (&["smltl", ""], missing, "smltl: : cannot be opened\n"),
        (
            &["-x", "m.txt"],
            missing,
            "smltl: m.txt: cannot be opened\n",
        ),
    ];
    for (words, end, notes) in cases {
        let got = run_over(alloc, words, &[("l.txt", b"")], &NO_FAULTS)?;
        let count = words.len();
        assert_eq!(rt; got.end, end, "{count} words, {notes}");
        assert_eq!(rt; got.out.bytes(), b"".as_slice(), "{count} words");
        assert_eq!(rt; got.notes.bytes(), notes.as_bytes(), "{count} words");
    }
    Ok(())
}

// A line of the list that is passed over or taken wrongly, and a stop that leaves or says the wrong text.
#[test]
fn goes_over_lists(rt: HostRuntime) -> Result<(), Fail> {
    let alloc = rt.alloc();
    let whole = joined(alloc, &[RT, HELLO_A, HELLO_B])?;
    let two = whole.len();
    let one = joined(alloc, &[RT, HELLO_A])?.len();
    let none = RT.len();
    let unbuilt = "c.sml:1:1: error 36: not supported yet\n";
    let missing = "smltl: d.sml: cannot be opened\n";
    let cases: [(&[u8], End, usize, &str); 14] = [
        (b"", End::Done, none, ""),
        (b"# a.sml\n\n\r\n#", End::Done, none, ""),
        (b"a.sml", End::Done, one, ""),
        (b"a.sml\r\n", End::Done, one, ""),
        (b"#x\r\n\r\na.sml\r\n\n#y\nb.sml", End::Done, two, ""),
        (b"c.sml", refused(1, 1, Code::Unbuilt), none, unbuilt),
        (
            b"a.sml\nc.sml\nb.sml\n",
            refused(2, 1, Code::Unbuilt),
            one,
            unbuilt,
        ),
        (b"d.sml\n", End::Missing { name: 1 }, none, missing),
        (b"a.sml\n#\nd.sml\n", End::Missing { name: 2 }, one, missing),
        (
            b"a.sml\n#x\n\na.sml\n",
            End::BadList { line: 4 },
            0,
            "l.txt:4: bad list line\n",
        ),
        (
            b"a.sml\r\na.sml\n",
            End::BadList { line: 2 },
            0,
            "l.txt:2: bad list line\n",
        ),
        (
            b"\xFF",
            End::BadList { line: 1 },
            0,
            "l.txt:1: bad list line\n",
        ),
        (
            b"d.sml\n#\xFF\n\xC3\n",
            End::BadList { line: 3 },
            0,
            "l.txt:3: bad list line\n",
        ),
        (
            b"a.sml\r\r\n",
            End::Missing { name: 1 },
            none,
            "smltl: a.sml\r: cannot be opened\n",
        ),
    ];
    for (list, end, written, notes) in cases {
        let files: [(&str, &[u8]); 4] = [
            ("l.txt", list),
            ("a.sml", HELLO),
            ("b.sml", HELLO),
            ("c.sml", b"val x = 1 + 2"),
        ];
        let got = run_over(alloc, COMMAND, &files, &NO_FAULTS)?;
        assert_eq!(rt; got.end, end, "{list:?}");
        assert_eq!(rt; got.out.bytes().len(), written, "{list:?}");
        assert!(rt; whole.starts_with(got.out.bytes()), "{list:?}");
        assert_eq!(rt; got.notes.bytes(), notes.as_bytes(), "{list:?}");
    }
    Ok(())
}

// A limit that is one off.
#[test]
fn keeps_limits(rt: HostRuntime) -> Result<(), Fail> {
    let alloc = rt.alloc();
    let bad = End::BadList { line: 1 };
    let too_large = refused(1, 1, Code::SourceSize);
    let cases: [(u8, usize, usize, End, &str); 6] = [
        (
            b'n',
            1_024,
            0,
            End::Missing { name: 1 },
            ": cannot be opened\n",
        ),
        (b'n', 1_025, 0, bad, "l.txt:1: bad list line\n"),
        (b'#', 8_388_608, 0, End::Done, ""),
        (b'#', 8_388_609, 0, bad, "l.txt:1: bad list line\n"),
        (b'a', 1, 1_048_576, End::Done, ""),
        (
            b'a',
            1,
            1_048_577,
            too_large,
            "a:1:1: error 7: source is too large\n",
        ),
    ];
    for (byte, count, spaces, end, notes) in cases {
        let list = vec![in alloc; byte; count]?;
        let source = vec![in alloc; b' '; spaces]?;
        let files: [(&str, &[u8]); 2] = [("l.txt", list.as_slice()), ("a", source.as_slice())];
        let got = run_over(alloc, COMMAND, &files, &NO_FAULTS)?;
        assert_eq!(rt; got.end, end, "{count} and {spaces}");
        assert!(rt;
            got.notes.bytes().ends_with(notes.as_bytes()),
            "{count} and {spaces}"
        );
    }
    Ok(())
}

// A list of too many names that is taken, or one of enough that is not.
#[test]
fn counts_names(rt: HostRuntime) -> Result<(), Fail> {
    let alloc = rt.alloc();
    let mut list = Vec::new(alloc);
    for name in 0..4_096u32 {
        let line = format!(in alloc; "{name}\n")?;
        list.extend_from_slice(line.as_bytes())?;
    }
    let enough = run_over(alloc, COMMAND, &[("l.txt", list.as_slice())], &NO_FAULTS)?;
    assert_eq!(rt; enough.end, End::Missing { name: 1 });
    list.extend_from_slice(b"#\nz\n")?;
    let over = run_over(alloc, COMMAND, &[("l.txt", list.as_slice())], &NO_FAULTS)?;
    assert_eq!(rt; over.end, End::BadList { line: 4_098 });
    assert_eq!(rt; over.out.bytes(), b"".as_slice());
    Ok(())
}

// A fault of a device that is answered as something else, or after which more is written.
#[test]
fn tells_faults(rt: HostRuntime) -> Result<(), Fail> {
    let alloc = rt.alloc();
    let whole = joined(alloc, &[RT, HELLO_A, HELLO_B])?;
    let two = whole.len();
    let one = joined(alloc, &[RT, HELLO_A])?.len();
    let none = RT.len();
    let said = "smltl: reading failed\n";
    // The calls that fail of the sources, of the output and of the notes; the room on the output.
    let cases: [(u64, u64, u64, usize, End, usize, &str); 11] = [
        (1, 0, 0, ROOM, End::ReadFault, 0, said),
        (3, 0, 0, ROOM, End::ReadFault, 0, said),
        (4, 0, 0, ROOM, End::ReadFault, none, said),
        (8, 0, 0, ROOM, End::ReadFault, one, said),
        (10, 0, 1, ROOM, End::Done, two, ""),
        (2, 0, 1, ROOM, End::WriteFault, 0, ""),
        (8, 0, 3, ROOM, End::WriteFault, one, "smltl: reading faile"),
        (0, 1, 0, ROOM, End::WriteFault, 0, ""),
        (0, 2, 0, 10, End::WriteFault, 10, ""),
        (0, 0, 0, 0, End::WriteFault, 0, ""),
        (0, 0, 0, 23, End::WriteFault, 23, ""),
    ];
    for (src, out, notes, room, end, written, said) in cases {
        let faults = Faults {
            src,
            out,
            notes,
            room,
        };
        let got = run_over(alloc, COMMAND, TWO_HELLOS, &faults)?;
        assert_eq!(rt; got.end, end, "{src} {out} {notes} {room}");
        assert_eq!(rt;
            got.out.bytes().len(),
            written,
            "{src} {out} {notes} {room}"
        );
        assert!(rt;
            whole.starts_with(got.out.bytes()),
            "{src} {out} {notes} {room}"
        );
        assert_eq!(rt;
            got.notes.bytes(),
            said.as_bytes(),
            "{src} {out} {notes} {room}"
        );
    }
    Ok(())
}

// A failed write that is answered as something else, or after which more is written.
#[test]
fn stops_at_each_failed_write(rt: HostRuntime) -> Result<(), Fail> {
    let alloc = rt.alloc();
    let whole = joined(alloc, &[RT, HELLO_A, HELLO_B])?;
    for out in 1..=30u64 {
        let faults = Faults { out, ..NO_FAULTS };
        let got = run_over(alloc, COMMAND, TWO_HELLOS, &faults)?;
        let is_whole = got.out.bytes() == whole.as_slice();
        let want = if is_whole { End::Done } else { End::WriteFault };
        assert_eq!(rt; got.end, want, "call {out}");
        assert!(rt; whole.starts_with(got.out.bytes()), "call {out}");
        assert_eq!(rt; got.notes.bytes(), b"".as_slice(), "call {out}");
    }
    Ok(())
}

// A status that is another's.
#[test]
fn gives_statuses(rt: HostRuntime) {
    let cases = [
        (End::Done, 0),
        (refused(1, 1, Code::Unbuilt), 1),
        (End::BadWords, 2),
        (End::BadList { line: 1 }, 2),
        (End::Missing { name: 0 }, 3),
        (End::ReadFault, 3),
        (End::WriteFault, 3),
        (End::NoMemory, 4),
    ];
    for (end, want) in cases {
        assert_eq!(rt; status(&end), want, "{end:?}");
    }
}
