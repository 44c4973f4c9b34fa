ghost use Rattle.std.specs.Prelude.{◌≡◌, ◌+◌, ℕ, List, Some, take, IfOk};
ghost use Rattle.src_io.specs.Memory.{first_named};

use crate::{Failed, FileSources, MemSink, MemSources, ReadEnd, StdSink, read_named, write_all};
use std::alloc::Global;
use std::fs;
use std::test::Fail;
use tl_text::{List, Name, NoMemory};

type Held = List<(Name, List<u8>)>;

const FOLDER: &str = "src_io_test";

const SOURCE: &str = "src_io_test/a.sml";

/// A caller of sources in memory can prove which bytes are read.
fn read_new(
    alloc: Global,
    held: Held,
    fails: Vec<u64>,
    name: &str,
    limit: u8,
) -> Result<Vec<u8>, ReadEnd>
    ensures { IfOk result (λ v. (bytes : List ℕ) × (first_named held name.now ≡ Some bytes)
        × (v.items ≡ take (limit + 1) bytes)) }
{
    read_named(
        alloc,
        &mut MemSources::new(held, 2, fails),
        name,
        usize::from(limit),
    )
}

/// A caller of text in memory can prove that all is written where there is room.
fn write_new(alloc: Global, bytes: &[u8]) -> Result<MemSink, NoMemory>
    ensures { IfOk result (λ sink. sink.text ≡ bytes.now) }
{
    let mut sink = MemSink::new(alloc, 2, Vec::new(alloc));
    sink.reserve(bytes.len())?;
    write_all(&mut sink, bytes).unwrap();
    Ok(sink)
}

fn held(alloc: Global) -> Result<Held, NoMemory> {
    let mut pairs = List::new(alloc);
    for (name, bytes) in [("a", "hello"), ("b", ""), ("a", "second")] {
        let bytes = List::from_vec(Vec::from_slice(alloc, bytes.as_bytes())?);
        pairs.push((Name::new(alloc, name.as_bytes())?, bytes))?;
    }
    Ok(pairs)
}

// A reading that stops early or late, takes the wrong pair, or fails at another call than the one named.
#[test]
fn reads_from_memory(rt: HostRuntime) -> Result<(), Fail> {
    let alloc = rt.alloc();
    let cases: [(&[u64], &str, u8, Result<&[u8], ReadEnd>); 9] = [
        (&[], "a", 100, Ok(b"hello")),
        (&[], "a", 3, Ok(b"hell")),
        (&[], "b", 0, Ok(b"")),
        (&[], "c", 9, Err(ReadEnd::Missing)),
        (&[1], "a", 9, Err(ReadEnd::Failed)),
        (&[1], "c", 9, Err(ReadEnd::Failed)),
        (&[5], "a", 100, Err(ReadEnd::Failed)),
        (&[6], "a", 100, Ok(b"hello")),
        (&[4], "a", 3, Ok(b"hell")),
    ];
    for (fails, name, limit, want) in cases {
        let fails = Vec::from_slice(alloc, fails)?;
        let got = read_new(alloc, held(alloc)?, fails, name, limit);
        let got = match &got {
            Ok(bytes) => Ok(bytes.as_slice()),
            Err(end) => Err(*end),
        };
        assert_eq!(rt; got, want, "{name} to {limit}");
    }
    Ok(())
}

// A writing that repeats or drops a part at a chunk's end, or goes on after a failure.
#[test]
fn writes_to_memory(rt: HostRuntime) -> Result<(), Fail> {
    let alloc = rt.alloc();
    let cases: [(usize, &[u64], &str, Result<(), Failed>, &str); 5] = [
        (5, &[], "hello", Ok(()), "hello"),
        (4, &[], "hello", Err(Failed), "hell"),
        (9, &[2], "hello", Err(Failed), "he"),
        (0, &[], "a", Err(Failed), ""),
        (0, &[1], "", Ok(()), ""),
    ];
    for (room, fails, text, want, kept) in cases {
        let mut sink = MemSink::new(alloc, 2, Vec::from_slice(alloc, fails)?);
        sink.reserve(room)?;
        assert_eq!(rt;
            write_all(&mut sink, text.as_bytes()),
            want,
            "{text} to {room}"
        );
        assert_eq!(rt; sink.bytes(), kept.as_bytes(), "{text} to {room}");
    }
    assert_eq!(rt; write_new(alloc, b"hello")?.bytes(), b"hello".as_slice());
    Ok(())
}

// An adapter that reads another file, loses bytes, or answers a failure as the end of the file.
#[test]
fn reads_files(rt: HostRuntime) -> Result<(), Fail> {
    let alloc = rt.alloc();
    let _ = fs::remove_dir_all(&rt, FOLDER);
    fs::create_dir(&rt, FOLDER)?;
    fs::write(&rt, SOURCE, "val x = 1")?;
    let mut files = FileSources::new(&rt);
    assert_eq!(rt;
        read_named(alloc, &mut files, SOURCE, 100)?.as_slice(),
        b"val x = 1".as_slice()
    );
    assert_eq!(rt;
        read_named(alloc, &mut files, SOURCE, 2)?.as_slice(),
        b"val".as_slice()
    );
    let missing = read_named(alloc, &mut files, "src_io_test/b.sml", 100).err();
    assert_eq!(rt; missing, Some(ReadEnd::Missing));
    let folder = read_named(alloc, &mut files, FOLDER, 100).err();
    assert_eq!(rt; folder, Some(ReadEnd::Failed));
    fs::remove_dir_all(&rt, FOLDER)?;
    Ok(())
}

// An adapter that writes elsewhere, loses bytes, or hides a failure.
#[test]
fn writes_to_a_writer(rt: HostRuntime) -> Result<(), Fail> {
    const TEXT: &str = "src_io_written";
    let mut sink = StdSink::new(fs::create(&rt, TEXT)?);
    assert_eq!(rt; write_all(&mut sink, b"let x"), Ok(()));
    assert_eq!(rt; write_all(&mut sink, b" = 1"), Ok(()));
    assert_eq!(rt; fs::read(&rt, TEXT)?.as_slice(), b"let x = 1".as_slice());
    let mut closed = StdSink::new(fs::open(&rt, TEXT)?);
    assert_eq!(rt; write_all(&mut closed, b"y"), Err(Failed));
    assert_eq!(rt; write_all(&mut StdSink::new(rt.stdout()), b""), Ok(()));
    fs::remove_file(&rt, TEXT)?;
    Ok(())
}
