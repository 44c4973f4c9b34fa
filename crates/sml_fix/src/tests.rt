ghost use Rattle.std.specs.Prelude.{◌≡◌, None};

use crate::{Fixities, Group, Part, Side, resolve};
use std::alloc::Global;
use std::test::Fail;
use tl_text::{Fault, Name, NoMemory, Place};

fn atom(byte: u32) -> Part
    ensures { result.vid ≡ None }
{
    let place = Place {
        source: 1,
        line: 1,
        col: 1,
        byte,
    };
    Part { vid: None, place }
}

/// An identifier, or another atom for the empty word.
fn part(alloc: Global, word: &str, byte: u32) -> Result<Part, NoMemory> {
    let mut part = atom(byte);
    if !word.is_empty() {
        part.vid = Some(Name::new(alloc, word.as_bytes())?);
    }
    Ok(part)
}

/// Atoms as `0-1`, and operators in parentheses.
fn shown(alloc: Global, group: &Group) -> Result<String, Fail> {
    match group {
        Group::Apply(start, end) => Ok(format!(in alloc; "{start}-{end}")?),
        Group::Op(number, left, right) => {
            let left = shown(alloc, left.get())?;
            let right = shown(alloc, right.get())?;
            Ok(format!(in alloc; "({left} {number} {right})")?)
        }
    }
}

/// The group of these words and one more atom, or the code and the byte of a refusal.
fn answer(alloc: Global, fix: &Fixities, words: [&str; 6]) -> Result<String, Fail> {
    let a = part(alloc, words[0], 0)?;
    let b = part(alloc, words[1], 1)?;
    let c = part(alloc, words[2], 2)?;
    let d = part(alloc, words[3], 3)?;
    let e = part(alloc, words[4], 4)?;
    let f = part(alloc, words[5], 5)?;
    match resolve(alloc, &[a, b, c, d, e, f, atom(6)], fix) {
        Ok(group) => shown(alloc, &group),
        Err(Fault::Refused(refusal)) => {
            let code = refusal.code;
            let byte = refusal.place.byte;
            Ok(format!(in alloc; "{code:?} {byte}")?)
        }
        Err(Fault::NoMemory(none)) => Err(none.into()),
    }
}

// Operators that bind the wrong way round, to the wrong side or places; a clash that is missed, seen where a looser
// operator stands between, or answered at the wrong part.
#[test]
fn groups_as_the_fixities_say(rt: HostRuntime) -> Result<(), Fail> {
    let alloc = rt.alloc();
    let mut fix = Fixities::start(alloc)?;
    fix.set(Name::new(alloc, b"++")?, Some((6, Side::Right)))?;
    let cases: [([&str; 6], &str); 8] = [
        (["", "+", "", "*", "", ""], "(0-1 1 (2-3 3 4-7))"),
        (["", "-", "", "+", "", ""], "((0-1 1 2-3) 3 4-7)"),
        (["", "::", "", "@", "", ""], "(0-1 1 (2-3 3 4-7))"),
        (["f", "", "=", "g", "", ""], "(0-2 2 3-7)"),
        (["", "++", "", "*", "", "-"], "FixityClash 5"),
        (["", "++", "", "=", "", "-"], "((0-1 1 2-3) 3 (4-5 5 6-7))"),
        (["", "+", "++", "", "", ""], "Grammar 2"),
        (["+", "", "", "", "", ""], "Grammar 0"),
    ];
    for (words, want) in cases {
        assert_eq!(rt; answer(alloc, &fix, words)?.as_str(), want);
    }
    Ok(())
}

// A start that lacks an operator, a setting that changes another, and a copy that is none.
#[test]
fn settings_are_kept(rt: HostRuntime) -> Result<(), Fail> {
    let alloc = rt.alloc();
    let mut fix = Fixities::start(alloc)?;
    let cases: [(&str, Option<(u8, Side)>); 7] = [
        ("mod", Some((7, Side::Left))),
        ("^", Some((6, Side::Left))),
        ("@", Some((5, Side::Right))),
        ("<=", Some((4, Side::Left))),
        ("o", Some((3, Side::Left))),
        ("before", Some((0, Side::Left))),
        ("not", None),
    ];
    for (vid, want) in cases {
        assert_eq!(rt;
            fix.get(&Name::new(alloc, vid.as_bytes())?),
            want,
            "at {vid}"
        );
    }
    let copy = fix.copy()?;
    fix.set(Name::new(alloc, b"o")?, None)?;
    assert_eq!(rt; fix.get(&Name::new(alloc, b"o")?), None);
    assert_eq!(rt; copy.get(&Name::new(alloc, b"o")?), Some((3, Side::Left)));
    Ok(())
}
