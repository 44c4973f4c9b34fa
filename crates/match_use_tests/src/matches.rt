use crate::pattern::{anything, literal, tuple};
use crate::written::{rule, rules_of};
use match_use::{are_of_one_type, usefulness};
use mid_ast::MidRule;
use std::alloc::Global;
use std::process::Abort;
use std::test::Fail;
use tl_text::{List, Lit, NoMemory};

// The answer as a word: `e` or `-` for exhaustive or not, then `r` or `-` for each rule, and `cut` before it where the match
// was not looked at whole.
fn word_of(alloc: Global, rules: &[MidRule]) -> Result<String, Fail> {
    if !are_of_one_type(alloc, rules)? {
        return Err(Fail::from("the patterns are not of one type"));
    }
    let answer = usefulness(alloc, rules)?;
    let mut shown = String::new(alloc);
    if !answer.whole {
        shown.push_str("cut ")?;
    }
    shown.push_str(if answer.exhaustive { "e" } else { "-" })?;
    for reached in answer.reached.items() {
        shown.push_str(if *reached { "r" } else { "-" })?;
    }
    Ok(shown)
}

// The answers for some matches, with the words of their rules.
fn check(rt: &(impl Abort + AllocGlobal), rows: &[(&[&[u8]], &str)]) -> Result<(), Fail> {
    for (words, expected) in rows {
        let rules = rules_of(rt.alloc(), *words)?;
        let found = word_of(rt.alloc(), &rules)?;
        assert_eq!(rt; found.as_str(), *expected, "at {words:?}");
    }
    Ok(())
}

/// A rule that is wrongly reached or not, or a match that wrongly takes everything or not, at numbers and tuples.
#[test]
fn tuples(rt: HostRuntime) -> Result<(), Fail> {
    check(
        &rt,
        &[
            (&[], "-"),
            (&[b"()"], "er"),
            (&[b"()", b"_"], "er-"),
            (&[b"(0)", b"(1)", b"(_)"], "errr"),
            (&[b"(1)", b"(1)"], "-r-"),
            (&[b"(_)", b"(0)"], "er-"),
            (&[b"(1_)", b"(_1)", b"(11)"], "-rr-"),
            (
                &[b"(00)", b"(01)", b"(0_)", b"(1_)", b"(_0)", b"(10)"],
                "-rrrrr-",
            ),
            (&[b"(0_)", b"(_0)", b"(__)", b"(22)"], "errr-"),
            (
                &[b"(0__)", b"(_1_)", b"(__2)", b"(012)", b"(111)", b"(100)"],
                "-rrr--r",
            ),
        ],
    )
}

/// Constructors that are taken for one another or told apart by their paths, or an argument that is not looked at.
#[test]
fn constructors(rt: HostRuntime) -> Result<(), Fail> {
    check(
        &rt,
        &[
            (&[b"R", b"G", b"B"], "errr"),
            (&[b"R", b"B"], "-rr"),
            (&[b"R", b"r", b"G", b"B"], "er-rr"),
            (&[b"B", b"_", b"R"], "err-"),
            (&[b"x", b"R"], "er-"),
            (&[b"B", b"G", b"R", b"_"], "errr-"),
            (&[b"N", b":_"], "err"),
            (&[b":x"], "-r"),
            (&[b"N", b":(0N)", b":(__)"], "errr"),
            (&[b"N", b":(_N)", b":(_:(__))"], "errr"),
            (&[b":(1_)", b":(1N)", b"N"], "-r-r"),
            (&[b":(_N)", b":_", b"N", b"_"], "errr-"),
            (&[b"E", b"D"], "-rr"),
            (&[b"E", b"E", b"_"], "er-r"),
            (&[b"E", b"F_", b"F0", b"D", b"_"], "err-rr"),
            (&[b"F0", b"F1", b"F_", b"E"], "-rrrr"),
            (&[b"_", b"E"], "er-"),
        ],
    )
}

/// Literals that are taken for one another, or that are thought to be all of their type.
#[test]
fn literals(rt: HostRuntime) -> Result<(), Fail> {
    check(
        &rt,
        &[
            (&[b"0", b"1", b"_"], "errr"),
            (&[b"0", b"0"], "-r-"),
            (&[b"_", b"0"], "er-"),
            (&[b"v", b"w", b"v", b"_"], "err-r"),
            (&[b"a", b"b"], "-rr"),
            (&[b"b", b"b", b"_"], "er-r"),
            (&[b"e", b"t", b"e"], "-rr-"),
            (&[b"e", b"t", b"_", b"t"], "errr-"),
        ],
    )
}

/// A reference, a layer or a record that is not looked into, or is looked into at another place.
#[test]
fn patterns_in_patterns(rt: HostRuntime) -> Result<(), Fail> {
    check(
        &rt,
        &[
            (&[b"!R", b"!G", b"!B"], "errr"),
            (&[b"!R", b"!R"], "-r-"),
            (&[b"!_", b"!R"], "er-"),
            (&[b"!!0", b"!_"], "err"),
            (&[b"@R", b"G", b"@@B"], "errr"),
            (&[b"@_", b"R"], "er-"),
            (&[b"@R", b"R", b"@x"], "er-r"),
            (&[b"@(0_)", b"(_0)", b"(@1x)"], "-rrr"),
            (&[b"(RG)", b"{R}", b"{G_}", b"_"], "errrr"),
            (&[b"{R}", b"(RG)", b"{}"], "er-r"),
            (&[b"(R_)", b"(_R)", b"(G_)"], "-rrr"),
            (
                &[
                    b"(R_)", b"(_R)", b"(GB)", b"(BG)", b"(GG)", b"(BB)", b"(GR)",
                ],
                "errrrrr-",
            ),
            (&[b"((01)_)", b"((0_)N)", b"(_:_)", b"((__)N)"], "errrr"),
            (
                &[b"(!R:(EN))", b"(!_N)", b"(x:(_N))", b"(!R:(E_))", b"_"],
                "errrrr",
            ),
            (
                &[
                    b":(F(0e)_)",
                    b":(F(0_)N)",
                    b":(F(0t):_)",
                    b"N",
                    b":(F(0_):_)",
                    b":(F(0e)N)",
                ],
                "-rrrrr-",
            ),
        ],
    )
}

/// A character that is left out, or one that is thought to be left where all are there.
#[test]
fn all_characters(rt: HostRuntime) -> Result<(), Fail> {
    let alloc = rt.alloc();
    let mut rules = Vec::new(alloc);
    for code in 0..=255u8 {
        rules.push(rule(literal(Lit::Char(code))))?;
    }
    rules.push(rule(anything(alloc)))?;
    let found = word_of(alloc, &rules)?;
    assert!(rt; found.as_str().starts_with("er"));
    assert!(rt; found.as_str().ends_with("r-"));
    Ok(())
}

// A rule for each place of a tuple, with a number there and anything elsewhere.
fn diagonal(alloc: Global, width: usize) -> Result<Vec<MidRule>, NoMemory> {
    let mut rules = Vec::new(alloc);
    for place in 0..width {
        let mut parts = List::new(alloc);
        for i in 0..width {
            let part = if i == place {
                literal(Lit::Int(7))
            } else {
                anything(alloc)
            };
            parts.push(part)?;
        }
        rules.push(rule(tuple(parts)))?;
    }
    Ok(rules)
}

/// A count of splits that is one off, or a limit that no match passes: 65,534 splits, and 131,070.
#[test]
fn splits_are_counted(rt: HostRuntime) -> Result<(), Fail> {
    let fifteen = diagonal(rt.alloc(), 15)?;
    let found = word_of(rt.alloc(), &fifteen)?;
    assert_eq!(rt; found.as_str(), "-rrrrrrrrrrrrrrr");
    let sixteen = diagonal(rt.alloc(), 16)?;
    let found = word_of(rt.alloc(), &sixteen)?;
    assert_eq!(rt; found.as_str(), "cut -rrrrrrrrrrrrrrrr");
    Ok(())
}

/// A test of the condition that gives up, or that takes patterns of two types for ones of one.
#[test]
fn patterns_of_one_type(rt: HostRuntime) -> Result<(), Fail> {
    let rows: [(&[&[u8]], bool); 16] = [
        (&[], true),
        (&[b"x", b"(0a)", b"@_", b"{1}"], true),
        (&[b"E", b"F0", b"D", b"F_"], true),
        (&[b"R", b"r", b"G", b"B"], true),
        (&[b":(!RN)", b":(!GN)", b"N"], true),
        (&[b"0", b"a"], false),
        (&[b"v", b"e"], false),
        (&[b"(00)", b"(0(0))"], false),
        (&[b"!0", b"(0)"], false),
        (&[b"!0", b"!v"], false),
        (&[b"R", b"N"], false),
        (&[b"R", b"E"], false),
        (&[b"F0", b"Fa"], false),
        (&[b"_", b":(0N)", b":(_:(aN))", b":(a_)"], false),
        (&[b"R", b"G", b"B", b"Q"], false),
        (&[b"(R_)", b"(_C)"], false),
    ];
    for (words, expected) in rows {
        let rules = rules_of(rt.alloc(), words)?;
        let found = are_of_one_type(rt.alloc(), &rules)?;
        assert_eq!(rt; found, expected, "at {words:?}");
    }
    Ok(())
}
