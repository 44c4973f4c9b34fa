use crate::shown::shown;
use std::process::Abort;
use std::test::Fail;

fn check(rt: &(impl Abort + AllocGlobal), source: &[u8], expected: &str) -> Result<(), Fail> {
    let found = shown(rt.alloc(), source)?;
    assert_eq!(rt; found.as_str(), expected);
    Ok(())
}

#[test]
fn names_and_words(rt: HostRuntime) -> Result<(), Fail> {
    check(&rt, b"", "end @1:1/0+0; ")?;
    check(&rt, b"val x", "val @1:1/0+3; id x @1:5/4+1; end @1:6/5+0; ")?;
    check(&rt, b"A.b.c", "id A.b.c @1:1/0+5; end @1:6/5+0; ")?;
    check(&rt, b"A.+.b", "error 1 @1:4/3")?;
    check(&rt, b"A.val", "error 1 @1:2/1")?;
    check(&rt, b"A.=", "error 1 @1:2/1")?;
    check(&rt, b"A.==", "id A.== @1:1/0+4; end @1:5/4+0; ")?;
    check(&rt, b"A.*)", "id A.* @1:1/0+3; ) @1:4/3+1; end @1:5/4+0; ")?;
    check(&rt, b"A...", "id A @1:1/0+1; ... @1:2/1+3; end @1:5/4+0; ")?;
    check(&rt, b"val.x", "error 1 @1:4/3")?;
    check(
        &rt,
        b"'a ''b '",
        "tyvar 'a @1:1/0+2; tyvar ''b @1:4/3+3; tyvar ' @1:8/7+1; end @1:9/8+0; ",
    )?;
    check(&rt, b"_x", "_ @1:1/0+1; id x @1:2/1+1; end @1:3/2+0; ")?;
    check(
        &rt,
        b"a\n\tb'",
        "id a @1:1/0+1; id b' @2:2/3+2; end @2:4/5+0; ",
    )?;
    check(&rt, b"x$", "id x @1:1/0+1; id $ @1:2/1+1; end @1:3/2+0; ")?;
    check(&rt, b"x\x01", "error 1 @1:2/1")?;
    Ok(())
}

#[test]
fn symbols_and_comments(rt: HostRuntime) -> Result<(), Fail> {
    check(
        &rt,
        b"*) (*)*)",
        "id * @1:1/0+1; ) @1:2/1+1; end @1:9/8+0; ",
    )?;
    check(&rt, b"(*(**)", "error 3 @1:1/0")?;
    check(
        &rt,
        b"a (* \" (* *) \n *) =>",
        "id a @1:1/0+1; => @2:5/18+2; end @2:7/20+0; ",
    )?;
    check(
        &rt,
        b"-~1",
        "id -~ @1:1/0+2; int 1 plain @1:3/2+1; end @1:4/3+0; ",
    )?;
    check(
        &rt,
        b"##\"a\"",
        "id ## @1:1/0+2; text 97 @1:3/2+3; end @1:6/5+0; ",
    )?;
    check(&rt, b":>:", "id :>: @1:1/0+3; end @1:4/3+0; ")?;
    check(&rt, b"..", "error 1 @1:1/0")?;
    check(&rt, b"....", "error 1 @1:4/3")?;
    check(
        &rt,
        b"#b,...}",
        "# @1:1/0+1; id b @1:2/1+1; , @1:3/2+1; ... @1:4/3+3; } @1:7/6+1; end @1:8/7+0; ",
    )
}

#[test]
fn numbers(rt: HostRuntime) -> Result<(), Fail> {
    check(&rt, b"1.", "error 1 @1:2/1")?;
    check(
        &rt,
        b"0w",
        "int 0 plain @1:1/0+1; id w @1:2/1+1; end @1:3/2+0; ",
    )?;
    check(
        &rt,
        b"0xg",
        "int 0 plain @1:1/0+1; id xg @1:2/1+2; end @1:4/3+0; ",
    )?;
    check(
        &rt,
        b"~0w1",
        "int 0 @1:1/0+2; id w1 @1:3/2+2; end @1:5/4+0; ",
    )?;
    check(&rt, b"0x1.5", "error 1 @1:4/3")?;
    check(&rt, b"1e5", "error 6 @1:1/0")?;
    check(&rt, b" 1E~5", "error 6 @1:2/1")?;
    check(&rt, b"~1.5e3", "error 6 @1:1/0")?;
    check(
        &rt,
        b"1e",
        "int 1 plain @1:1/0+1; id e @1:2/1+1; end @1:3/2+0; ",
    )?;
    check(&rt, b"#1.5", "error 6 @1:2/1")?;
    check(&rt, b"99999999999999999999.5", "error 6 @1:1/0")?;
    check(&rt, b"99999999999999999999", "error 5 @1:1/0")?;
    check(
        &rt,
        b"4611686018427387903 00",
        "int 4611686018427387903 plain @1:1/0+19; int 0 @1:21/20+2; end @1:23/22+0; ",
    )?;
    check(&rt, b"4611686018427387904", "error 5 @1:1/0")?;
    check(
        &rt,
        b"~4611686018427387903",
        "int -4611686018427387903 @1:1/0+20; end @1:21/20+0; ",
    )?;
    check(&rt, b"~4611686018427387904", "error 5 @1:1/0")?;
    check(
        &rt,
        b"0x3fffffffffffffff",
        "int 4611686018427387903 @1:1/0+18; end @1:19/18+0; ",
    )?;
    check(&rt, b"~0x4000000000000000", "error 5 @1:1/0")?;
    check(
        &rt,
        b"0w4294967295",
        "word 4294967295 @1:1/0+12; end @1:13/12+0; ",
    )?;
    check(&rt, b"0w4294967296", "error 5 @1:1/0")?;
    check(
        &rt,
        b"0wxFFffFFff",
        "word 4294967295 @1:1/0+11; end @1:12/11+0; ",
    )?;
    check(&rt, b"0wx100000000", "error 5 @1:1/0")?;
    check(
        &rt,
        b"12ab",
        "int 12 plain @1:1/0+2; id ab @1:3/2+2; end @1:5/4+0; ",
    )?;
    check(
        &rt,
        b"~ 1",
        "id ~ @1:1/0+1; int 1 plain @1:3/2+1; end @1:4/3+0; ",
    )?;
    check(
        &rt,
        b"~~1",
        "id ~~ @1:1/0+2; int 1 plain @1:3/2+1; end @1:4/3+0; ",
    )
}
