use crate::shown::shown;
use std::process::Abort;
use std::test::Fail;

fn check(rt: &(impl Abort + AllocGlobal), source: &[u8], expected: &str) -> Result<(), Fail> {
    let found = shown(rt.alloc(), source)?;
    assert_eq!(rt; found.as_str(), expected);
    Ok(())
}

#[test]
fn strings(rt: HostRuntime) -> Result<(), Fail> {
    check(
        &rt,
        b"\"\\a\\b\\t\\n\\v\\f\\r\\\"\\\\\"",
        "text 7 8 9 10 11 12 13 34 92 @1:1/0+20; end @1:21/20+0; ",
    )?;
    check(
        &rt,
        b"\"\\^@\\^_\\000\\255\\u00fF\"",
        "text 0 31 0 255 255 @1:1/0+22; end @1:23/22+0; ",
    )?;
    check(
        &rt,
        b"\"a\\ \n\\b\"x",
        "text 97 98 @1:1/0+8; id x @2:4/8+1; end @2:5/9+0; ",
    )?;
    check(
        &rt,
        b"\"\t\x80\xff\"",
        "text 9 128 255 @1:1/0+5; end @1:6/5+0; ",
    )?;
    check(&rt, b"\"\\3", "error 2 @1:2/1")?;
    check(&rt, b"\"\\2", "error 4 @1:1/0")?;
    check(&rt, b"\"\\26", "error 2 @1:2/1")?;
    check(&rt, b"\"\\256\"", "error 2 @1:2/1")?;
    check(&rt, b"\"\\u1", "error 2 @1:2/1")?;
    check(&rt, b"\"\\u00", "error 4 @1:1/0")?;
    check(&rt, b"\"\\^`", "error 2 @1:2/1")?;
    check(&rt, b"\"\\q", "error 2 @1:2/1")?;
    check(&rt, b"\"\\ x", "error 2 @1:2/1")?;
    check(&rt, b"\"\\ \n", "error 4 @1:1/0")?;
    check(&rt, b"\"\\\n", "error 4 @1:1/0")?;
    check(&rt, b"\"a\n\"", "error 4 @1:1/0")?;
    check(&rt, b"\"a\x7f\"", "error 1 @1:3/2")?;
    check(&rt, b"\"a\x01\n", "error 1 @1:3/2")?;
    check(&rt, b"\"a", "error 4 @1:1/0")
}

#[test]
fn characters(rt: HostRuntime) -> Result<(), Fail> {
    check(&rt, b"#\"a\"", "char 97 @1:1/0+4; end @1:5/4+0; ")?;
    check(
        &rt,
        b"#\"\\ \\\\065\"",
        "char 65 @1:1/0+10; end @1:11/10+0; ",
    )?;
    check(&rt, b"#\"\"", "error 1 @1:1/0")?;
    check(&rt, b"#\"ab\"", "error 1 @1:1/0")?;
    check(&rt, b"#\"ab", "error 4 @1:2/1")?;
    check(&rt, b"#\"ab\\q\"", "error 2 @1:5/4")?;
    check(&rt, b"#\"ab\x02\"", "error 1 @1:5/4")
}
