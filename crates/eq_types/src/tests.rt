use crate::{admits, equality_set};
use sml_static::{Label, MidData, Ty, TyName, VarKind};
use std::alloc::Global;
use std::test::Fail;
use tl_text::{Boxed, List, Name, NoMemory, Path};

/// The type name with that number; the names below 16 are the fixed ones.
fn name(id: u32, arity: u32) -> TyName {
    let equality = id < 16 && id != 5;
    TyName {
        id,
        arity,
        equality,
    }
}

fn pair(alloc: Global, first: Ty, second: Ty) -> Result<Ty, NoMemory> {
    let mut fields = List::new(alloc);
    fields.push((Label::Num(1), first))?;
    fields.push((Label::Num(2), second))?;
    Ok(Ty::Fields(fields))
}

fn applied(alloc: Global, id: u32, arg: Ty) -> Result<Ty, NoMemory> {
    let mut args = List::new(alloc);
    args.push(arg)?;
    Ok(Ty::Con(name(id, 1), args))
}

fn arrow(alloc: Global, from: Ty, to: Ty) -> Result<Ty, NoMemory> {
    let from = Boxed::new(alloc, from)?;
    let to = Boxed::new(alloc, to)?;
    Ok(Ty::Arrow(from, to))
}

/// A type that is written backwards: operands first, as `ii>` for `int -> int`. `i` is int, `x` exn, `a` and `b` are the
/// variables at places 0 and 1, `A` to `D` the datatypes 16 to 19; `*` is a pair, `>` an arrow, and `l`, `r` and `n`
/// apply list, ref and the datatype 16.
fn read(alloc: Global, text: &[u8]) -> Result<Ty, Fail> {
    let mut stack = Vec::new(alloc);
    for byte in text {
        let ty = match *byte {
            b'i' => Ty::Con(name(0, 0), List::new(alloc)),
            b'x' => Ty::Con(name(5, 0), List::new(alloc)),
            b'a' => Ty::Bound(0),
            b'b' => Ty::Bound(1),
            b'A' => Ty::Con(name(16, 0), List::new(alloc)),
            b'B' => Ty::Con(name(17, 0), List::new(alloc)),
            b'C' => Ty::Con(name(18, 0), List::new(alloc)),
            b'D' => Ty::Con(name(19, 0), List::new(alloc)),
            sign => put_together(alloc, sign, &mut stack)?,
        };
        stack.push(ty)?;
    }
    Ok(stack.pop().ok_or("no type")?)
}

fn put_together(alloc: Global, sign: u8, stack: &mut Vec<Ty>) -> Result<Ty, Fail> {
    let last = stack.pop().ok_or("no operand")?;
    match sign {
        b'l' => Ok(applied(alloc, 6, last)?),
        b'r' => Ok(applied(alloc, 7, last)?),
        b'n' => Ok(applied(alloc, 16, last)?),
        b'*' => {
            let first = stack.pop().ok_or("no first part")?;
            Ok(pair(alloc, first, last)?)
        }
        _ => {
            let from = stack.pop().ok_or("no argument")?;
            Ok(arrow(alloc, from, last)?)
        }
    }
}

/// The datatype with that number, whose constructors have these arguments; the empty text is none.
fn data(alloc: Global, id: u32, arguments: [&[u8]; 2]) -> Result<MidData, Fail> {
    let mut cons = List::new(alloc);
    for text in arguments {
        let word = Name::new(alloc, b"C")?;
        if text.is_empty() {
            cons.push((word, None))?;
        } else {
            let ty = read(alloc, text)?;
            cons.push((word, Some(ty)))?;
        }
    }
    Ok(MidData {
        path: Path::new(alloc),
        name: name(id, 0),
        cons,
    })
}

/// The numbers of the equality set of four datatypes 16 to 19, as bits.
fn set_of(alloc: Global, row: [[&[u8]; 2]; 4]) -> Result<[bool; 4], Fail> {
    let mut binds = Vec::new(alloc);
    let mut id = 16u32;
    for arguments in row {
        let bind = data(alloc, id, arguments)?;
        binds.push(bind)?;
        id = id.wrapping_add(1);
    }
    let set = equality_set(alloc, binds.as_slice())?;
    let mut found = [false; 4];
    for name in set.items() {
        if name.id >= 16 && name.id < 20 {
            found[(name.id - 16) as usize] = true;
        }
    }
    Ok(found)
}

// A function or exn that admits equality, a `ref` that is looked into, a variable whose kind is not asked.
#[test]
fn types_admit_equality(rt: HostRuntime) -> Result<(), Fail> {
    let alloc = rt.alloc();
    let kinds = [VarKind::Plain, VarKind::Equal];
    let supposed = [name(17, 0)];
    let rows: [(&[u8], bool); 12] = [
        (b"i", true),
        (b"ii>", false),
        (b"x", false),
        (b"ib*l", true),
        (b"ia*l", false),
        (b"ii>r", true),
        (b"ar", true),
        (b"ii>l", false),
        (b"ixr*", true),
        (b"A", false),
        (b"Bb*", true),
        (b"BA*", false),
    ];
    for (text, want) in rows {
        let ty = read(alloc, text)?;
        assert_eq!(rt; admits(&ty, &kinds, &supposed), want, "at {text:?}");
    }
    Ok(())
}

// The least set in place of the greatest, a constructor or a datatype that is not looked at, a name that is struck out
// too late to take others with it.
#[test]
fn rows_have_their_greatest_set(rt: HostRuntime) -> Result<(), Fail> {
    let alloc = rt.alloc();
    let none: [&[u8]; 2] = [b"", b""];
    // 'a n = E | N of 'a * ('a * 'a) n
    let nested = set_of(alloc, [[b"", b"aaa*n*"], none, none, none])?;
    assert_eq!(rt; nested, [true, true, true, true]);
    // a = F of int -> int, b = B of a, c = C of c, d = D of (int -> int) ref
    let functions = set_of(
        alloc,
        [[b"", b"ii>"], [b"A", b""], [b"C", b"i"], [b"ii>r", b""]],
    )?;
    assert_eq!(rt; functions, [false, false, true, true]);
    // a = A of b, b = B of c, c = C of d list, d = D of a * exn
    let last = set_of(
        alloc,
        [[b"B", b""], [b"C", b""], [b"Dl", b""], [b"", b"Ax*"]],
    )?;
    assert_eq!(rt; last, [false, false, false, false]);
    // a = A of b, b = B of a: each for the other's sake
    let mutual = set_of(
        alloc,
        [[b"B", b"i"], [b"", b"AA*"], [b"Dr", b""], [b"ii>", b"Ar"]],
    )?;
    assert_eq!(rt; mutual, [true, true, true, false]);
    Ok(())
}
