ghost use Rattle.std.specs.Prelude.{ℕ, IfOk};
ghost use Rattle.ty_unify.specs.Stores.{HasNode};

use crate::two_nodes::is_over;
use crate::types::{applied, arrow, named, record};
use sml_static::{Class, Label, Ty, TyName, VarKind};
use std::alloc::Global;
use std::test::Fail;
use tl_text::{List, Name, NoMemory, Place};
use ty_unify::{Late, Node, Store, UnifyFault};

const INT: TyName = TyName {
    id: 0,
    arity: 0,
    equality: true,
};

const EXN: TyName = TyName {
    id: 5,
    arity: 0,
    equality: false,
};

const LIST: TyName = TyName {
    id: 6,
    arity: 1,
    equality: true,
};

const REF: TyName = TyName {
    id: 7,
    arity: 1,
    equality: true,
};

/// A type that is written backwards: operands first, as `ii>` for `int -> int`. `i` is int, `x` exn, `u` unit, `a` and `b` are
/// two nodes; `*` is a pair, `q` a record with the labels 1 and w, `>` an arrow, and `l` and `r` apply list and ref.
fn read(alloc: Global, text: &[u8], a: Node, b: Node) -> Result<Ty, Fail> {
    let mut stack = Vec::new(alloc);
    for byte in text {
        let ty = match *byte {
            b'i' => named(alloc, INT),
            b'x' => named(alloc, EXN),
            b'u' => Ty::Fields(List::new(alloc)),
            b'a' => Ty::Free(a.number),
            b'b' => Ty::Free(b.number),
            sign => put_together(alloc, sign, &mut stack)?,
        };
        stack.push(ty)?;
    }
    Ok(stack.pop().ok_or("no type")?)
}

fn put_together(alloc: Global, sign: u8, stack: &mut Vec<Ty>) -> Result<Ty, Fail> {
    let last = stack.pop().ok_or("no operand")?;
    if sign == b'l' {
        return Ok(applied(alloc, LIST, last)?);
    }
    if sign == b'r' {
        return Ok(applied(alloc, REF, last)?);
    }
    let first = stack.pop().ok_or("no first operand")?;
    match sign {
        b'*' => Ok(record(alloc, first, Label::Num(2), last)?),
        b'q' => {
            let word = Name::new(alloc, b"w")?;
            Ok(record(alloc, first, Label::Word(word), last)?)
        }
        _ => Ok(arrow(alloc, first, last)?),
    }
}

/// The node of a type over two nodes.
fn put(alloc: Global, store: &mut Store, a: Node, b: Node, text: &[u8]) -> Result<Node, Fail>
    requires a { HasNode store.old a.number }
    requires b { HasNode store.old b.number }
    ensures node { IfOk result (λ n. HasNode store.new n.number) }
    ensures nodes { IfOk result (λ _. (i : ℕ) → HasNode store.old i → HasNode store.new i) }
{
    let ty = read(alloc, text, a, b)?;
    if !is_over(&ty, a.number, b.number) {
        return Err(None.ok_or("a type over other nodes")?);
    }
    let node = store.build(&ty)?;
    Ok(node)
}

fn row_sign(fields: &[(Label, Ty)]) -> u8 {
    match fields {
        [] => b'u',
        [.., last] => match &last.0 {
            Label::Word(_) => b'q',
            Label::Num(_) => b'*',
        },
    }
}

fn name_sign(id: u32) -> u8 {
    match id {
        0 => b'i',
        5 => b'x',
        6 => b'l',
        _ => b'r',
    }
}

/// Writes the type as it is read, but each variable as `v`.
fn show(out: &mut Vec<u8>, ty: &Ty) -> Result<(), NoMemory> {
    match ty {
        Ty::Free(_) | Ty::Bound(_) => out.push(b'v')?,
        Ty::Fields(fields) => {
            for field in fields.items() {
                show(out, &field.1)?;
            }
            out.push(row_sign(fields.items()))?;
        }
        Ty::Arrow(from, to) => {
            show(out, from.get())?;
            show(out, to.get())?;
            out.push(b'>')?;
        }
        Ty::Con(name, args) => {
            for arg in args.items() {
                show(out, arg)?;
            }
            out.push(name_sign(name.id))?;
        }
    }
    Ok(())
}

/// The type that the two are made, over variables of these kinds, and whether the second variable then admits equality;
/// "clash" where nothing makes them one, after which the first variable can still be int.
fn joined(
    alloc: Global,
    kinds: [VarKind; 2],
    first: &[u8],
    second: &[u8],
) -> Result<Vec<u8>, Fail> {
    let mut store = Store::new(alloc);
    let a = store.fresh(kinds[0])?;
    let b = store.fresh(kinds[1])?;
    let int = put(alloc, &mut store, a, b, b"i")?;
    let x = put(alloc, &mut store, a, b, first)?;
    let y = put(alloc, &mut store, a, b, second)?;
    let mut out = Vec::new(alloc);
    match store.unify(x, y) {
        Ok(()) => {
            let ty = store.read_back(x)?;
            show(&mut out, &ty)?;
        }
        Err(UnifyFault::Clash) => {
            if let Ok(()) = store.unify(a, int) {
                out.extend_from_slice(b"clash")?;
            }
        }
        Err(UnifyFault::NoMemory) => return Err(None.ok_or("no memory")?),
    }
    Ok(out)
}

// A call that gives up, a kind that is lost or asked for too much, labels or names that are taken for one another, a
// type that leads back to itself.
#[test]
fn types_are_joined(rt: HostRuntime) -> Result<(), Fail> {
    let alloc = rt.alloc();
    let plain = [VarKind::Plain, VarKind::Plain];
    let equal = [VarKind::Equal, VarKind::Plain];
    let rows: [([VarKind; 2], &[u8], &[u8], &[u8]); 17] = [
        (plain, b"ai>", b"ib>", b"ii>"),
        (plain, b"ab*", b"ba*", b"vv*"),
        (plain, b"abq", b"ilbq", b"ilvq"),
        (plain, b"aabb>>>", b"ibaa>>>", b"iiii>>>"),
        (plain, b"u", b"u", b"u"),
        (plain, b"a", b"x", b"x"),
        (plain, b"i", b"x", b"clash"),
        (plain, b"al", b"ar", b"clash"),
        (plain, b"ab*", b"abq", b"clash"),
        (plain, b"u", b"aa*", b"clash"),
        (plain, b"a", b"aa>", b"clash"),
        (plain, b"aa*", b"bbb>*", b"clash"),
        (equal, b"a", b"i", b"i"),
        (equal, b"a", b"ii>r", b"ii>r"),
        (equal, b"a", b"x", b"clash"),
        (equal, b"ab*", b"bii>*", b"clash"),
        (equal, b"al", b"ii>l", b"clash"),
    ];
    for (kinds, first, second, want) in rows {
        let text = joined(alloc, kinds, first, second)?;
        assert_eq!(rt; text.as_slice(), want, "at {first:?} and {second:?}");
    }
    Ok(())
}

// A bound that is not handed on to the parts of a type, or is handed to those of a `ref`.
#[test]
fn kinds_go_along(rt: HostRuntime) -> Result<(), Fail> {
    let alloc = rt.alloc();
    let rows: [(&[u8], VarKind); 4] = [
        (b"b", VarKind::Equal),
        (b"bil*", VarKind::Equal),
        (b"br", VarKind::Plain),
        (b"i", VarKind::Plain),
    ];
    for (text, want) in rows {
        let mut store = Store::new(alloc);
        let a = store.fresh(VarKind::Equal)?;
        let b = store.fresh(VarKind::Plain)?;
        let x = put(alloc, &mut store, a, b, text)?;
        match store.unify(a, x) {
            Ok(()) => {}
            Err(_) => return Err(None.ok_or("not joined")?),
        }
        assert_eq!(rt; store.kind(b), want, "at {text:?}");
    }
    Ok(())
}

// An entry that does not hold what it is given.
#[test]
fn late_entries_are_data(rt: HostRuntime) -> Result<(), Fail> {
    let alloc = rt.alloc();
    let mut store = Store::new(alloc);
    let node = store.fresh(VarKind::Plain)?;
    let place = Place {
        source: 1,
        line: 2,
        col: 3,
        byte: 4,
    };
    let mut fields = List::new(alloc);
    fields.push((Label::Num(2), node))?;
    let rows = [
        Late::Over(node, Class::Num, place),
        Late::Flex(node, fields, place),
    ];
    let mut count = 0u32;
    for late in &rows {
        count = match late {
            Late::Over(at, Class::Num, _) if at.number == node.number => 1,
            Late::Flex(_, fields, _) if fields.items().len() == 1 => count.wrapping_add(2),
            _ => 100,
        };
    }
    assert_eq!(rt; count, 3);
    Ok(())
}
