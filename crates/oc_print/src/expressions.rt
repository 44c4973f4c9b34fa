ghost use Rattle.std.specs.Prelude.{◌≡◌, ◌+◌, OnOk, map, codes};
ghost use Rattle.tl_text.specs.Pairs.{map_second};
ghost use Rattle.oc_ast.specs.View.{plain_apat, plain_arg, plain_atom, plain_full, plain_item, plain_mexp, plain_pat, plain_rbind, plain_simple, row_of_atoms, row_of_arms, row_of_items, row_of_binds};
ghost use Rattle.oc_layout.specs.Layout as layout;
ghost use Rattle.oc_layout.specs.Layout.{◌▸◌};

use crate::names::{operator, path, tyvars, value};
use crate::patterns::{apat, brackets, pat};
use crate::pen::{Pen, deeper};
use crate::signatures::{named, signature};
use crate::types::{constructor, definitions, type_of};
use oc_ast::{APat, ATy, Atom, Full, Item, MExp, Pat, RBind, Simple};
use tl_text::{Name, NoMemory};

/// An expression that may stand as an argument.
#[cycle(expressions)]
fn atom(pen: &mut Pen, exp: &Atom) -> Result<(), NoMemory>
    ensures { OnOk result (pen.new ≡ layout.atom (plain_atom exp.now) pen.old) }
{
    match exp {
        Atom::Const(lit) => pen.literal(lit),
        Atom::Val(name) => value(pen, name),
        Atom::Con(name) => path(pen, name),
        Atom::Unit => brackets(pen, b"(", b")"),
        Atom::Paren(inner) => {
            pen.mark(b"(")?;
            full(pen, inner.get())?;
            pen.mark(b")")
        }
        Atom::Tuple(first, rest) => {
            pen.mark(b"(")?;
            atom(pen, first.get())?;
            more_atoms(pen, b",", rest.items())?;
            pen.mark(b")")
        }
        Atom::Items(parts) => {
            pen.mark(b"[")?;
            list_items(pen, parts.items())?;
            pen.mark(b"]")
        }
    }
}

/// The parts of a list.
#[cycle(expressions)]
fn list_items(pen: &mut Pen, parts: &[Atom]) -> Result<(), NoMemory>
    ensures { OnOk result (pen.new ≡ layout.list_items (row_of_atoms (map plain_atom parts.now)) pen.old) }
{
    match parts.split_first() {
        None => Ok(()),
        Some((first, rest)) => {
            atom(pen, first)?;
            for part in rest {
                pen.mark(b";")?;
                atom(pen, part)?;
            }
            Ok(())
        }
    }
}

/// Further parts, each behind the mark.
#[cycle(expressions)]
fn more_atoms(pen: &mut Pen, between: &[u8], parts: &[Atom]) -> Result<(), NoMemory>
    ensures { OnOk result (pen.new ≡ layout.more_atoms between.now (row_of_atoms (map plain_atom parts.now)) pen.old) }
{
    for part in parts {
        pen.mark(between)?;
        atom(pen, part)?;
    }
    Ok(())
}

/// The arms of a match, each on a line of its own.
#[cycle(expressions)]
fn arms(pen: &mut Pen, indentation: usize, rows: &[(Pat, Atom)]) -> Result<(), NoMemory>
    ensures { OnOk result (pen.new ≡ layout.arms indentation (row_of_arms (map_second plain_atom rows.now)) pen.old) }
{
    for row in rows {
        pen.line_at(indentation)?;
        pen.mark(b"|")?;
        pat(pen, &row.0)?;
        pen.mark(b"->")?;
        atom(pen, &row.1)?;
    }
    Ok(())
}

/// An expression. What stands behind `in`, `;` and the arrow of a `fun` is the next turn of a loop, since such chains
/// are long.
#[cycle(expressions)]
fn full(pen: &mut Pen, exp: &Full) -> Result<(), NoMemory>
    ensures { OnOk result (pen.new ≡ layout.full (plain_full exp.now) pen.old) }
{
    let mut at = exp;
    'chain: loop {
        match at {
            Full::LetIn(pattern, right, rest) => {
                let_value(pen, pattern.get(), right.get())?;
                pen.behind_in()?;
                at = rest.get();
            }
            Full::LetRecIn(bindings, rest) => {
                rec_bindings(pen, bindings.items())?;
                pen.behind_in()?;
                at = rest.get();
            }
            Full::LetMod(name, inner, rest) => {
                let_module(pen, name, inner.items())?;
                pen.behind_in()?;
                at = rest.get();
            }
            Full::LetExn(name, arg, rest) => {
                pen.name(b"let")?;
                exception(pen, name, arg)?;
                pen.behind_in()?;
                at = rest.get();
            }
            Full::Then(first, rest) => {
                atom(pen, first.get())?;
                pen.mark(b";")?;
                pen.body()?;
                at = rest.get();
            }
            Full::Is(inner) => match inner {
                Simple::Fun(pattern, rest) => {
                    parameter(pen, pattern.get())?;
                    at = rest.get();
                }
                other => return simple(pen, other),
            },
            Full::If(test, first, other) => return choice(
                pen,
                test.get(),
                first.get(),
                other.get(),
            ),
            Full::Match(of, rows) => return matching(pen, b"match", of.get(), rows.items()),
            Full::Try(of, rows) => return matching(pen, b"try", of.get(), rows.items()),
            Full::While(test, inner) => return repetition(pen, test.get(), inner.get()),
        }
    }
}

/// `let`, a pattern, `=` and its right side.
#[cycle(expressions)]
fn let_value(pen: &mut Pen, pattern: &Pat, right: &Simple) -> Result<(), NoMemory>
    ensures { OnOk result (pen.new ≡ (layout.name (codes "let") ▸ layout.pat (plain_pat pattern.now) ▸ layout.mark (codes "=") ▸ layout.simple (plain_simple right.now)) pen.old) }
{
    pen.name(b"let")?;
    pat(pen, pattern)?;
    pen.mark(b"=")?;
    simple(pen, right)
}

/// `let module`, a name, `=` and its structure.
#[cycle(expressions)]
fn let_module(pen: &mut Pen, name: &Name, inner: &[Item]) -> Result<(), NoMemory>
    ensures { OnOk result (pen.new ≡ (layout.name (codes "let") ▸ layout.name (codes "module") ▸ layout.name name.now ▸ layout.mark (codes "=") ▸ layout.bracketed (codes "struct") (λ n. layout.items n (row_of_items (map plain_item inner.now)))) pen.old) }
{
    pen.name(b"let")?;
    named(pen, b"module", name)?;
    pen.mark(b"=")?;
    structure(pen, inner)
}

/// `if a then b else c`
#[cycle(expressions)]
fn choice(pen: &mut Pen, test: &Atom, first: &Atom, other: &Atom) -> Result<(), NoMemory>
    ensures { OnOk result (pen.new ≡ (layout.name (codes "if") ▸ layout.atom (plain_atom test.now) ▸ layout.name (codes "then") ▸ layout.atom (plain_atom first.now) ▸ layout.name (codes "else") ▸ layout.atom (plain_atom other.now)) pen.old) }
{
    pen.name(b"if")?;
    atom(pen, test)?;
    pen.name(b"then")?;
    atom(pen, first)?;
    pen.name(b"else")?;
    atom(pen, other)
}

/// `match` or `try`, what it looks at, `with`, and the arms.
#[cycle(expressions)]
fn matching(pen: &mut Pen, word: &[u8], of: &Atom, rows: &[(Pat, Atom)]) -> Result<(), NoMemory>
    ensures { OnOk result (pen.new ≡ (layout.here (λ l i. layout.name word.now ▸ layout.atom (plain_atom of.now) ▸ layout.name (codes "with") ▸ layout.arms (l + 2) (row_of_arms (map_second plain_atom rows.now)))) pen.old) }
{
    let indentation = deeper(pen.line())?;
    pen.name(word)?;
    atom(pen, of)?;
    pen.name(b"with")?;
    arms(pen, indentation, rows)
}

/// `while a do e done`
#[cycle(expressions)]
fn repetition(pen: &mut Pen, test: &Atom, inner: &Full) -> Result<(), NoMemory>
    ensures { OnOk result (pen.new ≡ (layout.name (codes "while") ▸ layout.atom (plain_atom test.now) ▸ layout.name (codes "do") ▸ layout.full (plain_full inner.now) ▸ layout.name (codes "done")) pen.old) }
{
    pen.name(b"while")?;
    atom(pen, test)?;
    pen.name(b"do")?;
    full(pen, inner)?;
    pen.name(b"done")
}

/// `fun`, a pattern and the arrow.
fn parameter(pen: &mut Pen, pattern: &APat) -> Result<(), NoMemory>
    ensures { OnOk result (pen.new ≡ (layout.name (codes "fun") ▸ layout.apat (plain_apat pattern.now) ▸ layout.mark (codes "->")) pen.old) }
{
    pen.name(b"fun")?;
    apat(pen, pattern)?;
    pen.mark(b"->")
}

/// `exception`, a name and its argument.
fn exception(pen: &mut Pen, name: &Name, arg: &Option<ATy>) -> Result<(), NoMemory>
    ensures { OnOk result (pen.new ≡ (layout.name (codes "exception") ▸ layout.cons name.now (plain_arg arg.now)) pen.old) }
{
    pen.name(b"exception")?;
    constructor(pen, name, arg)
}

/// An item.
#[cycle(expressions)]
pub fn item(pen: &mut Pen, it: &Item) -> Result<(), NoMemory>
    ensures { OnOk result (pen.new ≡ layout.item (plain_item it.now) pen.old) }
{
    match it {
        Item::Let(pattern, right) => let_value(pen, pattern, right),
        Item::LetRec(bindings) => rec_bindings(pen, bindings.items()),
        Item::Types(defs) => definitions(pen, defs.items()),
        Item::Exn(name, arg) => exception(pen, name, arg),
        Item::ExnAs(name, other) => {
            named(pen, b"exception", name)?;
            pen.mark(b"=")?;
            path(pen, other)
        }
        Item::Module(name, right) => {
            named(pen, b"module", name)?;
            pen.mark(b"=")?;
            module(pen, right.get())
        }
        Item::Sealed(name, sig, right) => {
            named(pen, b"module", name)?;
            pen.mark(b":")?;
            signature(pen, sig)?;
            pen.mark(b"=")?;
            module(pen, right.get())
        }
        Item::Functor(name, param, sig, right) => {
            named(pen, b"module", name)?;
            pen.mark(b"(")?;
            pen.name(param.bytes())?;
            pen.mark(b":")?;
            signature(pen, sig)?;
            pen.mark(b")")?;
            brackets(pen, b"(", b")")?;
            pen.mark(b"=")?;
            module(pen, right.get())
        }
    }
}

/// `struct`, the items, and `end` on a line of its own.
#[cycle(expressions)]
fn structure(pen: &mut Pen, inner: &[Item]) -> Result<(), NoMemory>
    ensures { OnOk result (pen.new ≡ layout.bracketed (codes "struct") (λ n. layout.items n (row_of_items (map plain_item inner.now))) pen.old) }
{
    let line = pen.line();
    let outer = pen.item();
    let indentation = deeper(outer)?;
    pen.name(b"struct")?;
    for it in inner {
        pen.start(indentation, indentation)?;
        item(pen, it)?;
    }
    pen.start(line, outer)?;
    pen.name(b"end")
}

/// A module expression.
#[cycle(expressions)]
fn module(pen: &mut Pen, exp: &MExp) -> Result<(), NoMemory>
    ensures { OnOk result (pen.new ≡ layout.mexp (plain_mexp exp.now) pen.old) }
{
    match exp {
        MExp::MAt(name) => path(pen, name),
        MExp::Struct(inner) => structure(pen, inner.items()),
        MExp::Apply(functor, arg) => {
            path(pen, functor)?;
            pen.mark(b"(")?;
            path(pen, arg)?;
            pen.mark(b")")?;
            brackets(pen, b"(", b")")
        }
        MExp::MSeal(inner, sig) => {
            pen.mark(b"(")?;
            module(pen, inner.get())?;
            pen.mark(b":")?;
            signature(pen, sig)?;
            pen.mark(b")")
        }
    }
}

/// `let rec` and the bindings, with `and` between.
#[cycle(expressions)]
fn rec_bindings(pen: &mut Pen, bindings: &[RBind]) -> Result<(), NoMemory>
    ensures { OnOk result (pen.new ≡ layout.rec_binds (row_of_binds (map plain_rbind bindings.now)) pen.old) }
{
    pen.name(b"let")?;
    pen.name(b"rec")?;
    match bindings.split_first() {
        None => Ok(()),
        Some((first, rest)) => {
            rec_binding(pen, first)?;
            for binding in rest {
                pen.name(b"and")?;
                rec_binding(pen, binding)?;
            }
            Ok(())
        }
    }
}

/// A recursive binding.
#[cycle(expressions)]
fn rec_binding(pen: &mut Pen, binding: &RBind) -> Result<(), NoMemory>
    ensures { OnOk result (pen.new ≡ layout.rbind (plain_rbind binding.now) pen.old) }
{
    match binding {
        RBind::Plain(name, right) => {
            pen.name(name.bytes())?;
            pen.mark(b"=")?;
            simple(pen, right)
        }
        RBind::Poly(name, vars, ty, right) => {
            pen.name(name.bytes())?;
            pen.mark(b":")?;
            tyvars(pen, vars.items())?;
            pen.mark(b".")?;
            type_of(pen, ty)?;
            pen.mark(b"=")?;
            simple(pen, right)
        }
    }
}

/// An expression with at most one thing to do.
#[cycle(expressions)]
fn simple(pen: &mut Pen, exp: &Simple) -> Result<(), NoMemory>
    ensures { OnOk result (pen.new ≡ layout.simple (plain_simple exp.now) pen.old) }
{
    match exp {
        Simple::One(inner) => atom(pen, inner),
        Simple::Call(function, arg) => {
            atom(pen, function.get())?;
            atom(pen, arg.get())
        }
        Simple::Build(name, arg) => {
            path(pen, name)?;
            atom(pen, arg.get())
        }
        Simple::Oper(left, name, right) => {
            atom(pen, left.get())?;
            operator(pen, name)?;
            atom(pen, right.get())
        }
        Simple::Fun(pattern, inner) => {
            parameter(pen, pattern.get())?;
            full(pen, inner.get())
        }
    }
}
