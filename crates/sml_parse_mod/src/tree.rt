ghost use Rattle.std.specs.Prelude.{◌≡◌, ◌∷◌, ◌+◌, [], IfOk, suc, max};
ghost use Rattle.sml_ast.specs.declared.program.StrExp.TheVariants as strexps;
ghost use Rattle.sml_grammar.specs.Pats.{opt_height, opt_tree};
ghost use Rattle.sml_grammar_exp.specs.Exps as exps;
ghost use Rattle.sml_grammar_mod.specs.Programs as programs;
ghost use Rattle.sml_grammar_mod.specs.Strs as grammar;
ghost use Rattle.sml_parse_mod.specs.Trees as trees;

use sml_ast::{Ascribe, Dec, Exp, Ident, StrDec, StrExp, Top};
use sml_parse_bind::higher;
use sml_scan::above;
use std::alloc::Global;
use tl_text::{Boxed, List, NoMemory, Path, Place};

/// The place of the first token.
fn str_place(found: &StrExp) -> Place
    ensures { result ≡ grammar.str_place found.now }
{
    match found {
        StrExp::Body(place, _) => *place,
        StrExp::At(place, _) => *place,
        StrExp::Seal(place, _, _) => *place,
        StrExp::Call(place, _, _) => *place,
        StrExp::CallBody(place, _, _) => *place,
        StrExp::LetStr(place, _, _) => *place,
    }
}

/// The place of the first token.
pub fn dec_place(dec: &Dec) -> Place
    ensures { result ≡ grammar.dec_place dec.now }
{
    match dec {
        Dec::Vals(place, ..) => *place,
        Dec::Funs(place, ..) => *place,
        Dec::Types(place, ..) => *place,
        Dec::Datas(place, ..) => *place,
        Dec::Copy(place, ..) => *place,
        Dec::Exns(place, ..) => *place,
        Dec::Local(place, ..) => *place,
        Dec::Opens(place, ..) => *place,
        Dec::Fix(place, ..) => *place,
        Dec::Nonfix(place, ..) => *place,
        Dec::Abs(place, ..) => *place,
    }
}

/// The place of the first token.
pub fn strdec_place(dec: &StrDec) -> Place
    ensures { result ≡ programs.strdec_place dec.now }
{
    match dec {
        StrDec::Core(place, _) => *place,
        StrDec::Structs(place, _) => *place,
        StrDec::LocalStr(place, _, _) => *place,
    }
}

/// The place of the first token.
pub fn exp_place(exp: &Exp) -> Place
    ensures { result ≡ exps.exp_place exp.now }
{
    match exp {
        Exp::Apply(place, ..) => *place,
        Exp::Infix(place, ..) => *place,
        Exp::Typed(place, ..) => *place,
        Exp::AndAlso(place, ..) => *place,
        Exp::OrElse(place, ..) => *place,
        Exp::Handle(place, ..) => *place,
        Exp::Raise(place, ..) => *place,
        Exp::If(place, ..) => *place,
        Exp::While(place, ..) => *place,
        Exp::Case(place, ..) => *place,
        Exp::Fn(place, ..) => *place,
    }
}

/// The place of the first token.
pub fn top_place(top: &Top) -> Place
    ensures { result ≡ programs.top_place top.now }
{
    match top {
        Top::Strs(place, _) => *place,
        Top::Sigs(place, _) => *place,
        Top::Funs(place, _) => *place,
        Top::Run(place, _) => *place,
    }
}

/// A structure that is an identifier.
pub fn named(alloc: Global, name: Ident) -> Result<(StrExp, u32), NoMemory>
    ensures { IfOk result (λ x. x ≡ grammar.at_of (name.0, name.1 ∷ [])) }
{
    let (place, name) = name;
    let mut path = Path::new(alloc);
    path.push(name)?;
    Ok((StrExp::At(place, (place, path)), 1))
}

/// `F (e)`
pub fn call(alloc: Global, functor: Ident, arg: (StrExp, u32)) -> Result<(StrExp, u32), NoMemory>
    ensures { IfOk result (λ x. x ≡ grammar.call_of (functor, arg)) }
{
    let height = above(arg.1, 0)?;
    let arg = Boxed::new(alloc, arg.0)?;
    Ok((StrExp::Call(functor.0, functor, arg), height))
}

/// `let d in e end`, where the highest of the declarations has this height.
pub fn let_tree(
    alloc: Global,
    place: Place,
    decs: (List<StrDec>, u32),
    inner: (StrExp, u32),
) -> Result<(StrExp, u32), NoMemory>
    ensures { IfOk result (λ x. x ≡ (strexps.LetStr place decs.0 inner.0, max decs.1 inner.1 + 1)) }
{
    let height = above(decs.1, inner.1)?;
    let inner = Boxed::new(alloc, inner.0)?;
    Ok((StrExp::LetStr(place, decs.0, inner), height))
}

/// `e : G`, `e :> G`
pub fn sealed(
    alloc: Global,
    found: (StrExp, u32),
    ascription: (Ascribe, u32),
) -> Result<(StrExp, u32), NoMemory>
    ensures { IfOk result (λ x. x ≡ grammar.seal_of (found, ascription)) }
{
    let place = str_place(&found.0);
    let height = above(found.1, ascription.1)?;
    let inner = Boxed::new(alloc, found.0)?;
    Ok((StrExp::Seal(place, inner, ascription.0), height))
}

/// An optional tree without its height, and the height.
pub fn optional<T>(found: Option<(T, u32)>) -> (Option<T>, u32)
    ensures { result ≡ (opt_tree found, opt_height found) }
{
    match found {
        None => (None, 0),
        Some((tree, height)) => (Some(tree), height),
    }
}

/// A tree and its height, one more than this. NoMemory where it is too great.
pub fn with_height<T: Drop>(tree: T, inside: u32) -> Result<(T, u32), NoMemory>
    ensures { IfOk result (λ x. x ≡ (tree, suc inside)) }
{
    let height = above(inside, 0)?;
    Ok((tree, height))
}

/// A row and the height of its highest, with one more.
pub fn added<T: Drop>(row: (List<T>, u32), last: (T, u32)) -> Result<(List<T>, u32), NoMemory>
    ensures { IfOk result (λ x. x ≡ trees.added row last) }
{
    let (mut found, height) = row;
    let height = higher(height, last.1);
    found.push(last.0)?;
    Ok((found, height))
}

/// A row and the height of its highest, with one more where one is done.
pub fn with_done<T: Drop>(
    row: (List<T>, u32),
    done: Option<(T, u32)>,
) -> Result<(List<T>, u32), NoMemory>
    ensures { IfOk result (λ x. x ≡ trees.with_done row done) }
{
    match done {
        None => Ok(row),
        Some(last) => added(row, last),
    }
}

/// The same behind a turn, which hands on what comes after it.
pub fn with_turn<T: Drop, L: Drop>(
    row: (List<T>, u32),
    turn: (Option<(T, u32)>, L),
) -> Result<((List<T>, u32), L), NoMemory>
    ensures { IfOk result (λ x. x ≡ (trees.with_done row turn.0, turn.1)) }
{
    let (done, last) = turn;
    let row = with_done(row, done)?;
    Ok((row, last))
}
