//! That derived forms are taken out of a source, with each call of the crates below on the way: a body that always answers
//! NoMemory meets each contract. And the time and the stack that a long and a deep source take, which no contract bounds.

use sml_ast::{
    Ascribe, AtExp, AtPat, BareProgram, Clause, DatBind, DatDesc, Dec, ExBind, Exp, FunBind, Ident,
    Lab, LongIdent, PField, Pat, Program, Rule, SigBind, SigExp, Spec, StrBind, StrDec, StrExp,
    Top, Ty, TyBind, Tyvars,
};
use sml_derive::derive;
use sml_derive_forms::{one, two};
use std::alloc::Global;
use std::test::Fail;
use tl_text::{Boxed, List, Lit, Name, NoMemory, Path, Place};

const PLACE: Place = Place {
    source: 1,
    line: 1,
    col: 1,
    byte: 0,
};

/// `a`
fn ident(alloc: Global) -> Result<Ident, NoMemory> {
    let name = Name::new(alloc, b"a")?;
    Ok((PLACE, name))
}

fn long(alloc: Global) -> Result<LongIdent, NoMemory> {
    let mut path = Path::new(alloc);
    path.push(Name::new(alloc, b"a")?)?;
    Ok((PLACE, path))
}

fn atom(alloc: Global, atom: AtExp) -> Result<Exp, NoMemory> {
    let atoms = one(alloc, atom)?;
    Ok(Exp::Apply(PLACE, atoms))
}

fn var(alloc: Global) -> Result<Exp, NoMemory> {
    let id = long(alloc)?;
    atom(alloc, AtExp::Id(PLACE, false, id))
}

fn part(alloc: Global) -> Result<Boxed<Exp>, NoMemory> {
    let exp = var(alloc)?;
    Boxed::new(alloc, exp)
}

fn vars(alloc: Global) -> Result<List<Exp>, NoMemory> {
    let first = var(alloc)?;
    let then = var(alloc)?;
    two(alloc, first, then)
}

/// `a * a`
fn ty(alloc: Global) -> Result<Ty, NoMemory> {
    let first = Ty::TCon(PLACE, List::new(alloc), long(alloc)?);
    let first = Boxed::new(alloc, first)?;
    let then = Ty::Tyvar(PLACE, ident(alloc)?);
    let then = one(alloc, then)?;
    Ok(Ty::TTuple(PLACE, first, then))
}

/// `({a : a * a, ...}, [1])`
fn pat(alloc: Global) -> Result<Pat, NoMemory> {
    let field = PField::Pun(PLACE, ident(alloc)?, Some(ty(alloc)?), None);
    let fields = two(alloc, field, PField::Rest(PLACE))?;
    let first = Pat::PAtom(PLACE, AtPat::PFields(PLACE, fields));
    let items = one(alloc, Pat::PAtom(PLACE, AtPat::PLit(PLACE, Lit::Int(1))))?;
    let then = one(alloc, Pat::PAtom(PLACE, AtPat::PItems(PLACE, items)))?;
    let first = Boxed::new(alloc, first)?;
    Ok(Pat::PAtom(PLACE, AtPat::PTuple(PLACE, first, then)))
}

/// `pat => a`
fn rules(alloc: Global) -> Result<List<Rule>, NoMemory> {
    let pat = pat(alloc)?;
    let exp = var(alloc)?;
    one(alloc, Rule::Arm(PLACE, pat, exp))
}

/// Adds atomic expressions with derived forms.
fn add_atoms(alloc: Global, done: &mut List<AtExp>) -> Result<(), NoMemory> {
    let label = (PLACE, Lab::Word(Name::new(alloc, b"a")?));
    done.push(AtExp::Pick(PLACE, label))?;
    done.push(AtExp::Unit(PLACE))?;
    let first = part(alloc)?;
    done.push(AtExp::Tuple(PLACE, first, vars(alloc)?))?;
    let first = part(alloc)?;
    done.push(AtExp::Seq(PLACE, first, vars(alloc)?))?;
    done.push(AtExp::Let(PLACE, List::new(alloc), vars(alloc)?))?;
    done.push(AtExp::Items(PLACE, vars(alloc)?))?;
    Ok(())
}

/// Adds expressions with derived forms.
fn add_exps(alloc: Global, done: &mut List<Exp>) -> Result<(), NoMemory> {
    let first = part(alloc)?;
    done.push(Exp::AndAlso(PLACE, first, part(alloc)?))?;
    let first = part(alloc)?;
    done.push(Exp::OrElse(PLACE, first, part(alloc)?))?;
    let first = part(alloc)?;
    done.push(Exp::While(PLACE, first, part(alloc)?))?;
    let first = part(alloc)?;
    done.push(Exp::Case(PLACE, first, rules(alloc)?))?;
    let test = part(alloc)?;
    let first = part(alloc)?;
    done.push(Exp::If(PLACE, test, first, part(alloc)?))?;
    Ok(())
}

/// `a a : a * a = a`
fn clause(alloc: Global) -> Result<Clause, NoMemory> {
    let name = ident(alloc)?;
    let arg = AtPat::PId(PLACE, false, long(alloc)?);
    let args = one(alloc, arg)?;
    let ty = ty(alloc)?;
    Ok(Clause::Prefix(PLACE, false, name, args, Some(ty), var(alloc)?))
}

/// `a a = a`, where the second name is infix
fn infix_clause(alloc: Global) -> Result<Clause, NoMemory> {
    let left = AtPat::PId(PLACE, false, long(alloc)?);
    let right = AtPat::PUnit(PLACE);
    let name = ident(alloc)?;
    Ok(Clause::Mid(PLACE, left, name, right, None, var(alloc)?))
}

/// `'a a`
fn head(alloc: Global) -> Result<(Tyvars, Ident), NoMemory> {
    let vars = one(alloc, ident(alloc)?)?;
    let name = ident(alloc)?;
    Ok((vars, name))
}

/// `'a a = a * 'a`
fn ty_bind(alloc: Global) -> Result<TyBind, NoMemory> {
    let (vars, name) = head(alloc)?;
    let ty = ty(alloc)?;
    Ok((vars, name, ty))
}

/// `'a a = a of a * 'a`
fn dat_bind(alloc: Global) -> Result<DatBind, NoMemory> {
    let (vars, name) = head(alloc)?;
    let con = ident(alloc)?;
    let ty = ty(alloc)?;
    let cons = one(alloc, (false, con, Some(ty)))?;
    Ok(DatBind::Data(PLACE, vars, name, cons))
}

/// Adds declarations.
fn add_decs(alloc: Global, done: &mut List<Dec>) -> Result<(), NoMemory> {
    let first = clause(alloc)?;
    let clauses = one(alloc, first)?;
    let then = infix_clause(alloc)?;
    let then = one(alloc, then)?;
    let functions = two(alloc, clauses, then)?;
    done.push(Dec::Funs(PLACE, List::new(alloc), functions))?;
    done.push(Dec::Opens(PLACE, one(alloc, long(alloc)?)?))?;
    let exn = ExBind::NewExn(PLACE, false, ident(alloc)?, None);
    done.push(Dec::Exns(PLACE, one(alloc, exn)?))?;
    Ok(())
}

/// Adds declarations of types.
fn add_types(alloc: Global, done: &mut List<Dec>) -> Result<(), NoMemory> {
    let ty = ty_bind(alloc)?;
    done.push(Dec::Types(PLACE, one(alloc, ty)?))?;
    let dat = dat_bind(alloc)?;
    let dat = one(alloc, dat)?;
    done.push(Dec::Datas(PLACE, dat, List::new(alloc)))?;
    let dat = dat_bind(alloc)?;
    let dat = one(alloc, dat)?;
    let ty = ty_bind(alloc)?;
    done.push(Dec::Datas(PLACE, dat, one(alloc, ty)?))?;
    let dat = dat_bind(alloc)?;
    let dat = one(alloc, dat)?;
    let ty = ty_bind(alloc)?;
    done.push(Dec::Abs(PLACE, dat, one(alloc, ty)?, List::new(alloc)))?;
    Ok(())
}

/// Adds specifications.
fn add_specs(alloc: Global, done: &mut List<Spec>) -> Result<(), NoMemory> {
    let bind = ty_bind(alloc)?;
    done.push(Spec::SynSpec(PLACE, one(alloc, bind)?))?;
    done.push(Spec::Incls(PLACE, one(alloc, ident(alloc)?)?))?;
    let bare = head(alloc)?;
    done.push(Spec::TySpec(PLACE, one(alloc, bare)?))?;
    let name = ident(alloc)?;
    let ty = ty(alloc)?;
    done.push(Spec::ValSpec(PLACE, one(alloc, (name, ty))?))?;
    let first = long(alloc)?;
    done.push(Spec::ShareStr(PLACE, first, one(alloc, long(alloc)?)?))?;
    Ok(())
}

/// Adds descriptions of datatypes and exceptions.
fn add_descriptions(alloc: Global, done: &mut List<Spec>) -> Result<(), NoMemory> {
    let (vars, name) = head(alloc)?;
    let con = ident(alloc)?;
    let cons = one(alloc, (con, None))?;
    let desc = DatDesc::Desc(PLACE, vars, name, cons);
    done.push(Spec::DataSpec(PLACE, one(alloc, desc)?))?;
    let exn = ident(alloc)?;
    done.push(Spec::ExnSpec(PLACE, one(alloc, (exn, None))?))?;
    Ok(())
}

/// `sig .. end`
fn sig(alloc: Global) -> Result<SigExp, NoMemory> {
    let mut specs = List::new(alloc);
    add_specs(alloc, &mut specs)?;
    add_descriptions(alloc, &mut specs)?;
    Ok(SigExp::Specs(PLACE, specs))
}

/// `a (decs)`
fn structure(alloc: Global) -> Result<StrExp, NoMemory> {
    let mut decs = List::new(alloc);
    add_decs(alloc, &mut decs)?;
    add_types(alloc, &mut decs)?;
    let dec = Dec::Local(PLACE, List::new(alloc), decs);
    let decs = one(alloc, StrDec::Core(PLACE, dec))?;
    Ok(StrExp::CallBody(PLACE, ident(alloc)?, decs))
}

/// `structure a :> sig .. end = a (..)`
fn structures(alloc: Global) -> Result<StrDec, NoMemory> {
    let name = ident(alloc)?;
    let ascribe = Ascribe::Opaque(PLACE, sig(alloc)?);
    let bind = StrBind::Bind(PLACE, name, Some(ascribe), structure(alloc)?);
    Ok(StrDec::Structs(PLACE, one(alloc, bind)?))
}

/// `functor a (specs) = a`
fn functor(alloc: Global) -> Result<FunBind, NoMemory> {
    let mut specs = List::new(alloc);
    add_specs(alloc, &mut specs)?;
    let name = ident(alloc)?;
    let body = StrExp::At(PLACE, long(alloc)?);
    Ok(FunBind::FunSpecs(PLACE, name, specs, None, body))
}

/// Adds top-level declarations with modules.
fn add_modules(alloc: Global, done: &mut List<Top>) -> Result<(), NoMemory> {
    let structures = structures(alloc)?;
    done.push(Top::Strs(PLACE, structures))?;
    let functor = functor(alloc)?;
    done.push(Top::Funs(PLACE, one(alloc, functor)?))?;
    let sig = SigBind::SigAs(PLACE, ident(alloc)?, sig(alloc)?);
    done.push(Top::Sigs(PLACE, one(alloc, sig)?))?;
    Ok(())
}

/// How many top-level declarations a source has without derived forms.
fn derived_tops(alloc: Global, tops: List<Top>) -> Result<usize, NoMemory> {
    let source = Program::Tops(PLACE, tops);
    let program = derive(alloc, &source)?;
    match &program {
        BareProgram::Tops(_, tops) => Ok(tops.items().len()),
    }
}

/// The same of one expression.
fn derived_exp(alloc: Global, exp: Exp) -> Result<usize, NoMemory> {
    let tops = one(alloc, Top::Run(PLACE, exp))?;
    derived_tops(alloc, tops)
}

// A call that always answers NoMemory.
#[test]
fn answers(rt: HostRuntime) -> Result<(), Fail> {
    let alloc = rt.alloc();
    let mut tops = List::new(alloc);
    add_modules(alloc, &mut tops)?;
    assert_eq!(rt; derived_tops(alloc, tops)?, 3);
    let mut exps = List::new(alloc);
    add_exps(alloc, &mut exps)?;
    let mut atoms = List::new(alloc);
    add_atoms(alloc, &mut atoms)?;
    atoms.push(AtExp::Items(PLACE, exps))?;
    assert_eq!(rt; derived_exp(alloc, Exp::Apply(PLACE, atoms))?, 1);
    Ok(())
}

/// `while a do while a do .. a`
fn nested(alloc: Global, count: u32) -> Result<Exp, NoMemory> {
    let mut exp = var(alloc)?;
    for _ in 0..count {
        let test = part(alloc)?;
        let action = Boxed::new(alloc, exp)?;
        exp = Exp::While(PLACE, test, action);
    }
    Ok(exp)
}

/// `[a, .., a]`
fn wide(alloc: Global, count: u32) -> Result<Exp, NoMemory> {
    let mut exps = List::new(alloc);
    for _ in 0..count {
        exps.push(var(alloc)?)?;
    }
    atom(alloc, AtExp::Items(PLACE, exps))
}

// A row that is walked by recursion, or in a time that grows with its square, and a form whose tree is built or dropped with
// more stack than there is.
#[test]
fn wide_and_deep(rt: HostRuntime) -> Result<(), Fail> {
    let alloc = rt.alloc();
    let exp = wide(alloc, 20_000)?;
    assert_eq!(rt; derived_exp(alloc, exp)?, 1);
    let exp = nested(alloc, 300)?;
    assert_eq!(rt; derived_exp(alloc, exp)?, 1);
    Ok(())
}
