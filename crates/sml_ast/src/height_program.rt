//! The height of structures, functors and programs.

ghost use Rattle.std.specs.Prelude.{◌≡◌, ◌-◌, ◌^◌, min, max, map};
ghost use Rattle.sml_ast.specs.Heights.{fun_bind_height, greatest, program_height, sig_bind_height, str_bind_height, str_dec_height, str_exp_height, top_height};

use crate::height_exp::{dec_height, exp_height};
use crate::height_sig::{ascribe_height, opt_ascribe_height, sig_height, specs_height};
use crate::program::{FunBind, Program, SigBind, StrBind, StrDec, StrExp, Top};

/// The height of a structure expression.
#[cycle(str_height)]
fn str_exp_height(exp: &StrExp) -> u32
    ensures { result ≡ min (str_exp_height exp.now) (2 ^ 32 - 1) }
{
    match exp {
        StrExp::Body(_, decs) => str_decs_height(decs.items()).saturating_add(1),
        StrExp::At(..) => 1,
        StrExp::Seal(_, inner, ascribe) => str_exp_height(inner.get())
            .max(ascribe_height(ascribe))
            .saturating_add(1),
        StrExp::Call(_, _, inner) => str_exp_height(inner.get()).saturating_add(1),
        StrExp::CallBody(_, _, decs) => str_decs_height(decs.items()).saturating_add(1),
        StrExp::LetStr(_, decs, inner) => str_decs_height(decs.items())
            .max(str_exp_height(inner.get()))
            .saturating_add(1),
    }
}

/// The height of a declaration at structure level.
#[cycle(str_height)]
fn str_dec_height(dec: &StrDec) -> u32
    ensures { result ≡ min (str_dec_height dec.now) (2 ^ 32 - 1) }
{
    match dec {
        StrDec::Core(_, dec) => dec_height(dec).saturating_add(1),
        StrDec::Structs(_, binds) => str_binds_height(binds.items()).saturating_add(1),
        StrDec::LocalStr(_, hidden, decs) => str_decs_height(hidden.items())
            .max(str_decs_height(decs.items()))
            .saturating_add(1),
    }
}

/// The height of a binding of a structure.
#[cycle(str_height)]
fn str_bind_height(bind: &StrBind) -> u32
    ensures { result ≡ min (str_bind_height bind.now) (2 ^ 32 - 1) }
{
    match bind {
        StrBind::Bind(_, _, ascribe, exp) => opt_ascribe_height(ascribe)
            .max(str_exp_height(exp))
            .saturating_add(1),
    }
}

/// The greatest height of a row of declarations at structure level.
#[cycle(str_height)]
fn str_decs_height(decs: &[StrDec]) -> u32
    ensures { result ≡ min (greatest (map str_dec_height decs.now)) (2 ^ 32 - 1) }
{
    let mut most = 0;
    for one in decs {
        most = most.max(str_dec_height(one));
    }
    most
}

/// The greatest height of a row of bindings of structures.
#[cycle(str_height)]
fn str_binds_height(binds: &[StrBind]) -> u32
    ensures { result ≡ min (greatest (map str_bind_height binds.now)) (2 ^ 32 - 1) }
{
    let mut most = 0;
    for one in binds {
        most = most.max(str_bind_height(one));
    }
    most
}

/// The height of a binding of a signature.
fn sig_bind_height(bind: &SigBind) -> u32
    ensures { result ≡ min (sig_bind_height bind.now) (2 ^ 32 - 1) }
{
    match bind {
        SigBind::SigAs(_, _, exp) => sig_height(exp).saturating_add(1),
    }
}

/// The height of a binding of a functor.
fn fun_bind_height(bind: &FunBind) -> u32
    ensures { result ≡ min (fun_bind_height bind.now) (2 ^ 32 - 1) }
{
    match bind {
        FunBind::FunOf(_, _, _, param, ascribe, body) => sig_height(param)
            .max(opt_ascribe_height(ascribe).max(str_exp_height(body)))
            .saturating_add(1),
        FunBind::FunSpecs(_, _, specs, ascribe, body) => specs_height(specs.items())
            .max(opt_ascribe_height(ascribe).max(str_exp_height(body)))
            .saturating_add(1),
    }
}

/// The greatest height of a row of bindings of signatures.
fn sig_binds_height(binds: &[SigBind]) -> u32
    ensures { result ≡ min (greatest (map sig_bind_height binds.now)) (2 ^ 32 - 1) }
{
    let mut most = 0;
    for one in binds {
        most = most.max(sig_bind_height(one));
    }
    most
}

/// The greatest height of a row of bindings of functors.
fn fun_binds_height(binds: &[FunBind]) -> u32
    ensures { result ≡ min (greatest (map fun_bind_height binds.now)) (2 ^ 32 - 1) }
{
    let mut most = 0;
    for one in binds {
        most = most.max(fun_bind_height(one));
    }
    most
}

/// The height of a top-level declaration.
fn top_height(top: &Top) -> u32
    ensures { result ≡ min (top_height top.now) (2 ^ 32 - 1) }
{
    match top {
        Top::Strs(_, dec) => str_dec_height(dec).saturating_add(1),
        Top::Sigs(_, binds) => sig_binds_height(binds.items()).saturating_add(1),
        Top::Funs(_, binds) => fun_binds_height(binds.items()).saturating_add(1),
        Top::Run(_, exp) => exp_height(exp).saturating_add(1),
    }
}

/// The greatest height of a row of top-level declarations.
fn tops_height(tops: &[Top]) -> u32
    ensures { result ≡ min (greatest (map top_height tops.now)) (2 ^ 32 - 1) }
{
    let mut most = 0;
    for one in tops {
        most = most.max(top_height(one));
    }
    most
}

/// The height of a source: the number of nodes on the longest way down, where a row is part of the node that holds it,
/// and 4294967295 for a greater one. It takes no memory.
pub fn height(program: &Program) -> u32
    ensures { result ≡ min (program_height program.now) (2 ^ 32 - 1) }
{
    match program {
        Program::Tops(_, tops) => tops_height(tops.items()).saturating_add(1),
    }
}
