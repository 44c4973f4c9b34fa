ghost use Rattle.std.specs.Prelude.{◌≡◌, ◌+◌, IfOk, max};
ghost use Rattle.readers.specs.declared.floor.Fixity.{Fixity};
ghost use Rattle.sml_fix.specs.Fixities.{settings};
ghost use Rattle.sml_grammar_exp.specs.Exps as grammar;
ghost use Rattle.sml_ast.specs.declared.exp.Exp.TheVariants as exps;
ghost use Rattle.sml_ast.specs.declared.exp.AtExp.TheVariants as at;
ghost use Rattle.sml_parse_exp.specs.Trees as trees;

use crate::tall::{Ends, Reach, Tall, farther, higher, in_match};
use readers::Fixity;
use sml_ast::{AtExp, Exp, Ident, Pat, Rule, Ty};
use sml_fix::Fixities;
use sml_scan::{above, fixity_of};
use std::alloc::Global;
use tl_text::{Boxed, List, NoMemory, Place};

/// What stands behind the first expression in parentheses: the expressions, which have at most this height.
pub enum Behind {
    /// `)`
    Closed,
    /// `, f, g)`
    Commas(List<Exp>, u32),
    /// `; f; g)`
    Semis(List<Exp>, u32),
}

/// The place of the first token.
pub fn at_place(atom: &AtExp) -> Place
    ensures { result ≡ grammar.at_exp_place atom.now }
{
    match atom {
        AtExp::Lit(place, _) => *place,
        AtExp::Id(place, _, _) => *place,
        AtExp::Fields(place, _) => *place,
        AtExp::Pick(place, _) => *place,
        AtExp::Unit(place) => *place,
        AtExp::Tuple(place, _, _) => *place,
        AtExp::Items(place, _) => *place,
        AtExp::Seq(place, _, _) => *place,
        AtExp::Let(place, _, _) => *place,
        AtExp::Paren(place, _) => *place,
    }
}

/// The place of the first token.
fn exp_place(exp: &Exp) -> Place
    ensures { result ≡ grammar.exp_place exp.now }
{
    match exp {
        Exp::Apply(place, _) => *place,
        Exp::Infix(place, _, _, _) => *place,
        Exp::Typed(place, _, _) => *place,
        Exp::AndAlso(place, _, _) => *place,
        Exp::OrElse(place, _, _) => *place,
        Exp::Handle(place, _, _) => *place,
        Exp::Raise(place, _) => *place,
        Exp::If(place, _, _, _) => *place,
        Exp::While(place, _, _) => *place,
        Exp::Case(place, _, _) => *place,
        Exp::Fn(place, _) => *place,
    }
}

/// How the operator at the top binds.
pub fn top_fixity(fix: &Fixities, exp: &Boxed<Exp>) -> Option<Fixity>
    ensures { result ≡ trees.top_fixity (settings fix.now) exp.now }
{
    match exp.get() {
        Exp::Infix(_, _, op, _) => Some(fixity_of(fix, &op.1)),
        _ => None,
    }
}

/// `(e)`
pub fn paren(place: Place, inner: Tall<Boxed<Exp>>) -> Result<(AtExp, u32), NoMemory>
    ensures { IfOk result (λ x. x ≡ grammar.paren_of (place, grammar.Inside.Parts (trees.seen inner, grammar.Behind.Closed))) }
{
    let height = above(inner.height, 0)?;
    Ok((AtExp::Paren(place, inner.tree), height))
}

/// `(e, f)`, where the expressions behind the first have at most this height.
pub fn tuple(
    place: Place,
    first: Tall<Boxed<Exp>>,
    others: (List<Exp>, u32),
) -> Result<(AtExp, u32), NoMemory>
    ensures { IfOk result (λ x. x ≡ (at.Tuple place first.tree others.0, max first.height others.1 + 1)) }
{
    let height = above(first.height, others.1)?;
    Ok((AtExp::Tuple(place, first.tree, others.0), height))
}

/// `(e; f)`, where the expressions behind the first have at most this height.
pub fn sequence(
    place: Place,
    first: Tall<Boxed<Exp>>,
    others: (List<Exp>, u32),
) -> Result<(AtExp, u32), NoMemory>
    ensures { IfOk result (λ x. x ≡ (at.Seq place first.tree others.0, max first.height others.1 + 1)) }
{
    let height = above(first.height, others.1)?;
    Ok((AtExp::Seq(place, first.tree, others.0), height))
}

/// What stands in parentheses, from its first expression and what is behind it.
pub fn closed(
    place: Place,
    first: Tall<Boxed<Exp>>,
    others: Behind,
) -> Result<(AtExp, u32), NoMemory>
    ensures { IfOk result (λ x. x ≡ trees.closed place (trees.seen first) others) }
{
    match others {
        Behind::Closed => paren(place, first),
        Behind::Commas(others, height) => tuple(place, first, (others, height)),
        Behind::Semis(others, height) => sequence(place, first, (others, height)),
    }
}

/// `e f`, where the atoms, which begin at this place, have at most this height.
pub fn applied(
    alloc: Global,
    place: Place,
    atoms: List<AtExp>,
    height: u32,
) -> Result<Tall<Boxed<Exp>>, NoMemory>
    ensures { IfOk result (λ x. trees.seen x ≡ trees.applied place atoms height) }
{
    let height = above(height, 0)?;
    Ok(Tall {
        tree: Boxed::new(alloc, Exp::Apply(place, atoms))?,
        ends: Ends {
            typed: false,
            reach: Reach::Near,
        },
        height,
    })
}

/// `e + f`
pub fn infixed(
    alloc: Global,
    left: Tall<Boxed<Exp>>,
    op: Ident,
    right: Tall<Boxed<Exp>>,
) -> Result<Tall<Boxed<Exp>>, NoMemory>
    ensures { IfOk result (λ x. trees.seen x ≡ grammar.infix_of (trees.seen left) op (trees.seen right)) }
{
    let height = above(left.height, right.height)?;
    let place = exp_place(left.tree.get());
    Ok(Tall {
        tree: Boxed::new(alloc, Exp::Infix(place, left.tree, op, right.tree))?,
        ends: Ends {
            typed: false,
            reach: Reach::Near,
        },
        height,
    })
}

/// `e : t`
pub fn typed(
    alloc: Global,
    exp: Tall<Boxed<Exp>>,
    ty: (Ty, u32),
) -> Result<Tall<Boxed<Exp>>, NoMemory>
    ensures { IfOk result (λ x. trees.seen x ≡ grammar.typed_of (trees.seen exp) ty) }
{
    let height = above(exp.height, ty.1)?;
    let place = exp_place(exp.tree.get());
    Ok(Tall {
        tree: Boxed::new(alloc, Exp::Typed(place, exp.tree, ty.0))?,
        ends: Ends {
            typed: true,
            reach: Reach::Near,
        },
        height,
    })
}

/// `e andalso f`
pub fn and_also(
    alloc: Global,
    left: Tall<Boxed<Exp>>,
    right: Tall<Boxed<Exp>>,
) -> Result<Tall<Boxed<Exp>>, NoMemory>
    ensures { IfOk result (λ x. trees.seen x ≡ grammar.and_of (trees.seen left) (trees.seen right)) }
{
    let height = above(left.height, right.height)?;
    let place = exp_place(left.tree.get());
    let ends = right.ends;
    Ok(Tall {
        tree: Boxed::new(alloc, Exp::AndAlso(place, left.tree, right.tree))?,
        ends,
        height,
    })
}

/// `e orelse f`
pub fn or_else(
    alloc: Global,
    left: Tall<Boxed<Exp>>,
    right: Tall<Boxed<Exp>>,
) -> Result<Tall<Boxed<Exp>>, NoMemory>
    ensures { IfOk result (λ x. trees.seen x ≡ grammar.or_of (trees.seen left) (trees.seen right)) }
{
    let height = above(left.height, right.height)?;
    let place = exp_place(left.tree.get());
    let ends = right.ends;
    Ok(Tall {
        tree: Boxed::new(alloc, Exp::OrElse(place, left.tree, right.tree))?,
        ends,
        height,
    })
}

/// `e handle p => f | q => g`
pub fn handled(
    alloc: Global,
    exp: Tall<Boxed<Exp>>,
    rules: Tall<List<Rule>>,
) -> Result<Tall<Boxed<Exp>>, NoMemory>
    ensures { IfOk result (λ x. trees.seen x ≡ trees.handled (trees.seen exp) (trees.seen rules)) }
{
    let height = above(exp.height, rules.height)?;
    let place = exp_place(exp.tree.get());
    Ok(Tall {
        tree: Boxed::new(alloc, Exp::Handle(place, exp.tree, rules.tree))?,
        ends: in_match(rules.ends),
        height,
    })
}

/// `raise e`
pub fn raised(
    alloc: Global,
    place: Place,
    exp: Tall<Boxed<Exp>>,
) -> Result<Tall<Boxed<Exp>>, NoMemory>
    ensures { IfOk result (λ x. trees.seen x ≡ grammar.raise_of (place, trees.seen exp)) }
{
    let height = above(exp.height, 0)?;
    let ends = farther(exp.ends);
    Ok(Tall {
        tree: Boxed::new(alloc, Exp::Raise(place, exp.tree))?,
        ends,
        height,
    })
}

/// `if e then f else g`
pub fn chosen(
    alloc: Global,
    place: Place,
    test: Tall<Boxed<Exp>>,
    first: Tall<Boxed<Exp>>,
    other: Tall<Boxed<Exp>>,
) -> Result<Tall<Boxed<Exp>>, NoMemory>
    ensures { IfOk result (λ x. trees.seen x ≡ grammar.if_of (place, (trees.seen test, (trees.seen first, trees.seen other)))) }
{
    let height = above(test.height, higher(first.height, other.height))?;
    let ends = farther(other.ends);
    let tree = Boxed::new(alloc, Exp::If(place, test.tree, first.tree, other.tree))?;
    Ok(Tall { tree, ends, height })
}

/// `while e do f`
pub fn repeated(
    alloc: Global,
    place: Place,
    test: Tall<Boxed<Exp>>,
    body: Tall<Boxed<Exp>>,
) -> Result<Tall<Boxed<Exp>>, NoMemory>
    ensures { IfOk result (λ x. trees.seen x ≡ grammar.while_of (place, (trees.seen test, trees.seen body))) }
{
    let height = above(test.height, body.height)?;
    let ends = farther(body.ends);
    Ok(Tall {
        tree: Boxed::new(alloc, Exp::While(place, test.tree, body.tree))?,
        ends,
        height,
    })
}

/// `case e of p => f | q => g`
pub fn cases(
    alloc: Global,
    place: Place,
    exp: Tall<Boxed<Exp>>,
    rules: Tall<List<Rule>>,
) -> Result<Tall<Boxed<Exp>>, NoMemory>
    ensures { IfOk result (λ x. trees.seen x ≡ trees.case_node place (trees.seen exp) (trees.seen rules)) }
{
    let height = above(exp.height, rules.height)?;
    Ok(Tall {
        tree: Boxed::new(alloc, Exp::Case(place, exp.tree, rules.tree))?,
        ends: in_match(rules.ends),
        height,
    })
}

/// `fn p => e | q => f`
pub fn function(
    alloc: Global,
    place: Place,
    rules: Tall<List<Rule>>,
) -> Result<Tall<Boxed<Exp>>, NoMemory>
    ensures { IfOk result (λ x. trees.seen x ≡ trees.fn_node place (trees.seen rules)) }
{
    let height = above(rules.height, 0)?;
    Ok(Tall {
        tree: Boxed::new(alloc, Exp::Fn(place, rules.tree))?,
        ends: in_match(rules.ends),
        height,
    })
}

/// The place of the first token.
fn pat_place(pat: &Pat) -> Place
    ensures { result ≡ trees.pat_place pat.now }
{
    match pat {
        Pat::PAtom(place, _) => *place,
        Pat::PCon(place, _, _, _) => *place,
        Pat::PInfix(place, _, _, _) => *place,
        Pat::PTyped(place, _, _) => *place,
        Pat::Layer(place, _, _, _, _) => *place,
    }
}

/// `p => e`
pub fn arm(pat: (Pat, u32), exp: Tall<Boxed<Exp>>) -> Result<Tall<Rule>, NoMemory>
    ensures { IfOk result (λ x. trees.seen x ≡ grammar.arm_of (pat, trees.seen exp)) }
{
    let height = above(pat.1, exp.height)?;
    let place = pat_place(&pat.0);
    Ok(Tall {
        tree: Rule::Arm(place, pat.0, exp.tree.into_inner()),
        ends: exp.ends,
        height,
    })
}
