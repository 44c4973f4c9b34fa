ghost use Rattle.std.specs.Prelude.{◌≡◌, IfOk};
ghost use Rattle.sml_parse_exp.specs.Clauses as spec;
ghost use Rattle.sml_parse_exp.specs.Trees as trees;

use crate::tall::Tall;
use sml_ast::{AtPat, Clause, Exp, Ty};
use sml_parse_bind::Head;
use sml_scan::above;
use tl_text::{Boxed, NoMemory, Place};

/// The place of the first token.
fn pat_place(atom: &AtPat) -> Place
    ensures { result ≡ spec.pat_place atom.now }
{
    match atom {
        AtPat::Any(place) => *place,
        AtPat::PLit(place, _) => *place,
        AtPat::PId(place, _, _) => *place,
        AtPat::PFields(place, _) => *place,
        AtPat::PUnit(place) => *place,
        AtPat::PTuple(place, _, _) => *place,
        AtPat::PItems(place, _) => *place,
        AtPat::PParen(place, _) => *place,
    }
}

fn clause_tree(head: Head, ty: Option<Ty>, body: Exp) -> Clause
    ensures { result ≡ spec.clause_in head ty body }
{
    match head {
        Head::Prefix(place, op, name, pats) => Clause::Prefix(place, op, name, pats, ty, body),
        Head::Mid(left, op, right) => {
            let place = pat_place(&left);
            Clause::Mid(place, left, op, right, ty, body)
        }
        Head::MidMore(place, left, op, right, pats) => {
            Clause::MidMore(place, left, op, right, pats, ty, body)
        }
    }
}

/// `f p q : t = e`, where the front and the type have at most this height.
pub fn clause(
    head: Head,
    ty: Option<Ty>,
    height: u32,
    body: Tall<Boxed<Exp>>,
) -> Result<Tall<Clause>, NoMemory>
    ensures { IfOk result (λ x. trees.seen x ≡ spec.clause head ty height (trees.seen body)) }
{
    let height = above(height, body.height)?;
    let ends = body.ends;
    let tree = clause_tree(head, ty, body.tree.into_inner());
    Ok(Tall { tree, ends, height })
}
