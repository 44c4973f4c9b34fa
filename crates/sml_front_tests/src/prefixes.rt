use crate::answers::{answer, is};
use sml_lex::lex;
use std::alloc::Global;
use std::test::Fail;
use tl_text::Code;

const STRUCTURES: &[u8] = b"infix 5 ++ structure S :> G where type t = int and type u = t = \
struct fun x ++ y = (x, [y]) local val z = 1 in val w = z ++ 2 end; end and T = F (S : G) : \
H where type v = w and U = let open S in struct exception E of t end end";

const SIGNATURES: &[u8] = b"signature G = sig val x : t * u -> v; type 'a t type u = t and v = w \
datatype d = A | B of t eqtype e structure S : H where type t = u and T : G \
include G H sharing type t = u sharing S = T end functor F (X : G) : H = X";

const EXPRESSIONS: &[u8] = b"val it = let val f = fn {a = x, ...} => #a x | _ => raise E in \
(if f 1 andalso g [1, 2] orelse h () then 1 + 2 * 3 else while x do y; \
case z of A y => (y, 1) | op + => {b = 2} handle E => 1 : t) end";

const DECLARATIONS: &[u8] =
    b"infix 4 ++ fun 'a f (x :: y) 1 : t = x | f _ z = z and (x ++ y) w = x and u ++ v = u \
datatype 'a t = A | op B of 'a * t withtype u = t -> t datatype v = datatype S.w \
exception E of t and F = S.G local open S T in val rec g = fn x as (y, _) => y and z : t = g end \
nonfix ++ type ('a, 'b) p = {l : 'a, 2 : 'b}";

/// How many fronts of the source's tokens are refused at another place than their end.
fn early(alloc: Global, source: &[u8]) -> Result<usize, Fail> {
    if source.len() > 1000 {
        return Err("out of range".into());
    }
    let tokens = lex(alloc, 1, source)?;
    let mut wrong: usize = 0;
    for token in tokens.items() {
        let end = (token.place.byte as usize).saturating_add(token.len as usize);
        if end > source.len() {
            return Err("out of range".into());
        }
        let found = answer(alloc, &source[..end])?;
        let stood = is(found, None, end) || is(found, Some(Code::Grammar), end);
        if !stood {
            wrong = wrong.saturating_add(1);
        }
    }
    Ok(wrong)
}

// A refusal before the first token with which nothing goes on.
#[test]
fn fronts_are_refused_at_their_end(rt: HostRuntime) -> Result<(), Fail> {
    for source in [STRUCTURES, SIGNATURES, EXPRESSIONS, DECLARATIONS] {
        let found = early(rt.alloc(), source)?;
        assert_eq!(rt; found, 0);
    }
    Ok(())
}
