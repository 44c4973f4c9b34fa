//! What is seen of a tree: the order of parts, what is bound in what, and no places.

ghost use Rattle.std.specs.Prelude.{◌≡◌, List, map};
ghost use Rattle.sml_static.specs.declared.ty.Ty.{Ty};
ghost use Rattle.tl_text.specs.declared.place.Place.{Place};
ghost use Rattle.mid_ast.specs.Tree as tree;
ghost use Rattle.mid_ast.specs.Tree.{Name, Part};
ghost use Rattle.mid_ast.specs.View.{plain_bind, plain_dec, plain_dicts, plain_exp, plain_item, plain_items, plain_mod, plain_rule, row_of_binds, row_of_decs, row_of_exps, row_of_rules};
ghost use Rattle.mid_ast.specs.declared.dict.Dict.{Dict};
ghost use Rattle.mid_ast.specs.declared.exp.MidBind.{MidBind};
ghost use Rattle.mid_ast.specs.declared.exp.MidDec.{MidDec};
ghost use Rattle.mid_ast.specs.declared.exp.MidDec.TheVariants as dec;
ghost use Rattle.mid_ast.specs.declared.exp.MidExp.{MidExp};
ghost use Rattle.mid_ast.specs.declared.exp.MidExp.TheVariants as exp;
ghost use Rattle.mid_ast.specs.declared.exp.MidRule.{MidRule};
ghost use Rattle.mid_ast.specs.declared.item.MidItem.{MidItem};
ghost use Rattle.mid_ast.specs.declared.item.MidItem.TheVariants as item;
ghost use Rattle.mid_ast.specs.declared.item.MidMod.{MidMod};
ghost use Rattle.mid_ast.specs.declared.item.MidMod.TheVariants as structure;

/// A function stands before its argument, fields and rules in their order, and what a `let` declares before its body.
pub fn expressions_are_seen()
    ensures applied { (f a : MidExp) → plain_exp (exp.Apply f a) ≡ tree.Apply (plain_exp f) (plain_exp a) }
    ensures tuple { (es : List MidExp) → plain_exp (exp.Tuple es) ≡ tree.Tuple (row_of_exps (map plain_exp es)) }
    ensures handled { (a : MidExp) (rs : List MidRule) → plain_exp (exp.Handle a rs) ≡ tree.Handle (plain_exp a) (row_of_rules (map plain_rule rs)) }
    ensures local { (ds : List MidDec) (a : MidExp) → plain_exp (exp.Let ds a) ≡ tree.Let (row_of_decs (map plain_dec ds)) (plain_exp a) }
{}

/// Of a function its rules and both types are seen, and not the place of a note on it.
pub fn places_are_not_seen()
    ensures function { (rs : List MidRule) (a b : Ty) (p : Place) → plain_exp (exp.Fun rs a b p) ≡ tree.Fun (row_of_rules (map plain_rule rs)) a b }
    ensures alike { (rs : List MidRule) (a b : Ty) (p q : Place) → plain_exp (exp.Fun rs a b p) ≡ plain_exp (exp.Fun rs a b q) }
{}

/// Bindings one after another and bindings of a recursive group are told apart, and a copy of an exception from the one
/// that it is a copy of.
pub fn declarations_are_seen()
    ensures vals { (bs : List MidBind) → plain_dec (dec.Vals bs) ≡ tree.Vals (row_of_binds (map plain_bind bs)) }
    ensures funs { (bs : List MidBind) → plain_dec (dec.Funs bs) ≡ tree.Funs (row_of_binds (map plain_bind bs)) }
    ensures copies { (new old : Name) → plain_dec (dec.SameExn new old) ≡ tree.SameExn new old }
{}

/// A structure is seen under its name, with its items in their order.
pub fn structures_are_seen()
    ensures named { (x : Part) (m : MidMod) → plain_item (item.Module x m) ≡ tree.Module x (plain_mod m) }
    ensures body { (is : List MidItem) → plain_mod (structure.Body is) ≡ tree.Body (plain_items is) }
{}
