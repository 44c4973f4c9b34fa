ghost use Rattle.mid_typing.specs.Dicts.{Elaborated, Explicit, Placed};
ghost use Rattle.mid_typing.specs.Env.{Env};
ghost use Rattle.mid_typing.specs.Examples.{aliased, alone, assigned, at_stage, compared, copied, handled, matched, one_later, one_placed, tested, tested_lists, used_twice};
ghost use Rattle.mid_typing.specs.Units.{IsTyped};

/// A function that is bound to a variable is used at two types.
pub fn let_is_general()
    ensures { (env : Env) × IsTyped (at_stage Elaborated) (alone used_twice) 16 env }
{}

/// A datatype draws a type name, and its constructors are applied and matched; a copy has its type name and constructors.
pub fn constructors_are_matched()
    ensures matched { (env : Env) × IsTyped (at_stage Elaborated) (alone matched) 17 env }
    ensures copied { (env : Env) × IsTyped (at_stage Elaborated) (alone copied) 17 env }
{}

/// An exception with an argument is raised and handled.
pub fn exceptions_type()
    ensures { (env : Env) × IsTyped (at_stage Elaborated) (alone handled) 16 env }
{}

/// A reference is made and assigned to, at one type.
pub fn cells_have_one_type()
    ensures { (env : Env) × IsTyped (at_stage Elaborated) (alone assigned) 16 env }
{}

/// A function with an equality variable is used at a record with the record's dictionary; once equality is explicit, =
/// has the dictionary itself, and after the homes are placed its functions have written paths.
pub fn equality_has_dictionaries()
    ensures function { (env : Env) × IsTyped (at_stage Elaborated) (alone compared) 16 env }
    ensures test { (env : Env) × IsTyped (at_stage Explicit) (alone tested) 16 env }
    ensures placed { (env : Env) × IsTyped (at_stage Placed) (alone tested_lists) 16 env }
{}

/// A variable of a structure is used by its path, through another name of the structure.
pub fn paths_are_read()
    ensures { (env : Env) × IsTyped (at_stage Elaborated) (alone aliased) 16 env }
{}

/// A unit uses a variable of the one before it: by its identifier, and after the homes are placed by its written path.
pub fn units_follow()
    ensures read { (env : Env) × IsTyped (at_stage Elaborated) one_later 16 env }
    ensures placed { (env : Env) × IsTyped (at_stage Placed) one_placed 16 env }
{}
