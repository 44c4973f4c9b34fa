ghost use Rattle.oc_ast.specs.Plain.{PAtom};
ghost use Rattle.oc_sound.specs.Examples.{confused, confused_env, division, left_out, nested_arms, sample, sample_env, x_int};
ghost use Rattle.oc_sound.specs.Secure.{Secure, TakeShapes};
ghost use Rattle.oc_sound.specs.Words.{Variants};
ghost use Rattle.oc_steps.specs.OcSteps.{Agrees, NeverWrong, meaning};
ghost use Rattle.oc_typing.specs.OcText.{OcText};

/// A small text with a type, an exception and three values types, is secure, and runs as it means.
pub fn sample_runs()
    ensures types { OcText sample sample_env }
    ensures secure { Secure sample }
    ensures runs { Agrees (meaning sample) sample }
{}

/// Arms that look at both forms of two lists at once take each pair of lists by its shape.
pub fn nested_arms_take_shapes()
    ensures { (vs : Variants) (a b c : PAtom) → TakeShapes vs (nested_arms a b c) }
{}

/// What secure texts leave out: texts that type and come where there is no rule, by a division, by a match that leaves a
/// value out, and by a value with the name of an exception.
pub fn typed_may_go_wrong()
    ensures divides { OcText division x_int × (NeverWrong division → ⊥) }
    ensures matches { OcText left_out x_int × (NeverWrong left_out → ⊥) }
    ensures confuses { OcText confused confused_env × (NeverWrong confused → ⊥) }
{}
