//! Types of evaluations: a typed text never comes where there is no rule.
//!
//! Source: the trees and rows of items of `runs`. Result: laws on their evaluations, as contracts.
//! Rule: let polymorphism with the value restriction, types guessed and nothing written in the tree.
//! Main contract: `row_ends_well`: the evaluation of a typed row of items ends well, and a further row may follow.
//! Knows nothing of: the bytes of a text, runs by single steps, Standard ML.
#![tactic(auto)]

mod laws;

pub use laws::{
    begins_basic, cell_goes_wrong, choice_is_typed, dropped_rule, each_choice, ends_well,
    equality_answers, hello_is_typed, identity_is_typed, last_rule, none_given, quotient_is_ok,
    row_ends_well, start_holds, text_begins_typed, typed_row, written_row,
};
