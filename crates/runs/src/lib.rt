//! Meanings and runs of OCaml texts: a text runs, in any order, as it means.
//!
//! Source: plain trees and rows of items. Result: the laws that each text obeys, as contracts.
//! Rule: the OCaml manual, the language chapter on expressions and structures, with the order of parts left open.
//! Main contract: `rows_any_order`: the runs of a row of items agree with its meaning.
//! Knows nothing of: bytes of a text, types, Standard ML.
#![tactic(auto)]

mod examples;
mod laws;
mod one_more;

pub use examples::{
    assigns_text, cut_out_text, decided_text, handled_text, hello_has, hello_runs, hello_writes,
    later_value_counts, list_read_text, local_text, loops_text, new_each_time_runs,
    new_each_time_text, no_quotient_text, no_rule_text, older_structure_is_hidden, path_is_read,
    twice_applied_text, two_prints_differ, wraps_text,
};
pub use laws::{
    any_order, begins_ordered, ends_in_each_order, goes_on, one_after_another, put_in_or_read,
    raises_in_each_order, rows_any_order, rows_go_on,
};
pub use one_more::{
    call_by_path, many_prints_write, one_structure_more, one_value_more, path_through, same_parts,
    same_paths, value_put,
};
