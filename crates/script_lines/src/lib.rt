//! Scripts on settings: the grammar of their lines, the texts of their answers, and the generator
//! of random scripts.
#![tactic(auto)]

mod answer;
mod fields;
mod generator;
mod grammar;
mod line;
mod lists;
mod plan;
mod reading;
mod script;
mod why;

pub use answer::{Answer, SaveEnd, answer_text, one_transcript};
pub use fields::{
    name_alone, name_and_bytes, name_and_bytes_or_dash, name_and_kind, name_or_nothing, nothing,
    number_alone, one_word, read_bytes, read_bytes_or_dash, read_kind, read_label, read_name,
    read_number_below, two_words,
};
pub use generator::gen_script;
pub use grammar::{ScriptFault, ScriptLine, read_lines};
pub use line::{Line, UNITS_END};
pub use lists::{Bytes, Give, Gives, Label, ListOf, Pair, Pairs, copied};
pub use plan::{is_lost, plans_of_lines, units_of};
pub use script::{each_is_read, one_reading, read_script};
pub use why::{LineFault, LineWhy};
