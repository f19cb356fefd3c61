//! Laws above the grammars of scripts and of commands: what is printed is read as what it was printed from, and what is
//! read can be printed.
#![tactic(auto)]

mod laws;

pub use laws::{
    commands_have_words, lines_spell_commands, printed_scripts_read_back,
    whole_scripts_are_printable,
};
