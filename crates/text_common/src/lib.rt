//! What parsing a text, writing it and reading keys share: what is written of parts of a text, what is put in from
//! where it is in a text, and lemmas on members in the order of their keys.
#![tactic(auto)]

pub mod verbatim;
