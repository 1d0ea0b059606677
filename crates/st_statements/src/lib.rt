//! Reads the rows of a script as statements.
#![tactic(auto)]

pub mod accounts;
pub mod instructions;
pub mod lines;
pub mod objects;
pub mod parts;
pub mod statement;
pub mod statements;
pub mod tasks;
pub mod values;

pub use statement::{FilterText, OpenBody, ScriptLine, ScriptProcess, Statement};
pub use statements::{lines_of_tokens, statement_of};
