//! What functions of the libraries answer, each asked by a word: values, tasks, boards, texts that come in, messages, scripts, a client,
//! and what the program takes from its machine.
//!
//! It owns these words, and how what stands behind them is read and answers are told; `crates/tests/data/README.md` says what they mean.
//! It stands on the libraries whose values it shows, `tb_script` and `tb_client` the highest.
#![tactic(auto)]

mod answers;
mod attributes;
mod boards;
mod caches;
mod changes;
mod clients;
pub mod finding;
pub mod given;
mod graphs;
mod histories;
mod json;
mod lists;
mod machine;
pub mod messages;
mod rates;
mod recurrences;
mod scripts;
mod tasks;
mod texts;
mod todo_lines;

pub use answers::answer;
