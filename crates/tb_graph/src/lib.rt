//! Links between numbered nodes: what can be reached, whether a walk leads back to where it began, and which nodes
//! wait for others. Every answer takes time linear in nodes and links.
//! Stands on the owned lists of tb_values.
#![tactic(auto)]

mod acyclic;
mod blocked;
mod laws;
mod links;
mod search;

pub use laws::{acyclic_is_decided, walks_are_decided};
pub use links::Links;
