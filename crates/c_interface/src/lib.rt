// The unit configurator for C: the proved calls over plain numbers and lent bytes and words. A unit is lent as its unit file. Every call
// answers 0 or the number of its refusal, and none has a `requires`. The header is include/limedarts.h.
#![tactic(auto)]

mod diagrams;
mod issue;
mod jobs;
mod marks;
mod questions;

pub use diagrams::{limedarts_greedy, limedarts_search, limedarts_states};
pub use issue::{limedarts_start, limedarts_tick};
pub use jobs::{limedarts_listing, limedarts_play};
pub use marks::{limedarts_fresh, limedarts_mark, limedarts_unmark};
pub use questions::{
    limedarts_bound, limedarts_constant, limedarts_judge, limedarts_matrix_row, limedarts_upper,
    limedarts_vector,
};
