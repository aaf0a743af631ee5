// A body: its flat table of rows, its sizes, and where each row's patch starts.
#![tactic(auto)]

mod bases;
mod rows;
mod totals;

pub use bases::{index_bases, vertex_bases};
pub use rows::{
    INDICES_BACK, ROW_WIDTH, VERTICES_BACK, bin, face, indices, outcome, row_count, shell, vertices,
};
pub use totals::{total_indices, total_vertices, work_needed};
