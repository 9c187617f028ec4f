// Tables of allowed pairs: how a cell is found, the checks of its shape, a pair struck.
#![tactic(auto)]

pub mod layout;
pub mod shaping;
pub mod striking;

pub use layout::{
    FIELDS_MOST, READINGS_MOST, Row, cell, cell_start, field_size, first_row, row_at, row_word,
    table_length,
};
pub use shaping::{shape, sized};
pub use striking::strike;
