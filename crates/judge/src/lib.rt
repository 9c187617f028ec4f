// What is asked of a table: how many readings a field keeps, the first broken row, a cell to show.
#![tactic(auto)]

pub mod judging;
pub mod keeping;
pub mod showing;

pub use judging::{first_broken, judge};
pub use keeping::kept;
pub use showing::{Shown, show, shown_from};
