// The text of the sheet lister.
#![tactic(auto)]

mod fields;
mod first;
mod listed;
mod rows;
mod settled;

pub use listed::{Listing, TEXT_MOST, list_sheet};
