//! Whole texts: their trees, and what is wrong with them.

mod deep;
mod reading;
mod table;
