//! Each public call of the crates below runs once with ample memory, and operations run at their ends, in tables.

mod depths;
mod ints;
mod pointers;
mod printed;
mod texts;
mod zeros;
