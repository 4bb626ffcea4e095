//! Codes as lines of words, and how their runs end.

mod goroutines;
mod kinds;
mod limits;
mod panics;
mod phis;
mod reading;
mod rigs;
