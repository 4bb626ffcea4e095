//! Scripts of what goroutines do, with what comes of each step.

mod channels;
