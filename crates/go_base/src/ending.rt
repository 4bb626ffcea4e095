//! How runs end.

use crate::text::Text;

/// How a run of a program ended.
#[derive(Debug, Drop)]
pub enum Ending {
    /// `main.main` returned (0), or `os.Exit` was called: its argument modulo 256.
    Exited(u8),
    /// A panic left a goroutine's first function. The text is that of the panic's value.
    Panicked(Text),
    /// No goroutine could go on.
    Deadlock,
    /// A goroutine had too many frames.
    StackOverflow,
    /// The ticks of the bound were spent.
    Bound,
}
