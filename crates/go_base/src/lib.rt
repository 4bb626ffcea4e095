//! What every crate of the checker, the builder and the interpreter stands on: places and rules, how runs end, owned
//! text and bytes, the numbers that stand for things, and the traits of files and sinks.
#![tactic(auto)]

mod devices;
mod ending;
mod ids;
mod line;
mod memory;
mod names;
mod paths;
mod place;
mod rule;
mod target;
mod text;

pub use devices::{FileError, Files, PrintError, Sink, SinkError};
pub use ending::Ending;
pub use ids::{BlockId, CellId, ChanId, FuncId, GoId, MapId, NameId, TypeId, VarId};
pub use line::{MAX_FILE_BYTES, line_column};
pub use memory::NoMemory;
pub use names::Names;
pub use paths::rest_below;
pub use place::{Place, Pos};
pub use rule::Rule;
pub use target::Target;
pub use text::{Bytes, Text};
