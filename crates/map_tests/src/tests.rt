//! Each public call of maps runs once with ample memory, and maps are changed and ranged over, in tables.

mod equality;
mod maps;
