//! Each public call of the store runs once with ample memory, and slices are cut, grown and copied, in tables.

mod slices;
mod stores;
