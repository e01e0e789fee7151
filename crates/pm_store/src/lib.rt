//! The store of a node: one small value that is replaced whole, and what a crash at any moment leaves of it.
//!
//! [`Store`] is the trait. [`MemoryStore`] keeps its value in memory, for tests. [`RowStore`] is a store over a [`Row`] that several machines
//! share, and that is put only if it is as this machine read or put it last. [`node_value`] makes the value: the number of the start, the newest
//! Resume, and the Bid that is stored with it.
//!
//! The definitions stand in `specs/`: `Stores` (what a crash leaves), `Values` (what the value has), `Past` and `Memory` (of the store in memory).
#![tactic(auto)]

mod law;
mod memory;
mod row;
mod store;
mod value;

pub use law::values_give_back;
pub use memory::MemoryStore;
pub use row::{MemoryRow, Row, RowStore};
pub use store::Store;
pub use value::{KeptFrames, node_value, stored_kept, stored_start};
