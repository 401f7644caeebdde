// Parcels: a list of messages and notes for one chapter, read whole or refused, without a copy.
#![tactic(auto)]

mod count;
mod fault;
mod header;
mod item;
mod items;
mod parcel;
#[cfg(test)]
mod tests;
mod walk;

pub use count::Counts;
pub use fault::ParcelFault;
pub use item::Item;
pub use parcel::Parcel;
pub use walk::Items;
