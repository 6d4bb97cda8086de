//! Searches of a network database by scanning it, as ndb(2) defines them: tuples by a pair, values beside a pair, numbers
//! and networks of a tuple, and what is closest to a system.
#![tactic(auto)]

mod beside;
mod filled;
mod near;
mod network;
mod networks;
mod numbers;
mod place_list;
mod places;
mod prefixes;
mod tuple_numbers;
mod values;

pub use beside::value_beside;
pub use filled::filled_in;
pub use near::closest;
pub use network::{Network, first_bits, firsts_of, network_of};
pub use networks::own_networks;
pub use numbers::numbers_found;
pub use place_list::Places;
pub use places::search;
pub use prefixes::{Prefix, Prefixes};
pub use tuple_numbers::{
    Kind, add_beside as add_numbers_beside, add_in as add_numbers_in, add_on as add_numbers_on,
};
pub use values::{add_beside, line_with};
