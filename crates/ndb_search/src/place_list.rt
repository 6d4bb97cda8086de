//! Places of tuples in a database.
use net_base::Sequence;

/// Places of tuples in a database, from 0, which contracts see as a list.
pub type Places = Sequence<u64>;
