//! The network database, ndb(6), in one piece: one run of bytes, and three runs of places in it.
mod db;
mod growing;
mod line;
mod pair;
mod runs;
mod spot;
mod tuple;

pub use db::Db;
pub use growing::Growing;
pub use line::Line;
pub use pair::NdbPair;
pub use spot::Spot;
pub use tuple::Tuple;
