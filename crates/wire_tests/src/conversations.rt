//! Tables of calls that meet every row of a conversation's table, for IL and for UDP.
mod files;
mod life;
mod many;
mod refusals;
mod rows;
mod talk;
