//! The commands that neither sign nor copy, each a function whose clause is what it means in `specs/`. Each is given
//! all objects of the outside, also those that it leaves alone.
pub(crate) mod get;
pub(crate) mod get_file;
pub(crate) mod list;
pub(crate) mod load;
pub(crate) mod put;
pub(crate) mod put_file;
pub(crate) mod query;
pub(crate) mod salvage;
pub(crate) mod search;
pub(crate) mod search_pack;
pub(crate) mod stat;
pub(crate) mod words;
