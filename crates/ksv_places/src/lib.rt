//! Places of nodes, found along a tree of the nodes' paths.
//!
//! A *path* has a number, from 0 on; 0 is the root's. A *place* is the number of a node, as an engine counts them. The *spot* of a place
//! says of which path and kind its node is. A path's *row* has the *marks* of its four nodes: a mark is a node's place and one more, or 0
//! for none. A *link* of a path leads to the path a step shorter. From there the path is found among the *members* of an object or
//! the *elements* of a list: up to eight members are in a *chain*; further members and all elements are in *tables*, which have a *descent*
//! and *pages*. A *trace* says at which path the last search for a node ended.
//!
//! A call, in `crates/ksv_memo/src/slots.rt`:
//!
//! ```
//! match places.find(node) {
//!     None => Known::New,
//! ```
//!
//! Modules:
//!
//! - `descent`: numbers of indices one below the other
//! - `links`: links of paths, rows of marks, and spots
//! - `numbers`: numbers by small indices
//! - `parts`: parts that are made only where one is needed: pages of a table, and tables of paths
//! - `places`: `NodePlaces`: the places of nodes
//! - `spots`: nodes by their kinds and steps
//! - `table`: numbers by indices that may lie far apart
//! - `tables`: tables of paths
//! - `trace`: where searches end
//! - `tree`: paths by their numbers
//!
//! Definitions (`specs/`):
//!
//! - `Nodes`: nodes, given their kinds and steps
//! - `Spots`: nodes by their places: rows, marks and spots
//! - `Table`: numbers by indices, descents, pages and tables
//! - `Tree`: numbered paths, what leads to a path one step further, and where a walk ended
//!
//! Lemmas (`proofs/`):
//!
//! - `Chains`: the members of a path in a chain
//! - `Common`: what many of them name, of definitions and of other crates
//! - `Filing`: places and marks where a node is added or takes another's place
//! - `Growing`: a tree with a further path
//! - `Hooking`: what leads where once a path was hooked to the one a step shorter
//! - `Naming`: nodes, and their kinds and steps
//! - `Paging`: a number put into a page of a table
//! - `Pairing`: spots, of which the paths and the kinds are lists of their own
//! - `Planting`: the first path, the root
//! - `Reaching`: more paths, of which the old ones have their numbers, and where a search goes on among them
//! - `Replacing`: one part put in another's place
//! - `Shelves`: a number put into a path's table
//! - `Walking`: the paths of links, and what a walk along them finds
#![tactic(auto)]

mod descent;
mod links;
mod numbers;
mod parts;
mod places;
mod spots;
mod table;
mod tables;
mod trace;
mod tree;

pub use places::NodePlaces;
