//! The links between the kept nodes of an engine, and forgetting that looks only near.
//!
//! A kept node has a slot. [`Links`] hold, for each slot, the slots that its node asked and its users, its uses of the
//! bytes, for each page of 64 bytes the uses that meet it, and the slots by where their uses of the size and of reaching
//! end. So an overwrite finds what it touches, and all that asked it, without a look at anything else; an append looks at
//! the uses of the size, and an insert or a delete also at the pages from its place on. Links know nothing of nodes and
//! answers.
//!
//! Calls, after those that mark what an edit touches, in `crates/ksv_memo/src/table.rt`:
//!
//! ```
//! while let Some(slot) = links.take() {
//!     empty(slots, slot as usize);
//! }
//! ```
//!
//! Modules:
//!
//! - `blocks`: entries in blocks, and the chains of those of the same list: `link` and `unlink`
//! - `cells`: a list, each look counted
//! - `chains`: what lists each owner is linked to, and each list's items, each look counted
//! - `links`: `Links`, the public face
//! - `marks`: which slots are kept, and which are to be taken
//! - `parts`: asks and uses of each slot; the steps of forgetting, taking and keeping
//! - `used`: the uses of each slot, and the lists in which slots stand by them, each look counted
//!
//! Definitions (`specs/`):
//!
//! - `Chained`: entries in blocks, and the chain of the entries of a list, for private contracts
//! - `Forgetting`: what forgetting does to the links, for private contracts
//! - `Linked`: items of lists, and how often lists are named, for private contracts
//! - `Links`: the links as the engine sees them, and what a change reaches along them
//! - `Marking`: which slots are kept, and which wait to be taken, for private contracts
//! - `Placed`: the uses of a slot as a list, and the lists in which a slot with these uses is, for private contracts
//! - `Shelved`: rows of items, for private contracts
//! - `Touching`: which pages of 64 bytes a use meets, and where uses end
//!
//! Lemmas (`proofs/`):
//!
//! - `Also`: slots that go whatever a change touches, which are marked first
//! - `Chaining`: what is left of a chain when an entry is taken out, and with one more before it
//! - `Clearing`: a row that is shortened from its end
//! - `Closing`: what is marked is what has to go
//! - `Common`: what many of them name, of definitions and of other crates
//! - `Counting`: users of slots that go are no more than what these slots asked
//! - `Counts`: how many names a list has after one more and one less
//! - `Cursors`: where a walk along the items of a list is, and how it goes on
//! - `Edits`: what rows are after a write to one
//! - `Filling`: a row that is filled number by number
//! - `Growing`: the chains stay whole when owners and lists are added
//! - `Hits`: why a mark is right
//! - `Items`: the items of a list, as the chain of its entries has them
//! - `Keeping`: the links stay whole when a slot is taken or kept
//! - `Linking`: the chains stay whole when one entry is linked or unlinked
//! - `Mark`: one more mark
//! - `Meeting`: each slot is linked to the lists of its uses
//! - `Members`: members of lists of slots
//! - `More`: marks one after another
//! - `Packing`: rows that are copied one upon another
//! - `Padding`: more empty rows at the end
//! - `Spreading`: the users of marked slots, one slot after another
//! - `Tallies`: the items of pages are no more than the pages that uses meet, and those of ends no more than the ends
//! - `Touches`: a use that is touched meets a page that the overwrite meets, or one after the edit, or ends there
//! - `Turns`: lists that take turns: those of ends, and those of pages
//! - `Writing`: a write to one row
#![tactic(auto)]

mod blocks;
mod cells;
mod chains;
mod links;
mod marks;
mod parts;
mod used;

pub use links::Links;
pub use used::PAGE;
