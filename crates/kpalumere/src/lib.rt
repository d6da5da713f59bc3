// The boundary for C and Rust: each call takes lent slices and numbers, answers document 01's number (0 where accepted), and writes
// what it gives, or what its number carries, into lent words; 12, and nothing written, where those have no room. A refusal that was met
// in a directory's header or entry leaves four words: 1 for a header or 2 for an entry, the level, the index (0 of a header), and where
// the directory begins. The crates named `..._words` do it, and have the same contracts over a Result: an export is one call of theirs,
// its answer as a number.
#![tactic(auto)]

mod aspt_table;
mod binaries;
mod checksum;
mod guid_table;
mod images;
mod mailbox_exports;
mod views;
mod writing;
