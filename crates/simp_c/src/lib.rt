// The C face of the lab as a static library: the calls of `simp`, one export for each, with the same clauses. include/simp.h is its header.
#![tactic(auto)]

mod assembly;
mod hex;
mod memory_files;
mod records;
mod runs;
