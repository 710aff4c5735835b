//! Runs what a line asks for: locks the folder, and answers its one request there.
//!
//! No other run works on the tree meanwhile. What can't be kept as it was, such as a file's owner,
//! is found before the call is begun. A call is answered, refused, or stopped with what is to be
//! noted of it (`findings`). The root of the program calls it. Tested by `when.sh`, `folder.sh`,
//! `owners.sh`, `nested_runs.sh` and `recover.sh` in `tests/`.
mod adding;
mod answering;
mod findings;
mod line;
pub(crate) mod locked;
mod names;
mod on_folder;
