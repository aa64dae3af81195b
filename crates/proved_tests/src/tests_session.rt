//! Tests of what a client keeps: the file of a hint, and the folder of such files.

mod folders;
mod hints;
