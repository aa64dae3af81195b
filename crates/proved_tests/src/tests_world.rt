//! Tests of the words of command lines.

mod words;
