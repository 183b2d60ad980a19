//! Tests of what texts, files and outputs are made of, by the public calls of rh_words, rh_outside, rh_task_text and rh_injector:
//! each crate has a module of its own. Tables of texts and values from outside, and each call that takes memory once.
#![tactic(auto)]

#[cfg(test)]
mod injector;
#[cfg(test)]
mod outside;
#[cfg(test)]
mod task_text;
#[cfg(test)]
mod words;
