//! Tests of names, patterns and templates, and of the configurations that are made of them.
//!
//! - `names`: which texts are names.
//! - `tables`: names and their numbers.
//! - `patterns`: which names match, where the wilds stand, and which texts are no patterns.
//! - `templates`: what they are filled to, and which texts are none.
//! - `configs`, `config_value`: what the lines of a configuration say, and how it is printed.
//! - `config_faults`: first faults, and what is missing.
//! - `config_limits`, `config_words`: how many things there may be, and how many bytes of a word.
//! - `drawn_configs`: drawn configurations that come back.
#![tactic(auto)]

#[cfg(test)]
mod config_faults;
#[cfg(test)]
mod config_limits;
#[cfg(test)]
mod config_value;
#[cfg(test)]
mod config_words;
#[cfg(test)]
mod configs;
#[cfg(test)]
mod drawn_configs;
#[cfg(test)]
mod names;
#[cfg(test)]
mod patterns;
#[cfg(test)]
mod tables;
#[cfg(test)]
mod templates;
