//! The exports for C that read: what a string has, as units, words, bytes or a number, how it compares with
//! units and bytes that C gives, and where another one occurs in it. Each call tests its conditions, as in
//! `jsstr_c`. Nothing is made but what settling a rope needs.
#![tactic(auto)]

mod lists;
mod reading;
mod search;
