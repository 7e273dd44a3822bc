//! What Cedar's values mean at Cedar's types, and what a schema, a request and a store are symbolized to. Definitions and laws;
//! one law makes the call of which it speaks.
//!
//! Read `specs/CedarTyping.antt` and `specs/CedarMeaning.antt` first: which values are of which types, and which values of
//! terms they mean; `ValueLaws` states that the terms which stand for values mean these. `Symbolized` has the symbolic
//! environment of a schema, a request and a store, or its first fault, and `Laws` states that its tables (`Tables`) say what is
//! stored.
#![tactic(auto)]

pub mod laws;
