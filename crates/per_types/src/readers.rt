//! Readers of one kind each. A reader takes exactly the bits of what it answers. Where it refuses, the
//! cursor stands at the refused element's first bit.
pub mod elements;
pub mod enums;
pub mod numbers;
pub mod sections;
pub mod strings;
