//! Calls that no program makes, of errors, values and trees that a caller builds, and of bytes and offsets that no text
//! gives. What a text or a sort key can say stands in rows of `tests/`.
#![tactic(auto)]

#[cfg(test)]
mod bytes;
#[cfg(test)]
mod extension;
#[cfg(test)]
mod printed;
#[cfg(test)]
mod tree;
