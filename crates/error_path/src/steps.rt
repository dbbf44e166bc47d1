//! The containers that are open while a text is passed, and where the next part of the innermost one is due.

use crate::place::Place;
use std::alloc::{AllocError, Global};
use text_parse::Grammar;
use text_scan::parser::whitespace::piece_len;

/// Where a part is due.
#[derive(Clone, Copy)]
pub(crate) struct Spot {
    /// The index at which what is before it ends.
    after: usize,
    /// Whether a comma or a colon comes first.
    is_led: bool,
}

impl Spot {
    // Before the value of a text.
    fn first() -> Spot {
        Spot {
            after: 0,
            is_led: false,
        }
    }

    // The index of the part, and the byte that leads to it, where that is lacking.
    fn find_part(self, text: &[u8], grammar: Grammar, lead: u8) -> (usize, Option<u8>) {
        let at = skip_whitespace(text, self.after, grammar);
        if !self.is_led {
            return (at, None);
        }
        if text.get(at) != Some(&lead) {
            return (at, Some(lead));
        }
        (skip_whitespace(text, at.saturating_add(1), grammar), None)
    }
}

// The index after the whitespace that begins at an index.
fn skip_whitespace(text: &[u8], from: usize, grammar: Grammar) -> usize {
    match text.get(from..) {
        Some(rest) => from.saturating_add(whitespace_len(rest, grammar)),
        None => from,
    }
}

// How many bytes of whitespace the text begins with.
fn whitespace_len(text: &[u8], grammar: Grammar) -> usize {
    let mut rest = text;
    'pieces: loop {
        let len = piece_len(rest, grammar);
        if len == 0 {
            return text.len().saturating_sub(rest.len());
        }
        rest = &rest[len..];
    }
}

/// What is passed of a container that is open.
#[derive(Drop)]
pub(crate) enum Passed {
    /// So many elements of an array.
    Elements(usize),
    /// Members of an object up to that of this name, and whether its value is due.
    Members(Option<String>, bool),
}

/// A container that is open.
#[derive(Drop)]
struct Level {
    // Where it was due itself.
    spot: Spot,
    passed: Passed,
}

/// The containers that are open, the innermost last.
#[derive(Drop)]
pub(crate) struct Steps {
    levels: Vec<Level>,
    // Where the next part is due, and where the last one was that ended.
    next: Spot,
    last: Spot,
}

impl Steps {
    /// No container is open.
    pub(crate) fn new(alloc: Global) -> Steps {
        Steps {
            levels: Vec::new(alloc),
            next: Spot::first(),
            last: Spot::first(),
        }
    }

    /// A container is opened, whose opening byte is at an index.
    pub(crate) fn open(&mut self, passed: Passed, at: usize) -> Result<(), AllocError> {
        let spot = self.next;
        self.next = Spot {
            after: at.saturating_add(1),
            is_led: false,
        };
        self.levels.push(Level { spot, passed })?;
        Ok(())
    }

    /// The innermost container ends, whose closing byte is at an index. It is a part of the one around it.
    pub(crate) fn close(&mut self, at: usize) {
        if let Some(level) = self.levels.pop() {
            self.next = level.spot;
            self.end_part(at.saturating_add(1));
        }
    }

    /// A member of this name begins. The text goes on behind the name at an index.
    pub(crate) fn begin_member(
        &mut self,
        alloc: Global,
        name: &str,
        after: usize,
    ) -> Result<(), AllocError> {
        let name = String::from_str(alloc, name)?;
        if let Some(level) = self.levels.last_mut() {
            level.passed = Passed::Members(Some(name), true);
        }
        self.next = Spot {
            after,
            is_led: true,
        };
        Ok(())
    }

    /// A part ends, behind which the text goes on at an index.
    pub(crate) fn end_part(&mut self, after: usize) {
        if let Some(level) = self.levels.last_mut() {
            match &mut level.passed {
                Passed::Elements(count) => *count = count.saturating_add(1),
                Passed::Members(_, is_due) => *is_due = false,
            }
        }
        self.last = self.next;
        self.next = Spot {
            after,
            is_led: true,
        };
    }

    // Where the part is due at which the text is rejected: the last one that ended, where a comma is lacking after it,
    // and else the next one. Of an object that lacks a key it is the object itself.
    fn find_spot(&mut self, lacks_comma: bool) -> Spot {
        if lacks_comma {
            if let Some(
                Level {
                    passed: Passed::Elements(count),
                    ..
                },
            ) = self.levels.last_mut()
            {
                *count = count.saturating_sub(1);
            }
            return self.last;
        }
        if matches!(
            self.levels.last(),
            Some(Level {
                passed: Passed::Members(_, false),
                ..
            })
        )
            && let Some(object) = self.levels.pop()
        {
            return object.spot;
        }
        self.next
    }

    // The byte that leads to a part of the innermost container.
    fn lead(&self) -> u8 {
        match self.levels.last() {
            Some(
                Level {
                    passed: Passed::Members(..),
                    ..
                },
            ) => b':',
            _ => b',',
        }
    }

    /// The place at which the text is rejected: for the lack of a comma after a part, or else.
    pub(crate) fn into_place(
        mut self,
        alloc: Global,
        text: &[u8],
        grammar: Grammar,
        lacks_comma: bool,
    ) -> Result<Place, AllocError> {
        let mut spot = self.find_spot(lacks_comma);
        if self.levels.is_empty() {
            spot = Spot::first();
        }
        let lead = self.lead();
        let (front, lacking) = spot.find_part(text, grammar, lead);
        let end = self.next.after;
        let (keys, closers) = self.into_keys(alloc)?;
        Ok(Place {
            keys,
            front,
            end,
            lacking,
            closers,
        })
    }

    // The keys of the path to the part in the innermost container, and the bytes that close what is open, the innermost
    // first.
    fn into_keys(self, alloc: Global) -> Result<(Vec<String>, Vec<u8>), AllocError> {
        let mut keys = Vec::new(alloc);
        let mut closers = Vec::new(alloc);
        'levels: for level in self.levels {
            match level.passed {
                Passed::Elements(count) => {
                    keys.push(format!(in alloc; "{count}")?)?;
                    closers.push(b']')?;
                }
                Passed::Members(name, _) => {
                    if let Some(name) = name {
                        keys.push(name)?;
                    }
                    closers.push(b'}')?;
                }
            }
        }
        closers.reverse();
        Ok((keys, closers))
    }
}
