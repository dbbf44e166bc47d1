//! Whitespace between the parts of a text.
ghost use Rattle.std.specs.Prelude.{◌≡◌, ◌+◌, ◌<◌, MatchBool};
ghost use Rattle.jsonb_spec.specs.Mode.{strictness};
ghost use Rattle.text_scan.specs.Answer.{grammar_of};
ghost use Rattle.text_parse.specs.Parser.{Skips, SkipsSome, rest_of};
ghost use Rattle.jsonb_spec.specs.Parsing.Whitespace.{opens_comment, skip_closed_whitespace, skip_whitespace};

use super::{Mode, Parser};
use std::simd::prelude::*;
use text_scan::parser::whitespace::{near_spaces, piece_len};

// How many bytes `near_spaces` looks at.
const NEAR: usize = 16;

impl Parser<'_> {
    // Whether the next byte may begin whitespace. Few bytes may, so this is asked before the call.
    #[inline(always)]
    fn may_begin_whitespace(&self) -> bool
        ensures skips { MatchBool result (Unit {0}) (skip_whitespace (grammar_of self.now.grammar) (rest_of self.now)
            ≡ rest_of self.now) }
        ensures passes { MatchBool result (Unit {0})
            (skip_closed_whitespace (grammar_of self.now.grammar) (rest_of self.now) ≡ rest_of self.now) }
    {
        let Some(byte) = self.peek() else {
            return false;
        };
        // Most bytes up to a quote are quotes or whitespace.
        if byte <= b'"' {
            return byte != b'"';
        }
        byte == b'\\' || byte == b'/'
    }

    // Passes whitespace, and a comment that never ends.
    #[inline(always)]
    pub(super) fn skip_whitespace(&mut self)
        ensures { Skips skip_whitespace self.old self.new }
    {
        if self.may_begin_whitespace() {
            self.skip_run_of_whitespace();
        }
    }

    // Passes whitespace that is mostly one end of a line and the spaces after it, or one space.
    #[inline(never)]
    fn skip_run_of_whitespace(&mut self)
        ensures { Skips skip_whitespace self.old self.new }
    {
        self.skip_line_feed();
        self.skip_spaces();
        if self.may_begin_whitespace() {
            self.skip_lines();
        }
    }

    // Passes whitespace that is mostly ends of lines, and tabs and spaces after them.
    #[inline(never)]
    fn skip_lines(&mut self)
        ensures { Skips skip_whitespace self.old self.new }
    {
        'pieces: while self.take_plain_whitespace() {
            self.skip_spaces();
            if !self.may_begin_whitespace() {
                return;
            }
        }
        self.skip_other_whitespace();
    }

    // Passes whitespace of all kinds, comments among them.
    #[inline(never)]
    fn skip_other_whitespace(&mut self)
        ensures { Skips skip_whitespace self.old self.new }
    {
        self.skip_each_closed_piece();
        if self.opens_comment() {
            self.offset = self.buf.len();
        }
    }

    // Passes whitespace, up to a comment that never ends.
    #[inline(always)]
    pub(super) fn skip_closed_whitespace(&mut self)
        ensures { Skips skip_closed_whitespace self.old self.new }
    {
        if self.may_begin_whitespace() {
            self.skip_each_closed_piece();
        }
    }

    // Passes whitespace piece by piece, up to a comment that never ends.
    #[inline(never)]
    fn skip_each_closed_piece(&mut self)
        ensures { Skips skip_closed_whitespace self.old self.new }
    {
        'whitespace: while self.offset < self.buf.len() {
            let n = piece_len(self.rest(), self.grammar);
            if n == 0 {
                return;
            }
            self.offset += n;
            self.skip_spaces();
        }
    }

    // Passes a space, a tab or an end of a line, where one comes next.
    #[inline(always)]
    fn take_plain_whitespace(&mut self) -> bool
        ensures skips { SkipsSome skip_closed_whitespace self.old self.new }
        ensures onward { MatchBool result (self.old.offset < self.new.offset) (self.new ≡ self.old) }
    {
        if self.take_byte(b' ') {
            return true;
        }
        if self.take_byte(b'\n') {
            return true;
        }
        if self.take_byte(b'\t') {
            return true;
        }
        if self.take_byte(b'\r') {
            return true;
        }
        false
    }

    // Passes one line feed, where one comes next.
    #[inline(always)]
    fn skip_line_feed(&mut self)
        ensures { SkipsSome skip_closed_whitespace self.old self.new }
    {
        let _found = self.take_byte(b'\n');
    }

    // Passes one space, where one comes next.
    #[inline(always)]
    pub(super) fn skip_space(&mut self)
        ensures { SkipsSome skip_whitespace self.old self.new }
    {
        let _found = self.take_byte(b' ');
    }

    // Most whitespace is spaces in a row.
    #[inline(always)]
    fn skip_spaces(&mut self)
        ensures { SkipsSome skip_closed_whitespace self.old self.new }
    {
        'rows: loop {
            let count = near_spaces(self.rest());
            self.offset += count;
            if count < NEAR {
                return;
            }
        }
    }

    // Whether a comment begins here. After the whitespace, this is one that never ends.
    pub(super) fn opens_comment(&self) -> bool
        ensures value { result ≡ opens_comment (strictness (grammar_of self.now.grammar)) (rest_of self.now) }
    {
        if self.offset >= self.buf.len() {
            return false;
        }
        match self.mode {
            Mode::Standard => false,
            Mode::Extended => matches!(self.rest(), [b'/', b'*' | b'/', ..]),
        }
    }
}
