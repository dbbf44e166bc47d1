//! Contents of strings with escapes, which are decoded where they are written.
ghost use Rattle.std.specs.Prelude.{◌+◌, ◌^◌, ◌<◌, length, true};
ghost use Rattle.text_scan.specs.Answer.{mode_of};
ghost use Rattle.jsonb_spec.specs.Parsing.Decoding.{AreContents};

use jsonb_core::error::Result;
use text_scan::parser::Mode;
use text_scan::util::check_contents;

/// The contents of a string, which were checked.
#[derive(Clone, Copy)]
pub struct Contents<'a> {
    pub body: &'a str,
    pub mode: Mode,
    pub ghost checked: { AreContents (mode_of mode) body.now },
}

impl<'a> Contents<'a> {
    ghost use Rattle.jsonb_spec.specs.Parsing.Decoding.{ReportsBackslash};
    ghost use Rattle.jsonb_spec.specs.Parsing.String.{body_of};
    ghost use Rattle.text_write.specs.Contents.{ChecksAs};

    /// The contents of a string, which have a backslash. `idx` is the index after the opening quote and one more, from
    /// which an error counts.
    ///
    /// # Errors
    ///
    /// `Syntax` with the code and the offset that decoding the contents fails with.
    #[inline(always)]
    pub(crate) fn new(body: &'a str, mode: Mode, idx: usize) -> Result<Contents<'a>>
        requires escaped { ReportsBackslash body.now (length body.now) true }
        requires space { idx + length body.now < 2 ^ 64 }
        ensures { ChecksAs idx result (body_of (mode_of mode) body.now) }
    {
        check_contents(body, mode, idx)?;
        Ok(Contents { body, mode })
    }
}
