//! Scalars that are written from where they are in the text.
ghost use Rattle.std.specs.Prelude.{◌≡◌, OnOk};
ghost use Rattle.jsonb_spec.specs.Source.{Source};
ghost use Rattle.text_common.specs.VerbatimScalar.{IsVerbatimAt};

use crate::key::KeySink;
use crate::text::TextSink;
use std::alloc::AllocError;
use text_common::verbatim::Verbatim;

impl<'a> TextSink<'a> {
    ghost use Rattle.text_write.specs.TextSink.{Writes, base_of};
    ghost use Rattle.jsonb_spec.specs.Text.SourceText.{source_text};

    // Writes a scalar that is there in the text.
    #[inline(always)]
    pub(crate) fn verbatim(
        &mut self,
        verbatim: Verbatim,
        from: usize,
        to: usize,
    ) -> Result<(), AllocError>
        ensures bytes { OnOk result ((s : Source) → IsVerbatimAt verbatim self.old.written.text.now from to s
            → Writes (source_text s) self.old self.new) }
        ensures base { base_of self.new ≡ base_of self.old }
    {
        match verbatim {
            Verbatim::Integer => self.preserve_range(from, to),
            Verbatim::Decimal => self.preserve_range(from, to),
            Verbatim::Same => self.preserve_range(from, to),
            Verbatim::Escaped => self.json_string(from, to),
        }
    }
}

impl<'a> KeySink<'a> {
    ghost use Rattle.text_write.specs.KeySink.{Writes, base_of};
    ghost use Rattle.jsonb_spec.specs.SortKey.Joined.{source_key};

    // Writes a scalar that is there in the text.
    #[inline(always)]
    pub(crate) fn verbatim(
        &mut self,
        verbatim: Verbatim,
        from: usize,
        to: usize,
    ) -> Result<(), AllocError>
        ensures bytes { OnOk result ((s : Source) → IsVerbatimAt verbatim self.old.members.text.now from to s
            → Writes (source_key s) self.old self.new) }
        ensures base { base_of self.new ≡ base_of self.old }
    {
        match verbatim {
            Verbatim::Integer => self.integer(from, to),
            Verbatim::Decimal => self.decimal(from, to),
            Verbatim::Same => self.json_string(from, to),
            Verbatim::Escaped => self.json_string(from, to),
        }
    }
}
