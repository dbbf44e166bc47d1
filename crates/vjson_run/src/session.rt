//! A run of the program over its files.

ghost use Rattle.std.specs.Prelude.{◌≡◌, ◌≢◌, ◌⊎◌, ◌≤◌, ◌∷◌, ◌==◌, [], List, ℕ, Option, OnOk, IfErr, IfSome, Err, None, Some, if◌then◌else◌, true, false};
ghost use Rattle.jsonb_spec.specs.Parsing.Memory.{MayAllocate};
ghost use Rattle.vjson_text.specs.Texts.{IsNoTextOf, Rejects};
ghost use Rattle.vjson_run.specs.Answers.{IsLaidOut, IsOne, PrintsKeyed, checks_order, compares};
ghost use Rattle.jsonb_spec.specs.Program.Printed.{Prints};
ghost use Rattle.vjson_run.specs.InOrder.{is_wrong};
ghost use Rattle.jsonb_spec.specs.Program.Input.{text_lines, texts_of, without_mark};
ghost use Rattle.vjson_run.specs.Output.{IsWritten};
ghost use Rattle.vjson_run.specs.Trouble.{Advances, MayRunOutBy, MayTakeMemory, MayTroubleAtEnd, Troubles};
ghost use Rattle.vjson_run.specs.Runs.{
  AddsLine,
  ChecksOrder,
  Compares,
  Differs,
  Gets,
  HasTaken,
  IsDone,
  IsRetained,
  IsSame,
  Takes,
  TakesChosen,
  Tells,
  WritesSorted,
  denied,
  line_texts,
  sorts,
};

use crate::answers;
use crate::answers::Buffers;
use crate::input::{is_blank_line, read_line, without_end, without_mark};
use crate::lines::{Line, arrange, may_follow};
use crate::options::{Command, Options};
use crate::report::{
    Output, Spot, print_counts, print_lines, report_fault, report_memory, report_stream,
};
use jsonb::{ParseErrorCode, line_and_column};
use std::alloc::{AllocError, Global};
use std::io;
use std::io::{BufRead, ErrorKind, Write};
use vjson_text::{Fault, Message};

// What the exit status says.
#[derive(Clone, Copy, PartialEq, Eq, Debug)]
enum Status {
    Yes,
    No,
    Trouble,
}

// What is said of a text, by the line and the column of what is wrong: what is behind a text on a line of its own is
// often a text of the next line.
fn message_at(line: usize, column: usize, message: Message) -> Message {
    match message {
        Message::Code(ParseErrorCode::UnexpectedTrailingCharacters) if line > 1 && column == 1 => {
            Message::Trailing
        }
        message => message,
    }
}

/// A run of the program.
#[derive(Drop)]
pub struct Session<'o, W, E> {
    alloc: Global,
    options: &'o Options,
    out: Output<W>,
    err: E,
    status: Status,
    over: bool,
    lines: Vec<Line>,
    // The key of the line before, or of the file before.
    last: Option<Vec<u8>>,
    buffers: Buffers,
}

impl<'o, W: Write, E: Write> Session<'o, W, E> {
    /// A run with these options, over these streams, of which nothing is read yet.
    pub fn new(alloc: Global, options: &'o Options, out: W, err: E) -> Session<'o, W, E>
        ensures nothing { HasTaken W.contents (W.contents out) [] result }
        ensures calm { result.status ≢ Status.Trouble }
    {
        Session {
            alloc,
            options,
            out: Output::new(alloc, out),
            err,
            status: Status::Yes,
            over: false,
            lines: Vec::new(alloc),
            last: None,
            buffers: Buffers::new(alloc),
        }
    }

    /// Whether what is left to be read makes no difference.
    pub fn is_over(&self) -> bool {
        self.over
    }

    // The answer is no, unless there was trouble.
    fn deny(&mut self)
        ensures { self.new ≡ record self.old { status = denied self.old.status } }
    {
        if self.status == Status::Yes {
            self.status = Status::No;
        }
    }

    /// Reports that a file can't be read.
    pub fn cannot_read(&mut self, name: &str, error: &io::Error)
        ensures trouble { self.new.status ≡ Status.Trouble }
    {
        self.status = Status::Trouble;
        self.out.flush();
        report_stream(self.alloc, &mut self.err, name, error);
    }

    fn no_memory(&mut self)
        ensures trouble { self.new.status ≡ Status.Trouble }
        ensures options { self.new.options ≡ self.old.options }
    {
        self.status = Status::Trouble;
        self.over = true;
        report_memory(&mut self.err);
    }

    /// Reads one input to its end.
    ///
    /// # Errors
    ///
    /// Where the input fails, or has more than 2^64 lines.
    pub fn feed<R: BufRead>(&mut self, name: &str, input: &mut R) -> io::Result<()>
        ensures takes { OnOk result (IfSome (R.remaining input.old)
            (λ bytes. TakesChosen W.contents self.old (texts_of self.old.options.now.lines bytes) self.new)) }
        ensures trouble { OnOk result (IfSome (R.remaining input.old)
            (λ bytes. Troubles self.old (texts_of self.old.options.now.lines bytes) self.new)) }
    {
        if self.options.lines {
            self.feed_lines(name, input)
        } else {
            self.feed_whole(name, input)
        }
    }

    fn feed_whole<R: BufRead>(&mut self, name: &str, input: &mut R) -> io::Result<()>
        ensures { OnOk result (IfSome (R.remaining input.old)
            (λ bytes. Advances W.contents self.old (without_mark bytes ∷ []) self.new)) }
    {
        let mut bytes = Vec::new(self.alloc);
        input.read_to_end(&mut bytes)?;
        self.take_whole(name, without_mark(&bytes));
        Ok(())
    }

    // Takes all of an input.
    fn take_whole(&mut self, name: &str, text: &[u8])
        ensures { Advances W.contents self.old (text.now ∷ []) self.new }
    {
        match self.take(text) {
            Ok(()) => {}
            Err(Fault::NoMemory) => self.no_memory(),
            Err(Fault::At(offset, message)) => {
                let (line, column) = line_and_column(text, offset);
                let spot = Spot {
                    name,
                    line: u64::try_from(line).unwrap_or(u64::MAX),
                    column: u64::try_from(column).unwrap_or(u64::MAX),
                };
                self.reject(spot, &message_at(line, column, message), text, offset);
            }
        }
    }

    fn feed_lines<R: BufRead>(&mut self, name: &str, input: &mut R) -> io::Result<()>
        ensures { OnOk result (IfSome (R.remaining input.old)
            (λ bytes. Advances W.contents self.old (text_lines (without_mark bytes)) self.new)) }
    {
        let mut bytes = Vec::new(self.alloc);
        if read_line(input, &mut bytes)? == 0 {
            return Ok(());
        }
        self.take_line(name, 1, without_mark(&bytes));
        'lines: for number in 2..u64::MAX {
            if self.over {
                return Ok(());
            }
            bytes.clear();
            if read_line(input, &mut bytes)? == 0 {
                return Ok(());
            }
            self.take_line(name, number, &bytes);
        }
        Err(io::Error::from(ErrorKind::FileTooLarge))
    }

    // Takes a line, unless it is blank.
    fn take_line(&mut self, name: &str, number: u64, line: &[u8])
        ensures { Advances W.contents self.old (line_texts line.now) self.new }
    {
        let text = without_end(line);
        if is_blank_line(text) {
            return;
        }
        self.take_text(name, number, text);
    }

    // Takes the text of a line.
    fn take_text(&mut self, name: &str, number: u64, text: &[u8])
        ensures { Advances W.contents self.old (text.now ∷ []) self.new }
    {
        match self.take(text) {
            Ok(()) => self.stop_out_of_order(name, number),
            Err(Fault::NoMemory) => self.no_memory(),
            Err(Fault::At(offset, message)) => {
                let spot = Spot {
                    name,
                    line: number,
                    column: u64::try_from(offset).unwrap_or(u64::MAX).saturating_add(1),
                };
                self.reject(spot, &message, text, offset);
            }
        }
    }

    // Reports that the line isn't in order, where this is so, and reads no more.
    fn stop_out_of_order(&mut self, name: &str, number: u64)
        ensures { Advances W.contents self.old [] self.new }
    {
        if self.options.checks_order() && self.status == Status::No && !self.over {
            let _ = writeln!(self.err, "vjson: {name}:{number}: out of order");
            self.over = true;
        }
    }

    // Reports that a text is rejected.
    fn reject(&mut self, spot: Spot<'_>, message: &Message, text: &[u8], offset: usize)
        ensures { IsNoTextOf self.old.options.now.grammar text.now
            → Advances W.contents self.old (text.now ∷ []) self.new }
    {
        self.status = self.status_rejected();
        self.over = self.is_over_rejected();
        if self.options.quiet {
            return;
        }
        self.out.flush();
        report_fault(self.alloc, &mut self.err, spot, message, text, offset);
    }

    // Whether no more is read once a text is rejected: where it is asked whether lines are in order.
    fn is_over_rejected(&self) -> bool
        ensures { checks_order self.now.options.now ≡ false → result ≡ self.now.over }
    {
        if self.options.checks_order() {
            true
        } else {
            self.over
        }
    }

    // The status once a text is rejected: no, or of two that are compared trouble.
    fn status_rejected(&self) -> Status
        ensures others { compares self.now.options.now.command ≡ false → result ≡ denied self.now.status }
        ensures compared { compares self.now.options.now.command ≡ true → result ≡ Status.Trouble }
    {
        match (self.options.command, self.status) {
            (Command::Equal | Command::Diff, _) => Status::Trouble,
            (_, Status::Yes) => Status::No,
            (_, status) => status,
        }
    }

    // Answers a text, unless it is left out.
    fn take(&mut self, text: &[u8]) -> Result<(), Fault>
        ensures ok { OnOk result (TakesChosen W.contents self.old (text.now ∷ []) self.new) }
        ensures rejected { IfErr result (λ f. f ≢ Fault.NoMemory
            → IsNoTextOf self.old.options.now.grammar text.now × IsSame self.old self.new) }
        ensures calm { Troubles self.old [] self.new }
        ensures memory { result ≡ Err Fault.NoMemory
            → MayRunOutBy self.old.options.now.command self.old.options.now.grammar text.now }
    {
        let chosen = answers::is_chosen(self.alloc, self.options, text, &mut self.buffers)?;
        if !chosen {
            return Ok(());
        }
        self.answer(text)?;
        self.settle();
        Ok(())
    }

    // Writes what is printed, where it is much. Where that fails no more is read.
    fn settle(&mut self)
        ensures { Advances W.contents self.old [] self.new }
    {
        self.out.flush_much(self.options.block);
        if self.out.error().is_some() {
            self.over = true;
        }
    }

    // Answers a text, and prints what is printed of it.
    fn answer(&mut self, text: &[u8]) -> Result<(), Fault>
        ensures ok { OnOk result (Takes W.contents self.old (text.now ∷ []) self.new) }
        ensures rejected { Rejects self.old.options.now.grammar text.now result }
        ensures same { IfErr result (λ f. f ≢ Fault.NoMemory → IsSame self.old self.new) }
        ensures calm { Troubles self.old [] self.new }
        ensures memory { result ≡ Err Fault.NoMemory
            → MayRunOutBy self.old.options.now.command self.old.options.now.grammar text.now }
    {
        match self.options.command {
            Command::Check => self.answer_check(text),
            Command::Format => self.answer_format(text),
            Command::Get => self.answer_get(text),
            Command::Keys => self.answer_keys(text),
            Command::Sort => self.take_sort(text),
            Command::Equal => self.take_equal(text),
            Command::Diff => self.answer_diff(text),
        }
    }

    fn answer_check(&mut self, text: &[u8]) -> Result<(), Fault>
        ensures ok { OnOk result (IsOne self.old.options.now.grammar text.now) }
        ensures rejected { Rejects self.old.options.now.grammar text.now result }
        ensures same { IsSame self.old self.new }
        ensures memory { result ≡ Err Fault.NoMemory → MayAllocate text.now }
    {
        vjson_text::check(self.alloc, self.options.grammar, text)
    }

    fn answer_format(&mut self, text: &[u8]) -> Result<(), Fault>
        ensures ok { OnOk result (Prints (IsLaidOut self.old.options.now text.now) self.old.out.bytes.items
            self.new.out.bytes.items) }
        ensures err { IfErr result (λ f. f ≢ Fault.NoMemory → self.new.out.bytes.items ≡ self.old.out.bytes.items) }
        ensures rejected { Rejects self.old.options.now.grammar text.now result }
        ensures retained { IsRetained self.old self.new }
        ensures memory { result ≡ Err Fault.NoMemory → MayTakeMemory self.old.options.now.grammar text.now }
    {
        let out = &mut self.out.bytes;
        answers::format(self.alloc, self.options, text, out)
    }

    fn answer_get(&mut self, text: &[u8]) -> Result<(), Fault>
        ensures ok { OnOk result (Gets self.old text.now self.new) }
        ensures rejected { Rejects self.old.options.now.grammar text.now result }
        ensures same { IfErr result (λ f. f ≢ Fault.NoMemory → IsSame self.old self.new) }
        ensures calm { Troubles self.old [] self.new }
        ensures memory { result ≡ Err Fault.NoMemory → MayTakeMemory self.old.options.now.grammar text.now }
    {
        let out = &mut self.out.bytes;
        if !answers::get(self.alloc, self.options, text, &mut self.buffers, out)? {
            self.deny();
        }
        Ok(())
    }

    fn answer_keys(&mut self, text: &[u8]) -> Result<(), Fault>
        ensures ok { OnOk result (PrintsKeyed self.old.options.now text.now self.old.out.bytes.items
            self.new.out.bytes.items) }
        ensures err { IfErr result (λ f. f ≢ Fault.NoMemory → self.new.out.bytes.items ≡ self.old.out.bytes.items) }
        ensures rejected { Rejects self.old.options.now.grammar text.now result }
        ensures retained { IsRetained self.old self.new }
        ensures memory { result ≡ Err Fault.NoMemory → MayTakeMemory self.old.options.now.grammar text.now }
    {
        let out = &mut self.out.bytes;
        answers::print_key(self.alloc, self.options, text, &mut self.buffers, out)
    }

    fn take_equal(&mut self, text: &[u8]) -> Result<(), Fault>
        ensures ok { OnOk result (Compares text.now self.old self.new) }
        ensures rejected { Rejects self.old.options.now.grammar text.now result }
        ensures same { IfErr result (λ f. f ≢ Fault.NoMemory → IsSame self.old self.new) }
        ensures calm { Troubles self.old [] self.new }
        ensures memory { result ≡ Err Fault.NoMemory → MayTakeMemory self.old.options.now.grammar text.now }
    {
        let grammar = self.options.grammar;
        answers::make_whole_key(self.alloc, grammar, text, &mut self.buffers)?;
        let key = self.buffers.key.clone()?;
        if self.differs(&key) {
            self.deny();
            self.over = true;
            self.last = Some(key);
            return Ok(());
        }
        self.last = Some(key);
        Ok(())
    }

    // Whether the key differs from the last one.
    fn differs(&self, key: &[u8]) -> bool
        ensures { Differs self.now.last key.now result }
    {
        match &self.last {
            Some(last) => last.as_slice() != key,
            None => false,
        }
    }

    fn answer_diff(&mut self, text: &[u8]) -> Result<(), Fault>
        ensures ok { OnOk result (Tells self.old text.now self.new) }
        ensures rejected { Rejects self.old.options.now.grammar text.now result }
        ensures same { IfErr result (λ f. f ≢ Fault.NoMemory → IsSame self.old self.new) }
        ensures calm { Troubles self.old [] self.new }
        ensures memory { result ≡ Err Fault.NoMemory → MayTakeMemory self.old.options.now.grammar text.now }
    {
        let grammar = self.options.grammar;
        let base = without_mark(&self.options.base);
        let out = &mut self.out.bytes;
        if !vjson_text::append_differences(self.alloc, grammar, base, text, out)? {
            self.deny();
        }
        Ok(())
    }

    fn take_sort(&mut self, text: &[u8]) -> Result<(), Fault>
        ensures ok { OnOk result (self.old.options.now.check ≡ false → AddsLine text.now self.old self.new) }
        ensures checked { OnOk result (self.old.options.now.check ≡ true → ChecksOrder text.now self.old self.new) }
        ensures rejected { Rejects self.old.options.now.grammar text.now result }
        ensures same { IfErr result (λ f. f ≢ Fault.NoMemory → IsSame self.old self.new) }
        ensures options { self.new.options ≡ self.old.options }
        ensures calm { Troubles self.old [] self.new }
        ensures memory { result ≡ Err Fault.NoMemory → MayTakeMemory self.old.options.now.grammar text.now }
    {
        answers::make_key(self.alloc, self.options, text, &mut self.buffers)?;
        let key = self.buffers.key.clone()?;
        if self.options.check {
            self.check_order(key);
            return Ok(());
        }
        let mut line = Vec::new(self.alloc);
        answers::append_line(self.alloc, self.options, text, &mut line)?;
        self.lines.push(Line { key, text: line })?;
        Ok(())
    }

    // Takes the key of the next line, where it is asked whether lines are in order.
    fn check_order(&mut self, key: Vec<u8>)
        ensures { self.new ≡ record self.old {
          last = Some key;
          status = if is_wrong self.old.options.now self.old.last key.items then denied self.old.status
              else self.old.status;
        } }
    {
        if self.is_wrong(&key) {
            self.deny();
        }
        self.last = Some(key);
    }

    // Whether the key may not be right behind the last one.
    fn is_wrong(&self, key: &[u8]) -> bool
        ensures { result ≡ is_wrong self.now.options.now self.now.last key.now }
    {
        match &self.last {
            Some(last) => !may_follow(last, key, self.options.reverse, self.options.unique),
            None => false,
        }
    }

    // Writes the lines in order.
    fn write_sorted(&mut self) -> Result<(), AllocError>
        ensures ok { OnOk result (WritesSorted W.contents self.old self.new) }
    {
        let options = self.options;
        if options.count {
            arrange(&mut self.lines, options.reverse, false)?;
            return print_counts(&self.lines, !options.by.is_empty(), &mut self.out);
        }
        arrange(&mut self.lines, options.reverse, options.unique)?;
        print_lines(&self.lines, &mut self.out)
    }

    // Writes the lines in order, where they are to be sorted.
    fn finish_sort(&mut self)
        ensures nothing { sorts self.old ≡ false → self.new ≡ self.old }
        ensures sorted { sorts self.old ≡ true → self.new.status ≢ Status.Trouble
            → WritesSorted W.contents self.old self.new }
        ensures trouble { self.new.status ≡ Status.Trouble
            → (self.old.status ≡ Status.Trouble) ⊎ (sorts self.old ≡ true) }
    {
        if self.sorts() && self.write_sorted().is_err() {
            self.no_memory();
        }
    }

    // Writes what is left to be written. Where that fails, there was trouble.
    fn finish_output(&mut self)
        ensures options { self.new.options ≡ self.old.options }
        ensures lines { self.new.lines.items ≡ self.old.lines.items }
        ensures status { self.new.status ≢ Status.Trouble → self.new.status ≡ self.old.status }
        ensures written { self.new.status ≢ Status.Trouble → IsWritten W.contents self.old.out self.new.out }
        ensures trouble { self.new.status ≡ Status.Trouble
            → (self.old.status ≡ Status.Trouble) ⊎ (self.new.out.error ≢ None) }
    {
        self.out.flush();
        if let Some(error) = self.out.error() {
            self.status = Status::Trouble;
            if error.kind() != ErrorKind::BrokenPipe {
                report_stream(self.alloc, &mut self.err, "standard output", &error);
            }
        }
    }

    /// Writes what is left to be written, and returns the exit status.
    pub fn finish(&mut self) -> u8
        ensures status { result ≤ 2 }
        ensures trouble { result ≡ 2 → (self.old.status ≡ Status.Trouble) ⊎ MayTroubleAtEnd self.old self.new.out }
        ensures done { (start : Option (List ℕ)) (texts : List (List ℕ)) → HasTaken W.contents start texts self.old
            → result ≢ 2 → IsDone self.old.options.now texts start (W.contents self.new.out.writer) (result == 0)
            self.old.options.now.command }
    {
        self.finish_sort();
        self.finish_output();
        match self.status {
            Status::Yes => 0,
            Status::No => 1,
            Status::Trouble => 2,
        }
    }

    // Whether lines are to be sorted: where one was rejected or a file failed there is no order of all lines.
    fn sorts(&self) -> bool
        ensures { result ≡ sorts self.now }
    {
        match self.options.command {
            Command::Sort => !self.options.check && self.status == Status::Yes,
            _ => false,
        }
    }
}
