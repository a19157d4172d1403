ghost use Rattle.std.specs.Prelude.{◌≡◌, ◌↔◌, ◌<◌, ◌≤◌, ◌++◌, IsTrue, OnErr, OnOk, decimal};
ghost use Rattle.std.specs.Prelude.{length, string_bytes};
ghost use Rattle.rignolda_findings.specs.Gathered.{Adds, Counts, most_counted, most_findings};
ghost use Rattle.rignolda_findings.specs.Gathered.{nothing};
ghost use Rattle.rignolda_findings.specs.Shapes.{of_json, of_shape};

use crate::explanation::{Finding, Matter};
use crate::place::Place;
use crate::refusal::{Kind, Refusal};
use itoa::Buffer;
use serde_json::Value;
use stab_frames::ParamsFault;
use stab_job::JobFault;
use stab_script::LinkJobFault;
use stab_tree::NodeId;
use std::alloc::{AllocError, Global};
use std::marker::Model;

/// The most findings that an explanation has.
pub const MAX_FINDINGS: usize = 100;

/// The most further findings that are counted: where there are as many, the rest of the job is not
/// looked at.
pub const MAX_COUNTED: u64 = 1_000_000;

/// The most characters that are shown of a text of the job.
const MAX_SHOWN: usize = 40;

/// A piece of a finding's line.
#[derive(Clone, Copy)]
pub enum Piece<'a> {
    /// These words.
    Words(&'a str),
    /// A number, in decimal digits.
    Number(u64),
    /// A text of the job, in quotation marks.
    Quoted(&'a str),
    /// A value of the job: a number, a text, or what else it is.
    Found(&'a Value),
}

/// The findings so far.
#[derive(Drop)]
pub struct Notes {
    findings: Vec<Finding>,
    omitted: u64,
    kind: Kind,
    alloc: Global,
}

impl Model for Notes {
    ghost use Rattle.rignolda_findings.specs.Gathered.{Gathered};

    ghost Value = { Gathered };

    ghost view = { λ n. record {
      findings = n.findings.items;
      omitted = n.omitted;
      kind = n.kind;
    } };
}

impl Notes {
    /// No findings about bytes of this kind.
    pub fn new(alloc: Global, kind: Kind) -> Notes
        ensures { result ≡ nothing kind }
    {
        Notes {
            findings: Vec::new(alloc),
            omitted: 0,
            kind,
            alloc,
        }
    }

    /// The findings, and how many more there were.
    pub fn into_parts(self) -> (Vec<Finding>, u64)
        ensures { (result.0.items ≡ self.findings) × (result.1 ≡ self.omitted) }
    {
        (self.findings, self.omitted)
    }

    /// That something has another shape.
    pub fn of_shape(&self) -> Matter
        ensures { result ≡ Matter.Refused (of_shape self.now.kind) }
    {
        match self.kind {
            Kind::LinkJob => Matter::Refused(Refusal::LinkJob(LinkJobFault::Shape)),
            Kind::Job => Matter::Refused(Refusal::Job(JobFault::Shape)),
        }
    }

    /// That the bytes are no JSON.
    pub fn of_json(&self) -> Matter
        ensures { result ≡ Matter.Refused (of_json self.now.kind) }
    {
        match self.kind {
            Kind::LinkJob => Matter::Refused(Refusal::LinkJob(LinkJobFault::Json)),
            Kind::Job => Matter::Refused(Refusal::Job(JobFault::Json)),
        }
    }

    /// That two numbers are no parameters of a link: of all links, or of the link into one node.
    pub fn of_params(&self, fault: ParamsFault, owner: Option<NodeId>) -> Matter {
        match (self.kind, owner) {
            (Kind::LinkJob, _) => Matter::Refused(Refusal::LinkJob(LinkJobFault::Params(fault))),
            (Kind::Job, None) => Matter::Refused(Refusal::Job(JobFault::Params(fault))),
            (Kind::Job, Some(child)) => {
                Matter::Refused(Refusal::Job(JobFault::LinkParams(child, fault)))
            }
        }
    }

    /// The allocator of the lines.
    pub fn alloc(&self) -> Global {
        self.alloc
    }

    /// Whether further findings are counted alone.
    pub fn is_full(&self) -> bool
        ensures { IsTrue result ↔ (most_findings ≤ length self.now.findings) }
    {
        self.findings.len() >= MAX_FINDINGS
    }

    /// Whether no further finding is counted.
    pub fn is_done(&self) -> bool
        ensures { IsTrue result ↔ (most_counted ≤ self.now.omitted) }
    {
        self.omitted >= MAX_COUNTED
    }

    /// Adds a finding of a job of a tree.
    pub fn refuse(
        &mut self,
        fault: JobFault,
        place: &Place<'_>,
        pieces: &[Piece<'_>],
    ) -> Result<(), AllocError>
        ensures added { OnOk result (length self.old.findings < most_findings
            → Adds (Matter.Refused (Refusal.Job fault)) self.old self.new) }
        ensures full { most_findings ≤ length self.old.findings → Counts self.old self.new }
        ensures kind { self.new.kind ≡ self.old.kind }
        ensures unchanged { OnErr result (self.new ≡ self.old) }
    {
        self.add(Matter::Refused(Refusal::Job(fault)), place, pieces)
    }

    /// Adds a finding, unless there are as many as an explanation may have: then it is counted.
    pub fn add(
        &mut self,
        matter: Matter,
        place: &Place<'_>,
        pieces: &[Piece<'_>],
    ) -> Result<(), AllocError>
        ensures added { OnOk result (length self.old.findings < most_findings
            → Adds matter self.old self.new) }
        ensures full { most_findings ≤ length self.old.findings → Counts self.old self.new }
        ensures kind { self.new.kind ≡ self.old.kind }
        ensures unchanged { OnErr result (self.new ≡ self.old) }
    {
        if self.is_full() {
            if !self.is_done() {
                self.omitted += 1;
            }
            return Ok(());
        }
        let line = line_of(self.alloc, place, pieces)?;
        self.findings.push(Finding { matter, line })?;
        Ok(())
    }
}

/// The line of a finding.
pub fn line_of(
    alloc: Global,
    place: &Place<'_>,
    pieces: &[Piece<'_>],
) -> Result<String, AllocError> {
    let mut line = String::new(alloc);
    write_line(&mut line, place, pieces)?;
    Ok(line)
}

/// Adds the line of a finding: its place, a colon, and the pieces.
fn write_line(
    line: &mut String,
    place: &Place<'_>,
    pieces: &[Piece<'_>],
) -> Result<(), AllocError> {
    place.push_to(line)?;
    line.push_str(": ")?;
    for piece in pieces {
        push_piece(line, *piece)?;
    }
    Ok(())
}

/// Adds a piece.
fn push_piece(line: &mut String, piece: Piece<'_>) -> Result<(), AllocError> {
    match piece {
        Piece::Words(words) => line.push_str(words),
        Piece::Number(number) => push_number(line, number),
        Piece::Quoted(text) => push_quoted(line, text),
        Piece::Found(value) => push_found(line, value),
    }
}

/// Adds what a value is: a whole number and a text as they are.
fn push_found(line: &mut String, value: &Value) -> Result<(), AllocError> {
    if let Some(number) = value.as_u64() {
        return push_number(line, number);
    }
    line.push_str(words_of(value))?;
    match value.as_str() {
        Some(text) => push_quoted(line, text),
        None => Ok(()),
    }
}

/// The words for the kind of a value.
fn words_of(value: &Value) -> &'static str {
    match value {
        Value::Null => "null",
        Value::Bool(true) => "true",
        Value::Bool(false) => "false",
        Value::Number(_) => "a number that is not a whole one",
        Value::String(_) => "the text ",
        Value::Array(_) => "a list",
        Value::Object(_) => "an object",
    }
}

/// Adds a number.
pub fn push_number(line: &mut String, number: u64) -> Result<(), AllocError>
    ensures { OnOk result (string_bytes line.new ≡ string_bytes line.old ++ decimal number) }
{
    let mut buffer = Buffer::new();
    line.push_str(buffer.format(number))
}

/// Adds a text of the job in quotation marks: at most its first 40 characters, and `..` in place
/// of more, with `?` for each character that is not printed.
pub fn push_quoted(line: &mut String, text: &str) -> Result<(), AllocError> {
    line.push_str("\"")?;
    for (place, letter) in text.chars().enumerate() {
        if place >= MAX_SHOWN {
            line.push_str("..")?;
            break;
        }
        push_letter(line, letter)?;
    }
    line.push_str("\"")
}

/// Adds a character of a text in quotation marks.
fn push_letter(line: &mut String, letter: char) -> Result<(), AllocError> {
    match letter {
        '"' => line.push_str("\\\""),
        '\\' => line.push_str("\\\\"),
        _ if letter.is_control() => line.push_str("?"),
        _ => line.push(letter),
    }
}
