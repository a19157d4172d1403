ghost use Rattle.std.specs.Prelude.{◌≡◌, ◌≢◌, ◌≤◌, ℕ, Bool, List, ◌++◌, Option};
ghost use Rattle.std.specs.Prelude.{IfErr, IfOk, OnErr, OnOk};
ghost use Rattle.stab_report.specs.Reports.{OnePerNode, ReportValue};
ghost use Rattle.stab_report.specs.Lines.{AreItems, IsCount, IsOneLine};
ghost use Rattle.stab_report.specs.LinesInside.{IsPrint, as_read};
ghost use Rattle.stab_report.specs.Texts.{node_lines, report_text, tree_text};
ghost use Rattle.stab_report.specs.Texts.{IsNoReport, IsNoText, IsNoTree, IsTextOf, IsUnended};

use crate::fault::ReportFault;
use crate::lines::{count_of, cut_end, cut_line, items_of};
use crate::report::Report;
use crate::text::{report_text, tree_text};
use stab_frames::{Item, Sequence};
use stab_tree::Tree;
use std::alloc::{AllocError, Global};

/// Reads the text of a report over this tree, as `stab run` prints one. What is answered has
/// exactly this text. Otherwise, and if memory is there, no report has it, and the fault names the
/// first line that no report of these counts and items has.
pub fn read_report(alloc: Global, tree: &Tree, text: &[u8]) -> Result<Report, ReportFault>
    ensures text { IfOk result (λ report. text.now ≡ report_text tree.now report) }
    ensures entries { IfOk result (OnePerNode tree.now.parents) }
    ensures refused { IfErr result (λ fault. fault ≢ ReportFault.Memory
        → IsNoReport tree.now text.now) }
{
    let report = shown_report(alloc, tree, text)?;
    let written = report_text(alloc, tree, &report)?;
    see_same(written.as_bytes(), text)?;
    Ok(report)
}

/// Reads the text of a tree, as `stab tree` prints one. What is answered has exactly this text, and
/// in it no node ended with its upstream. The fault is that of [`read_report`].
pub fn read_tree_text(alloc: Global, tree: &Tree, text: &[u8]) -> Result<Report, ReportFault>
    ensures text { IfOk result (λ report. text.now ≡ tree_text tree.now report) }
    ensures entries { IfOk result (OnePerNode tree.now.parents) }
    ensures unended { IfOk result IsUnended }
    ensures refused { IfErr result (λ fault. fault ≢ ReportFault.Memory
        → IsNoTree tree.now text.now) }
{
    let report = unended(alloc, tree, shown_report(alloc, tree, text)?)?;
    let written = tree_text(alloc, tree, &report)?;
    see_same(written.as_bytes(), text)?;
    Ok(report)
}

/// Reads the text of a run's report or of a tree. It is that of a report where its first line says
/// why a node ended.
pub fn read_text(alloc: Global, tree: &Tree, text: &[u8]) -> Result<Report, ReportFault>
    ensures text { IfOk result (IsTextOf tree.now text.now) }
    ensures entries { IfOk result (OnePerNode tree.now.parents) }
    ensures refused { IfErr result (λ fault. fault ≢ ReportFault.Memory
        → IsNoText tree.now text.now) }
{
    let _tree = tree.root();
    if first_end(text).is_some() {
        read_report(alloc, tree, text)
    } else {
        read_tree_text(alloc, tree, text)
    }
}

/// What the first line of a text says of why a node ended, where it says so.
fn first_end(text: &[u8]) -> Option<bool>
    ensures { (name : List ℕ) (depth : ℕ) (received : List ℕ) (acked : Option ℕ)
        (end : Option Bool) (rest : List ℕ) → IsOneLine name → IsCount acked
        → text.now ≡ node_lines name depth received acked end ++ rest → result ≡ end }
{
    let (line, _) = cut_line(text);
    let (_, end) = cut_end(line);
    end
}

/// The same report, in which no node ended with its upstream.
fn unended(alloc: Global, tree: &Tree, report: Report) -> Result<Report, AllocError>
    requires { OnePerNode tree.now.parents report }
    ensures entries { IfOk result (OnePerNode tree.now.parents) }
    ensures unended { IfOk result IsUnended }
    ensures received { IfOk result (λ same. same.received ≡ report.received) }
    ensures acked { IfOk result (λ same. same.acked ≡ report.acked) }
{
    let mut unended = report;
    unended.ended_upstream = vec![in alloc; false; usize::from(tree.len())]?;
    Ok(unended)
}

/// The report that the counts and items of a text make, whatever else is in it.
fn shown_report(alloc: Global, tree: &Tree, text: &[u8]) -> Result<Report, AllocError>
    ensures entries { IfOk result (OnePerNode tree.now.parents) }
    ensures shown { IfOk result (λ shown. (r : ReportValue) (says_so : Bool)
        → IsPrint tree.now text.now r says_so → shown ≡ as_read tree.now r says_so) }
{
    let nodes = usize::from(tree.len());
    let _tree = tree.root();
    let mut received = Vec::with_capacity(alloc, nodes)?;
    let mut acked = Vec::with_capacity(alloc, nodes)?;
    let mut ended_upstream = Vec::with_capacity(alloc, nodes)?;
    let mut rest = text;
    'nodes: for _ in 0..tree.len() {
        let (items, count, end, after) = shown_node(alloc, rest)?;
        received.push_reserved(items);
        acked.push_reserved(count);
        ended_upstream.push_reserved(end.unwrap_or(false));
        rest = after;
    }
    Ok(Report {
        received,
        acked,
        ended_upstream,
    })
}

/// What the two lines of a node show, whatever else is in them: its items, its count, and why it
/// ended; and the text after them.
fn shown_node(
    alloc: Global,
    text: &[u8],
) -> Result<(Sequence<Item>, Option<u64>, Option<bool>, &[u8]), AllocError>
    ensures { IfOk result (λ shown. (name : List ℕ) (depth : ℕ) (received : List ℕ)
        (acked : Option ℕ) (end : Option Bool) (rest : List ℕ)
        → IsOneLine name → AreItems received → IsCount acked
        → text.now ≡ node_lines name depth received acked end ++ rest
        → (shown.0 ≡ received) × (shown.1 ≡ acked) × (shown.2 ≡ end) × (shown.3.now ≡ rest)) }
{
    let (first, after_first) = cut_line(text);
    let (second, after_second) = cut_line(after_first);
    let (counts, end) = cut_end(first);
    let items = items_of(alloc, second)?;
    Ok((items, count_of(counts), end, after_second))
}

/// Refuses a text that is not the one that was written.
pub fn see_same(written: &[u8], text: &[u8]) -> Result<(), ReportFault>
    ensures same { OnOk result (text.now ≡ written.now) }
    ensures differs { OnErr result (text.now ≢ written.now) }
{
    if written != text {
        return Err(ReportFault::Line(line_of_difference(written, text)));
    }
    Ok(())
}

/// The line of the first byte in which two texts differ, counted from 1.
fn line_of_difference(text: &[u8], other: &[u8]) -> u64
    ensures { 1 ≤ result }
{
    let mut line: u64 = 1;
    for (place, byte) in text.iter().enumerate() {
        if other.get(place) != Some(byte) {
            return line;
        }
        if *byte == b'\n' {
            line = line.saturating_add(1);
        }
    }
    line
}
