use crate::canvas::Canvas;
use crate::ending::draw_ending;
use crate::events::draw_row;
use crate::faults::{draw_anew, draw_list, draw_mark, draw_restarted, draw_vanished};
use crate::head::{draw_event, draw_head, draw_start};
use crate::page::page;
use crate::panel::Panel;
use crate::point::Point;
use crate::sheet::{ROW, Sheet};
use rignolda_draw::Row;
use stab_core::Start;
use stab_frames::{Item, Params};
use std::alloc::{AllocError, Global};

/// A picture that is being drawn.
#[derive(Drop)]
pub(crate) struct Drawing {
    sheet: Sheet,
    canvas: Canvas,
    panels: Vec<Panel>,
    /// How many rows are drawn.
    rows: u64,
}

impl Drawing {
    /// A picture of these sizes, without a link.
    pub(crate) fn new(alloc: Global, sheet: Sheet) -> Drawing {
        Drawing {
            sheet,
            canvas: Canvas::new(alloc),
            panels: Vec::new(alloc),
            rows: 0,
        }
    }

    /// Adds a link at its start, to the right of the others: the names of its two ends, the name
    /// before its events, its parameters and its start.
    pub(crate) fn add_link(
        &mut self,
        alloc: Global,
        ends: (&str, &str),
        name: &str,
        params: Params,
        start: &Start,
    ) -> Result<(), AllocError> {
        let left = self.sheet.panel(self.panels.len() as u64);
        let mut panel = Panel::new(alloc, left, name)?;
        draw_head(alloc, &mut self.canvas, self.sheet, &panel, ends, params)?;
        draw_start(
            alloc,
            &mut self.canvas,
            self.sheet.start(),
            &mut panel,
            start,
        )?;
        self.panels.push(panel)?;
        Ok(())
    }

    /// The place of the last row.
    fn last_row(&self) -> Point {
        let above = self.rows.saturating_sub(1).saturating_mul(ROW);
        self.sheet.first().down(above)
    }

    /// Begins `count` rows, and answers the place of the last one.
    fn next_rows(&mut self, count: u64) -> Point {
        self.rows = self.rows.saturating_add(count);
        self.last_row()
    }

    /// Draws an event on the link at this place in the next row: its number, and its row.
    pub(crate) fn add_numbered(
        &mut self,
        alloc: Global,
        link: usize,
        number: u64,
        row: &Row,
    ) -> Result<(), AllocError> {
        let at = self.next_rows(1);
        let is_banded = self.rows % 2 == 1;
        let Some(panel) = self.panels.get_mut(link) else {
            return Ok(());
        };
        draw_event(
            &mut self.canvas,
            self.sheet,
            panel.name.as_str(),
            (number, is_banded),
            row,
            at,
        )?;
        draw_row(alloc, panel, &mut self.canvas, row, at.y)
    }

    /// Writes words for all links in the next row.
    pub(crate) fn add_mark(
        &mut self,
        number: u64,
        name: &str,
        text: &str,
    ) -> Result<(), AllocError> {
        let at = self.next_rows(1);
        draw_mark(&mut self.canvas, self.sheet, number, name, at, text)
    }

    /// Writes a word and a list of items for a node in the next row.
    pub(crate) fn add_list(
        &mut self,
        alloc: Global,
        number: u64,
        name: &str,
        word: &str,
        list: &[Item],
    ) -> Result<(), AllocError> {
        let at = self.next_rows(1);
        draw_mark(&mut self.canvas, self.sheet, number, name, at, word)?;
        draw_list(alloc, &mut self.canvas, self.sheet, at, list)
    }

    /// Draws that the link at this place is struck: what was queued vanishes, and what is there
    /// then is drawn as a start is, in as many rows as its longer queue has entries.
    pub(crate) fn add_strike(
        &mut self,
        alloc: Global,
        link: usize,
        number: u64,
        name: &str,
        start: &Start,
    ) -> Result<(), AllocError> {
        let entries = start.frames.len().max(start.acks.len()).max(1);
        let first = self.next_rows(1);
        let last = self.next_rows((entries as u64).saturating_sub(1));
        draw_mark(&mut self.canvas, self.sheet, number, name, first, "strike")?;
        let Some(panel) = self.panels.get_mut(link) else {
            return Ok(());
        };
        draw_vanished(panel, &mut self.canvas, first.y)?;
        draw_start(alloc, &mut self.canvas, last.y, panel, start)
    }

    /// Draws in the last row that the receiver of the link at this place begins anew.
    pub(crate) fn restart_receiver(&mut self, link: usize) -> Result<(), AllocError> {
        let at = self.last_row();
        let Some(panel) = self.panels.get_mut(link) else {
            return Ok(());
        };
        draw_restarted(panel, &mut self.canvas, at.y)
    }

    /// Draws in the last row that the sender of the link at this place begins anew.
    pub(crate) fn restart_sender(&mut self, link: usize) -> Result<(), AllocError> {
        let at = self.last_row();
        let Some(panel) = self.panels.get_mut(link) else {
            return Ok(());
        };
        draw_anew(panel, &mut self.canvas, at.y)
    }

    /// Draws how each link ends.
    pub(crate) fn end(&mut self, alloc: Global) -> Result<(), AllocError> {
        let y = self.sheet.end();
        for panel in self.panels.iter() {
            draw_ending(alloc, &mut self.canvas, panel, y)?;
        }
        Ok(())
    }

    /// The whole picture, under this heading.
    pub(crate) fn page(
        &self,
        alloc: Global,
        title: &str,
        about: &str,
    ) -> Result<String, AllocError> {
        page(alloc, &self.canvas, self.sheet, title, about)
    }
}
