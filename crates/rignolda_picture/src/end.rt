//! What is drawn alike at both ends of a link.

use crate::canvas::Canvas;
use crate::ink::Ink;
use crate::panel::Mark;
use crate::point::Point;
use crate::shapes::{push_arrow, push_circle, push_cross, push_line, push_words};
use std::alloc::AllocError;

/// How far a mark in a queue is from the line of the end that put it there.
const NEAR: u64 = 54;

/// How far words are from the line of an end.
const BESIDE: u64 = 32;

/// How far the mark of what is kept is from the line of the end that keeps it.
const KEPT: u64 = 44;

/// An end of a link at some height. The link is to the right of its sender, and to the left of its
/// receiver.
#[derive(Clone, Copy, Debug)]
pub(crate) struct End {
    /// The place on its line.
    pub(crate) at: Point,
    is_sender: bool,
}

impl End {
    /// A sender, whose line is here.
    pub(crate) fn sender(at: Point) -> End {
        End {
            at,
            is_sender: true,
        }
    }

    /// A receiver, whose line is here.
    pub(crate) fn receiver(at: Point) -> End {
        End {
            at,
            is_sender: false,
        }
    }

    /// The place so far from its line, where the link is.
    pub(crate) fn inside(self, by: u64) -> Point {
        if self.is_sender {
            self.at.right(by)
        } else {
            self.at.left(by)
        }
    }

    /// The place of words beside its line, where the link is not.
    pub(crate) fn beside(self) -> Point {
        if self.is_sender {
            self.at.left(BESIDE)
        } else {
            self.at.right(BESIDE)
        }
    }

    /// The place of a mark that this end puts into a queue.
    pub(crate) fn near(self) -> Point {
        self.inside(NEAR)
    }

    /// The place of a mark that this end keeps in a queue.
    pub(crate) fn kept(self) -> Point {
        self.inside(KEPT)
    }

    /// The first of these classes at a sender, and the second one at a receiver.
    fn class(self, at_sender: &'static str, at_receiver: &'static str) -> &'static str {
        if self.is_sender {
            at_sender
        } else {
            at_receiver
        }
    }

    /// Draws that what this end sends is lost at once.
    pub(crate) fn draw_full(self, canvas: &mut Canvas, ink: Ink) -> Result<(), AllocError> {
        push_line(&mut canvas.ways, ink.line(), self.at, self.inside(36))?;
        push_cross(&mut canvas.front, self.inside(42))?;
        let class = self.class("soft bad", "soft bad end");
        push_words(&mut canvas.front, class, self.inside(56), "queue full")
    }

    /// Draws that this end takes a message from here, and whether it keeps it.
    pub(crate) fn draw_taken(
        self,
        canvas: &mut Canvas,
        ink: Ink,
        from: Point,
        keep: bool,
    ) -> Result<(), AllocError> {
        push_arrow(&mut canvas.ways, ink, from, self.inside(10))?;
        if !keep {
            return Ok(());
        }
        push_circle(&mut canvas.front, ink, self.kept())?;
        let class = self.class("soft", "soft end");
        push_words(&mut canvas.front, class, self.inside(56), "kept")
    }

    /// Draws that a mark on its way to this end is lost.
    pub(crate) fn draw_lost(
        self,
        canvas: &mut Canvas,
        ink: Ink,
        mark: Mark,
    ) -> Result<(), AllocError> {
        let at = mark.at.half_way(self.at);
        push_line(&mut canvas.ways, ink.line(), mark.at, at)?;
        push_cross(&mut canvas.front, at)?;
        push_words(&mut canvas.front, "soft bad", at.right(12), "lost")
    }

    /// Draws that a mark is still on its way to this end.
    pub(crate) fn draw_queued(
        self,
        canvas: &mut Canvas,
        ink: Ink,
        mark: Mark,
    ) -> Result<(), AllocError> {
        let at = mark.at.half_way(self.at);
        push_line(&mut canvas.ways, ink.line(), mark.at, at)?;
        push_circle(&mut canvas.front, ink, at)
    }
}
