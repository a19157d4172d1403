//! The texts of the calls, which take no memory once they are made.

use std::alloc::{AllocError, Global};

/// How long a text may be.
const ROOM: usize = 1 << 16;

/// What the program prints: the answers, and the names of the calls that were refused.
#[derive(Drop)]
pub struct Told {
    pub answers: String,
    pub refused: String,
}

/// What is told, what an object holds before and after a call, and what the call answers. The texts
/// are made once, with so much room that they take no memory later: what is refused then is the
/// call's.
#[derive(Drop)]
pub struct Texts {
    pub told: Told,
    pub before: String,
    pub after: String,
    pub answer: String,
}

/// A text of nothing.
fn empty(alloc: Global) -> Result<String, AllocError> {
    String::with_capacity(alloc, ROOM)
}

/// The answer of a call, unless there may have been no room for a text.
fn shown<'a>(before: &str, answer: &'a str) -> &'a str {
    if before.len() >= ROOM || answer.len() >= ROOM {
        "(a long text)"
    } else {
        answer.trim_end()
    }
}

impl Told {
    /// Nothing is told.
    fn new(alloc: Global) -> Result<Told, AllocError> {
        let answers = empty(alloc)?;
        let refused = empty(alloc)?;
        Ok(Told { answers, refused })
    }
}

impl Texts {
    /// Texts of nothing.
    pub fn new(alloc: Global) -> Result<Texts, AllocError> {
        let told = Told::new(alloc)?;
        let before = empty(alloc)?;
        let after = empty(alloc)?;
        let answer = empty(alloc)?;
        Ok(Texts {
            told,
            before,
            after,
            answer,
        })
    }

    /// Names a call that was refused, and tells both states of its object where it changed it.
    pub fn tell_refused(&mut self, owner: &str, name: &str) -> Result<(), AllocError> {
        writeln!(self.told.refused, "refused {owner}{name}")?;
        if self.before != self.after {
            let (before, after) = (self.before.as_str(), self.after.as_str());
            let answers = &mut self.told.answers;
            writeln!(
                answers,
                "{name} was refused and changed\n{before}\nto\n{after}"
            )?;
        }
        self.answer.clear();
        Ok(())
    }

    /// Tells an answer after the name of its call, in lines of its own where it has several.
    pub fn tell_answer(&mut self, owner: &str, name: &str) -> Result<(), AllocError> {
        let answer = shown(&self.before, &self.answer);
        let between = if answer.contains('\n') { "\n" } else { " " };
        writeln!(self.told.answers, "{owner}{name}:{between}{answer}")?;
        self.before.clear();
        self.after.clear();
        self.answer.clear();
        Ok(())
    }
}
