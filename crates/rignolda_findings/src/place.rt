use crate::notes::{push_number, push_quoted};
use std::alloc::AllocError;

/// A place in a job: the whole, or a path that leads into it, as `starts[2].frames[1][0]`.
#[derive(Clone, Copy)]
pub struct Place<'a> {
    /// The member of the whole, and none where the whole is meant.
    member: Option<&'a str>,
    /// The place in the list that this member is.
    entry: Option<usize>,
    /// The member of the object so far.
    part: Option<&'a str>,
    /// The place in the list so far.
    item: Option<usize>,
    /// The place in the list that this item is.
    half: Option<usize>,
    /// The member of the object that this item is.
    inner: Option<&'a str>,
    /// The line and the column of a text that is no JSON.
    spot: Option<(usize, usize)>,
    /// What the entry is for: the words before the name of a node, and the name.
    owner: Option<(&'a str, &'a str)>,
}

impl<'a> Place<'a> {
    /// The whole job.
    pub fn whole() -> Place<'a> {
        Place {
            member: None,
            entry: None,
            part: None,
            item: None,
            half: None,
            inner: None,
            spot: None,
            owner: None,
        }
    }

    /// The line and the column of a text that is no JSON, both counted from 1.
    pub fn spot(line: usize, column: usize) -> Place<'a> {
        Place {
            spot: Some((line, column)),
            ..Place::whole()
        }
    }

    /// This member of the whole.
    pub fn member(name: &'a str) -> Place<'a> {
        Place {
            member: Some(name),
            ..Place::whole()
        }
    }

    /// This entry of the list.
    pub fn entry(self, entry: usize) -> Place<'a> {
        Place {
            entry: Some(entry),
            ..self
        }
    }

    /// This member of the object: of the whole, of an entry, or of an item.
    pub fn part(self, name: &'a str) -> Place<'a> {
        match (self.member, self.item) {
            (None, _) => Place::member(name),
            (Some(_), None) => Place {
                part: Some(name),
                ..self
            },
            (Some(_), Some(_)) => Place {
                inner: Some(name),
                ..self
            },
        }
    }

    /// This item of the list.
    pub fn item(self, item: usize) -> Place<'a> {
        Place {
            item: Some(item),
            ..self
        }
    }

    /// This half of a pair.
    pub fn half(self, half: usize) -> Place<'a> {
        Place {
            half: Some(half),
            ..self
        }
    }

    /// The same place, which is for the link into the node of this name.
    pub fn of_link(self, name: &'a str) -> Place<'a> {
        Place {
            owner: Some(("the link into ", name)),
            ..self
        }
    }

    /// The same place, which is for the node of this name.
    pub fn of_node(self, name: &'a str) -> Place<'a> {
        Place {
            owner: Some(("node ", name)),
            ..self
        }
    }

    /// Adds the path, and in brackets the link or the node.
    pub fn push_to(&self, line: &mut String) -> Result<(), AllocError> {
        if let Some((row, column)) = self.spot {
            return push_spot(line, row, column);
        }
        let Some(member) = self.member else {
            return line.push_str("the job");
        };
        push_member(line, member)?;
        push_index(line, self.entry)?;
        push_part(line, self.part)?;
        push_index(line, self.item)?;
        push_index(line, self.half)?;
        push_part(line, self.inner)?;
        self.push_owner(line)
    }

    /// Adds what the entry is for.
    fn push_owner(&self, line: &mut String) -> Result<(), AllocError> {
        let Some((words, name)) = self.owner else {
            return Ok(());
        };
        line.push_str(" (")?;
        line.push_str(words)?;
        line.push_str(name)?;
        line.push_str(")")
    }
}

/// Adds a line and a column.
fn push_spot(line: &mut String, row: usize, column: usize) -> Result<(), AllocError> {
    line.push_str("line ")?;
    push_number(line, row as u64)?;
    line.push_str(", column ")?;
    push_number(line, column as u64)
}

/// Adds the member of an object.
fn push_part(line: &mut String, part: Option<&str>) -> Result<(), AllocError> {
    let Some(part) = part else {
        return Ok(());
    };
    line.push_str(".")?;
    push_member(line, part)
}

/// Adds the place in a list.
fn push_index(line: &mut String, index: Option<usize>) -> Result<(), AllocError> {
    let Some(index) = index else {
        return Ok(());
    };
    line.push_str("[")?;
    push_number(line, index as u64)?;
    line.push_str("]")
}

/// Adds the name of a member: as it is where it is a plain word, and else in quotation marks.
fn push_member(line: &mut String, name: &str) -> Result<(), AllocError> {
    if is_plain(name) {
        line.push_str(name)
    } else {
        push_quoted(line, name)
    }
}

/// The most bytes of a plain word.
const MAX_PLAIN: usize = 40;

/// Whether a name is a plain word: letters, digits and `_`.
fn is_plain(name: &str) -> bool {
    let bytes = name.as_bytes();
    !bytes.is_empty()
        && bytes.len() <= MAX_PLAIN
        && bytes
            .iter()
            .all(|b| b.is_ascii_alphanumeric() || *b == b'_')
}
