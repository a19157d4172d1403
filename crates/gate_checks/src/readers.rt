//! The readers of starts and scripts. The object of such a call is what it reads.

use crate::again::{Calls, Made, make_rows, push_answer};
use crate::texts::Texts;
use serde_json::Value;
use stab_core::Start;
use stab_script::{Script, read_script, read_start};
use std::alloc::{AllocError, Global};

/// What is read: starts with all members, without lists, and of a wrong shape behind two good
/// lists; scripts of letters, of none, drawn, and refused for their letters or their numbers.
const TEXTS: [(&str, Reader, &str); 8] = [
    (
        "read_start",
        Reader::Start,
        r#"{"frames":[[2,99],[3,7],[1,4294967295]],"acks":[0,65535],"send":0,"recv":1}"#,
    ),
    ("read_start", Reader::Start, r#"{"send":5,"recv":6}"#),
    (
        "read_start",
        Reader::Start,
        r#"{"frames":[[2,99]],"acks":[0],"send":0}"#,
    ),
    (
        "read_script",
        Reader::Script,
        r#"{"frames_out":"PDEP","frames_in":"TK","acks_out":"D","acks_in":"KKT"}"#,
    ),
    ("read_script", Reader::Script, "null"),
    (
        "read_script",
        Reader::Script,
        r#"{"seed":[42,54],"length":6,"loss":300,"repeat":400}"#,
    ),
    (
        "read_script",
        Reader::Script,
        r#"{"frames_out":"PDE","acks_in":"TX"}"#,
    ),
    (
        "read_script",
        Reader::Script,
        r#"{"seed":[42,54],"length":6,"loss":1001,"repeat":0}"#,
    ),
];

/// Which reader it is.
#[derive(Clone, Copy)]
enum Reader {
    Start,
    Script,
}

/// The JSON value of a text.
#[derive(Drop)]
struct Read {
    alloc: Global,
    value: Value,
}

/// Makes the calls of the readers, each on a text.
pub fn make_all(alloc: Global, texts: &mut Texts) -> Result<(), AllocError> {
    for (name, reader, text) in &TEXTS {
        make_rows::<Read>(alloc, texts, "a value", *text, &[(1, &[(*name, *reader)])])?;
    }
    Ok(())
}

/// The value that a text means.
fn value_of(alloc: Global, text: &str) -> Result<Value, AllocError> {
    Value::from_str(alloc, text).ok().ok_or(AllocError)
}

/// The start that a text means.
pub fn start_of(alloc: Global, text: &str) -> Result<Start, AllocError> {
    let value = value_of(alloc, text)?;
    read_start(alloc, &value).ok().ok_or(AllocError)
}

/// The script that a text means.
pub fn script_of(alloc: Global, text: &str) -> Result<Script, AllocError> {
    let value = value_of(alloc, text)?;
    read_script(alloc, &value).ok().ok_or(AllocError)
}

impl Made for Read {
    type Given = &'static str;

    fn new(alloc: Global, text: &'static str) -> Result<Read, AllocError> {
        let value = value_of(alloc, text)?;
        Ok(Read { alloc, value })
    }
}

impl Calls for Read {
    type Call = Reader;

    fn push_object(&self, text: &mut String) -> Result<(), AllocError> {
        write!(text, "{}", self.value)
    }

    fn make(&mut self, reader: &Reader, text: &mut String) -> Result<(), AllocError> {
        match reader {
            Reader::Start => push_answer(text, read_start(self.alloc, &self.value)),
            Reader::Script => push_answer(text, read_script(self.alloc, &self.value)),
        }
    }
}
