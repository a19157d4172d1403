//! A call that may be refused memory, and how it is made.

use crate::texts::Texts;
use std::alloc::{AllocError, Global};
use std::fmt::{Debug, Display};

/// An object, with the calls that are made on it.
pub trait Calls: Drop {
    /// Which call it is, with its arguments.
    type Call;

    /// What comes before the name of a call.
    fn owner(&self, _call: &Self::Call) -> &'static str {
        ""
    }

    /// Adds everything that the object holds.
    fn push_object(&self, text: &mut String) -> Result<(), AllocError>;

    /// Makes a call and adds its answer, or says that memory was refused.
    fn make(&mut self, call: &Self::Call, text: &mut String) -> Result<(), AllocError>;
}

/// An object that is made of what is given.
pub trait Made: Calls {
    /// What it is made of.
    type Given: Copy;

    /// The object, or that memory was refused.
    fn new(alloc: Global, given: Self::Given) -> Result<Self, AllocError>;
}

/// Calls with their names, and how often they are made one after the other.
pub type Row<'a, C> = (u32, &'a [(&'a str, C)]);

/// What a fault says at its end where memory, or the start of a worker, was refused.
const REFUSALS: [&str; 3] = [
    "out of memory",
    "memory allocation failed",
    "a worker could not be started",
];

/// Makes a call, once more if it is refused, and tells its answer. If the refused call changed its
/// object, both states are told.
fn again<C: Calls>(
    texts: &mut Texts,
    name: &str,
    object: &mut C,
    call: &C::Call,
) -> Result<(), AllocError> {
    let owner = object.owner(call);
    object.push_object(&mut texts.before)?;
    if object.make(call, &mut texts.answer).is_err() {
        object.push_object(&mut texts.after)?;
        texts.tell_refused(owner, name)?;
        object.make(call, &mut texts.answer)?;
    }
    texts.tell_answer(owner, name)
}

/// Makes the calls of a row.
pub fn make_row<C: Calls>(
    texts: &mut Texts,
    object: &mut C,
    row: &Row<'_, C::Call>,
) -> Result<(), AllocError> {
    let (times, calls) = *row;
    for _ in 0..times {
        for (name, call) in calls {
            again(texts, name, object, call)?;
        }
    }
    Ok(())
}

/// Makes an object, and the calls of some rows on it.
pub fn make_rows<C: Made>(
    alloc: Global,
    texts: &mut Texts,
    what: &str,
    given: C::Given,
    rows: &[Row<'_, C::Call>],
) -> Result<(), AllocError> {
    let mut object = new_object::<C>(alloc, texts, what, given)?;
    for row in rows {
        make_row(texts, &mut object, row)?;
    }
    Ok(())
}

/// Makes an object, once more where memory was refused, and then names it.
fn new_object<C: Made>(
    alloc: Global,
    texts: &mut Texts,
    what: &str,
    given: C::Given,
) -> Result<C, AllocError> {
    if let Ok(object) = C::new(alloc, given) {
        return Ok(object);
    }
    texts.tell_refused("", what)?;
    C::new(alloc, given)
}

/// Adds an answer, or its fault.
pub fn push_answer<T: Debug + Drop, E: Display + Drop>(
    text: &mut String,
    answer: Result<T, E>,
) -> Result<(), AllocError> {
    match answer {
        Ok(answer) => write!(text, "{answer:?}"),
        Err(fault) => push_fault(text, &fault),
    }
}

/// Adds a fault, or says that memory, or the start of a worker, was refused.
pub fn push_fault<E: Display>(text: &mut String, fault: &E) -> Result<(), AllocError> {
    write!(text, "{fault}")?;
    let out_of_memory = text.ends_with(REFUSALS[0]) || text.ends_with(REFUSALS[1]);
    if out_of_memory || text.ends_with(REFUSALS[2]) {
        Err(AllocError)
    } else {
        Ok(())
    }
}
