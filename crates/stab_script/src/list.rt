ghost use Rattle.std.specs.Prelude.{◌<◌, ℕ, List, length, IfSome, IfOk};
ghost use Rattle.json.specs.Token.{Token as SpecToken};
ghost use Rattle.stab_json.specs.Values.{list_of};
ghost use Rattle.stab_script.specs.Plain.{IsInList, IsList, IsRead};
ghost use Rattle.stab_script.specs.Standing.{MeansWithin, EntriesMean};

use crate::entry::Entry;
use json::{Reader, Token};
use std::alloc::{AllocError, Global};

/// What the entries of a list mean, whose opening bracket was taken.
fn read_entries<E: Entry>(
    alloc: Global,
    reader: &mut Reader<'_>,
) -> Result<Option<Vec<E::Read>>, AllocError>
    ensures value { IfOk result (λ found. IfSome found (λ list. (depth : ℕ) → 0 < depth
        → EntriesMean depth E.meaning (length reader.old) reader.old list.items reader.new)) }
    ensures shorter { IfOk result (λ found. IfSome found (λ _.
        length reader.new < length reader.old)) }
    ensures plain { IfOk result (λ found. (rest : List SpecToken)
        → IsInList E.form reader.old rest → IsRead found reader.new rest) }
{
    let mut list = Vec::new(alloc);
    'entries: while !reader.take_end_array() {
        let Some(entry) = E::next(reader) else {
            return Ok(None);
        };
        list.push(entry)?;
    }
    Ok(Some(list))
}

/// What the list that comes next means, where each entry has its plain form.
pub(crate) fn read_list<E: Entry>(
    alloc: Global,
    reader: &mut Reader<'_>,
) -> Result<Option<Vec<E::Read>>, AllocError>
    ensures value { IfOk result (λ found. IfSome found (λ list. (depth : ℕ) → 1 < depth
        → MeansWithin depth (list_of E.meaning) reader.old list.items reader.new)) }
    ensures shorter { IfOk result (λ found. IfSome found (λ _.
        length reader.new < length reader.old)) }
    ensures plain { IfOk result (λ found. (rest : List SpecToken)
        → IsList E.form reader.old rest → IsRead found reader.new rest) }
{
    let Some(Token::BeginArray) = reader.next() else {
        return Ok(None);
    };
    let Some(list) = read_entries::<E>(alloc, reader)? else {
        return Ok(None);
    };
    Ok(Some(list))
}
