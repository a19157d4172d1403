ghost use Rattle.std.specs.Prelude.{◌≡◌, ◌==◌, not};
ghost use Rattle.rignolda_agent.specs.Numbers.{is_newer, next as after_number};
ghost use Rattle.rignolda_agent.specs.Publishers.{after_body, begun, entries, gone_above};
ghost use Rattle.rignolda_agent.specs.Publishers.{is_in_a_round, new, next, publisher_of, waits};
ghost use Rattle.rignolda_settings_c.specs.Kinds.{kind_byte};

use rignolda_agent::{Next, Publisher};

/// The body to publish next.
#[repr(C)]
#[derive(Clone, Copy)]
pub struct NextBody {
    /// Its number.
    pub number: u64,
    /// How many entries it has: the first changes that wait, or all settings.
    pub entries: u64,
    /// `C` for changes, `T` for a whole table, `H` for a harmless one, or 0 where nothing is to be
    /// published.
    pub kind: u8,
}

fn kind_byte(next: Next) -> u8
    ensures { result ≡ kind_byte next }
{
    match next {
        Next::Nothing => 0,
        Next::Harmless => b'H',
        Next::Changes => b'C',
        Next::Whole => b'T',
    }
}

/// Makes a publisher whose bodies have the numbers after this one. It begins with the whole table.
#[unsafe(no_mangle)]
pub extern "C" fn rignolda_publisher_init(publisher: &mut Publisher, number: u64)
    ensures { publisher_of publisher.new ≡ new number }
{
    *publisher = Publisher::new(number);
}

/// A round with so many harmless bodies begins. One that is under way goes on instead, with no more
/// bodies than that.
#[unsafe(no_mangle)]
pub extern "C" fn rignolda_publisher_begin_round(publisher: &mut Publisher, harmless: u32)
    ensures { publisher_of publisher.new ≡ begun (publisher_of publisher.old) harmless }
{
    publisher.begin_round(harmless);
}

/// Goes on above this number, which an agent has, with a whole table first, if it is newer than the
/// last one. Whether it is. Where it is ahead by more than a quarter of all numbers, it goes on by
/// a quarter, so that those who have the last number take that table, and is above it when it is
/// called again.
#[unsafe(no_mangle)]
pub extern "C" fn rignolda_publisher_go_above(publisher: &mut Publisher, number: u64) -> bool
    ensures newer { result ≡ is_newer publisher.old.number number }
    ensures after { publisher_of publisher.new ≡ gone_above (publisher_of publisher.old) number }
{
    publisher.go_above(number)
}

#[unsafe(no_mangle)]
pub extern "C" fn rignolda_publisher_is_in_a_round(publisher: &Publisher) -> bool
    ensures { result ≡ is_in_a_round (publisher_of publisher.now) }
{
    publisher.is_in_a_round()
}

/// Where `holds` is not 0: publishes no table from now on, and nothing of a round. Else does again.
#[unsafe(no_mangle)]
pub extern "C" fn rignolda_publisher_hold(publisher: &mut Publisher, holds: u8)
    ensures { publisher_of publisher.new
        ≡ record (publisher_of publisher.old) { held = not (holds == 0) } }
{
    publisher.hold(holds != 0);
}

/// Whether something is to be published, where this number of changes waits.
#[unsafe(no_mangle)]
pub extern "C" fn rignolda_publisher_waits(publisher: &Publisher, changes: u64) -> bool
    ensures { result ≡ waits (publisher_of publisher.now) changes }
{
    publisher.waits(changes)
}

/// Says which body is published next, where this number of changes waits, there are so many
/// settings, and so many bodies may follow a table.
#[unsafe(no_mangle)]
pub extern "C" fn rignolda_publisher_next(
    publisher: &Publisher,
    changes: u64,
    settings: u64,
    limit: u64,
    body: &mut NextBody,
)
    ensures kind { body.new.kind ≡ kind_byte (next (publisher_of publisher.now) changes limit) }
    ensures number { body.new.number ≡ after_number publisher.now.number }
    ensures entries { body.new.entries
        ≡ entries (next (publisher_of publisher.now) changes limit) changes settings }
{
    let next = publisher.next(changes, limit);
    *body = NextBody {
        number: publisher.next_number(),
        entries: next.entries(changes, settings),
        kind: kind_byte(next),
    };
}

/// Publishes what is next, a body that has so many bytes: its kind.
#[unsafe(no_mangle)]
pub extern "C" fn rignolda_publisher_publish(
    publisher: &mut Publisher,
    changes: u64,
    limit: u64,
    bytes: u64,
) -> u8
    ensures kind { result ≡ kind_byte (next (publisher_of publisher.old) changes limit) }
    ensures after { publisher_of publisher.new
        ≡ after_body (next (publisher_of publisher.old) changes limit)
        (publisher_of publisher.old) bytes }
    ensures refused { result ≡ 0 → publisher.new ≡ publisher.old }
{
    kind_byte(publisher.publish(changes, limit, bytes))
}
