use crate::{
    Expect, Fault, Greeting, Refusal, frame_head, is_name, message, range, refused, reports,
    versions, word, write_head, write_refusal, write_up,
};

/// Messages as `tests/daemon/protocol.py` makes them by Python's `struct`, and how many
/// bytes each has before the names, the body or the text at its end.
static MESSAGES: [(Expect, &[u8], usize); 15] = [
    (
        Expect::Hello,
        b"RGND\x01\x00\x00\x00\x00\x00\x00\x01\x02\x00\x07\x01a\x03hub",
        21,
    ),
    (
        Expect::Hello,
        b"RGNL\x02\xf73/\xc9\x9fZ\xed\x02\x01\x04\x01a\x00",
        18,
    ),
    (Expect::Way, b"W\x00\x02\x00\x05hub\nr", 5),
    (
        Expect::Frames,
        b"F\x00\x03\x00\x00\x00\x07\x00\x00\x00\x01b",
        11,
    ),
    (
        Expect::Frames,
        b"D\x00\x03\x0a\x0b\x0c\x0d\x00\x00\x00\x05T\x00\x00\x00\x00\x00\x00\x00\x09\
          66666666666666666666666666666666",
        52,
    ),
    (Expect::Frames, b"Q", 1),
    (
        Expect::NumberedWay,
        b"V\x00\x00\x00\x00\x00\x00\x00\x09\x00\x02\x00\x05hub\nr",
        13,
    ),
    (
        Expect::SignedFrames,
        b"S\x00\x03\x00\x00\x00\x07\x00\x02us\x00\x00\x00\x01b",
        15,
    ),
    (
        Expect::SignedFrames,
        b"B\x00\x03\x0a\x0b\x0c\x0d\x00\x00\x00\x05T\x00\x00\x00\x00\x00\x00\x00\x09\
          66666666666666666666666666666666\x00\x02us",
        56,
    ),
    (Expect::SignedFrames, b"E\x00\x09", 3),
    (Expect::SignedFrames, b"Q", 1),
    (Expect::Acks, b"A\x01\x02", 3),
    (Expect::Acks, b"N\x00\x09", 3),
    (Expect::Acks, b"R\x00\x00\x00\x02[]", 5),
    (Expect::Acks, b"G", 1),
];

/// Whether what these bytes say, all of them, is written again, with a head of this length.
fn is_written_again(expect: Expect, text: &[u8], head: usize) -> bool {
    let Ok((it, rest)) = message(expect, text) else {
        return false;
    };
    let mut buffer = [0u8; 64];
    let end = write_head(&mut buffer, &it);
    if end != Some(head) || !rest.is_empty() {
        return false;
    }
    begins_alike(&buffer, text, head)
}

/// Whether so many bytes in front are the same.
fn begins_alike(one: &[u8], other: &[u8], count: usize) -> bool {
    for i in 0..count {
        if one.get(i).is_none() || one.get(i) != other.get(i) {
            return false;
        }
    }
    true
}

#[test]
fn reads_and_writes_each_message(rt: HostRuntime) {
    for (i, (expect, text, head)) in MESSAGES.iter().enumerate() {
        assert!(rt; is_written_again(*expect, text, *head), "message {i}");
    }
}

/// What is refused, and of what more has to come, as the pages say.
static FAULTS: [(Expect, &[u8], Fault); 25] = [
    (Expect::Hello, b"GET / HTTP/1.1\r\n", Fault::NoHello),
    (Expect::Hello, b"", Fault::More),
    (Expect::Hello, b"RGND\x00", Fault::NoVersion),
    (Expect::Hello, b"RGNL\x01", Fault::NoVersion),
    (Expect::Hello, b"RGND\xff\x00\x00", Fault::More),
    (
        Expect::Hello,
        b"RGND\x01\x00\x00\x00\x00\x00\x00\x00\x00\x00\x00\x41",
        Fault::NoName,
    ),
    (
        Expect::Hello,
        b"RGND\x01\x00\x00\x00\x00\x00\x00\x00\x00\x00\x00\x40",
        Fault::More,
    ),
    (
        Expect::Hello,
        b"RGND\x01\x00\x00\x00\x00\x00\x00\x00\x00\x00\x00\x03a/b",
        Fault::NoName,
    ),
    (Expect::Way, b"W\x00\x01\x20\x81", Fault::LongWay),
    (Expect::Way, b"W\x00\x01\x20\x80", Fault::More),
    (Expect::Way, b"W\x00\x01\x00\x03a\n\n", Fault::NoNameOfWay),
    (Expect::Way, b"F", Fault::NoMessage),
    (
        Expect::Frames,
        b"F\x00\x00\x00\x00\x00\x00\x01\x00\x00\x01",
        Fault::LongBody,
    ),
    (
        Expect::Frames,
        b"F\x00\x00\x00\x00\x00\x00\x01\x00\x00\x00",
        Fault::More,
    ),
    (
        Expect::Frames,
        b"D\x00\x00\x00\x00\x00\x00\xff\xff\xff\xff",
        Fault::LongBody,
    ),
    (Expect::Frames, b"V", Fault::NoMessage),
    (Expect::NumberedWay, b"W", Fault::NoMessage),
    (Expect::SignedFrames, b"F", Fault::NoMessage),
    (
        Expect::SignedFrames,
        b"S\x00\x00\x00\x00\x00\x00\x04\x01",
        Fault::LongSignature,
    ),
    (
        Expect::SignedFrames,
        b"S\x00\x00\x00\x00\x00\x00\x04\x00",
        Fault::More,
    ),
    (
        Expect::SignedFrames,
        b"S\x00\x00\x00\x00\x00\x00\x00\x00\x01\x00\x00\x01",
        Fault::LongBody,
    ),
    (Expect::SignedFrames, b"E\x00", Fault::More),
    (Expect::Acks, b"W", Fault::NoMessage),
    (Expect::Acks, b"R\x00\x10\x00\x01", Fault::LongReport),
    (Expect::Acks, b"R\x00\x10\x00\x00", Fault::More),
];

fn has_fault(expect: Expect, text: &[u8], want: Fault) -> bool {
    match message(expect, text) {
        Ok(_) => false,
        Err(fault) => fault == want,
    }
}

#[test]
fn refuses_what_is_no_message(rt: HostRuntime) {
    for (i, (expect, text, want)) in FAULTS.iter().enumerate() {
        assert!(rt; has_fault(*expect, text, *want), "row {i}");
    }
}

/// Whether a child's word, its hello and that it has set three reports, is read as it was written.
fn is_read_again(greeting: &Greeting<'_>) -> bool {
    let mut buffer = [0u8; 64];
    let Some(end) = write_up(&mut buffer, greeting, 3) else {
        return false;
    };
    let Some(text) = buffer.get(..end) else {
        return false;
    };
    match word(text) {
        Some((it, behind)) => it.label == greeting.label && reports(behind) == Some(3),
        None => false,
    }
}

#[test]
fn reads_words_of_stores(rt: HostRuntime) {
    let greeting = Greeting {
        version: 1,
        life: 258,
        label: 7,
        from: b"a",
        to: b"hub",
    };
    assert!(rt; is_read_again(&greeting));
    let head = frame_head(b"F\x00\x03\x00\x00\x00\x07\x00\x00\x00\x09b");
    assert!(rt; head.is_some_and(|it| (it.label, it.item, it.len) == (3, 7, 9)));
    assert!(rt; reports(b"\x00\x00\x00\x03\x00").is_none());
}

/// Whether an end that expects this is told this reason so, and understands it.
fn is_understood(expect: Expect, why: Refusal, told: &[u8]) -> bool {
    let mut buffer = [0u8; 8];
    write_refusal(&mut buffer, expect, why) == Some(told.len())
        && begins_alike(&buffer, told, told.len())
        && refused(expect, told) == Some(why)
}

#[test]
fn says_why_an_end_is_refused(rt: HostRuntime) {
    assert!(rt; is_understood(Expect::Hello, Refusal::NotSaid, b"RGNL\x02"));
    assert!(rt; is_understood(Expect::Hello, Refusal::Full, b"RGNL\x02\xff\x06"));
    assert!(rt; is_understood(Expect::Frames, Refusal::Twin, b"W\xff\x07"));
    assert!(rt; is_understood(Expect::SignedFrames, Refusal::Twin, b"V\xff\x07"));
    assert!(rt; refused(Expect::Hello, b"RGNL\x02\xff\x63") == Some(Refusal::NotSaid));
    assert!(rt; refused(Expect::Acks, b"RGNL\x02").is_none());
}

#[test]
fn says_versions_in_the_place_of_a_label(rt: HostRuntime) {
    assert!(rt; range(1, 4) == 260);
    for (version, label, want) in [(2, 260, (1, 4)), (2, 7, (2, 2)), (1, 260, (1, 1))] {
        let greeting = Greeting {
            version,
            life: 0,
            label,
            from: b"a",
            to: b"",
        };
        assert!(rt;
            versions(&greeting) == want,
            "version {version}, label {label}"
        );
    }
    assert!(rt; is_name(b"host31.a_b-c") && !is_name(b".a") && !is_name(b""));
}
