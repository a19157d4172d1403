//! How the options of a random job are refused, which the command line refuses before.

use rignolda_make::{DrawOptions, OptionsFault, RandomFault, random_text};
use stab_frames::ParamsFault;
use std::alloc::Global;

/// The options of a small job.
const SMALL: DrawOptions = DrawOptions {
    seed: 1,
    nodes: 8,
    items: 10,
    capacity: 2,
    labels: None,
    turns: 1000,
    loss: 100,
    repeat: 100,
    hold: 2,
    steps: 40,
};

const NODES: OptionsFault = OptionsFault::NodesOutOfRange;

const CAPACITY: OptionsFault = OptionsFault::Params(ParamsFault::CapacityOutOfRange);

const LABELS: OptionsFault = OptionsFault::Params(ParamsFault::LabelsTooFew);

const TURNS: OptionsFault = OptionsFault::TurnsOutOfRange;

const RATE: OptionsFault = OptionsFault::RateOutOfRange;

/// Options with one mistake each, and what is said of it.
const MISTAKEN: &[(DrawOptions, OptionsFault)] = &[
    (DrawOptions { nodes: 0, ..SMALL }, NODES),
    (DrawOptions { nodes: 65, ..SMALL }, NODES),
    (
        DrawOptions {
            items: 10_001,
            ..SMALL
        },
        OptionsFault::TooManyItems,
    ),
    (
        DrawOptions {
            capacity: 65,
            ..SMALL
        },
        CAPACITY,
    ),
    (
        DrawOptions {
            labels: Some(5),
            ..SMALL
        },
        LABELS,
    ),
    (DrawOptions { turns: 0, ..SMALL }, TURNS),
    (
        DrawOptions {
            turns: 1_000_001,
            ..SMALL
        },
        TURNS,
    ),
    (
        DrawOptions {
            loss: 1001,
            ..SMALL
        },
        RATE,
    ),
    (
        DrawOptions {
            repeat: 1001,
            ..SMALL
        },
        RATE,
    ),
    (
        DrawOptions { hold: 65, ..SMALL },
        OptionsFault::HoldOutOfRange,
    ),
    (
        DrawOptions {
            steps: 500_001,
            ..SMALL
        },
        OptionsFault::TooManySteps,
    ),
];

/// Why no job is drawn by these options, if none is.
fn fault_of(alloc: Global, drawn_by: &DrawOptions) -> Option<RandomFault> {
    random_text(alloc, drawn_by).err()
}

#[test]
fn refuses_options_out_of_range(rt: HostRuntime) {
    for (drawn_by, wanted) in MISTAKEN {
        let fault = fault_of(rt.alloc(), drawn_by);
        assert!(rt; fault == Some(RandomFault::Options(*wanted)), "{fault:?}");
    }
}
