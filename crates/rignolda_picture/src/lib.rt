//! Runs as pictures: an SVG that stands alone, with time going downwards, the two ends of each link
//! as two vertical lines, and what is in its queues between them.
//!
//! A picture is drawn from the rows of `rignolda_draw`, which are proved to be those of the replay,
//! and from the starts. That it can be drawn without a fault, and why a job has none, is proved;
//! how it looks is not. What it is drawn with are shapes and words as elements of SVG, in four
//! layers; the classes of its style; and its sizes.
#![tactic(auto)]

mod canvas;
mod drawing;
mod end;
mod ending;
mod events;
mod faults;
mod head;
mod ink;
mod items;
mod page;
mod panel;
mod picture;
mod point;
mod scenario;
mod shapes;
mod sheet;
mod style;
mod words;

pub use picture::{link_picture, schedule_picture};
pub use scenario::scenario_picture;
