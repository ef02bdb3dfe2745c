//! Bare images: a text that describes the core of a machine, its descriptor segment base register
//! and where it starts.
//!
//! [`read_image`] parses one. It returns exactly the state that the text describes; or the first
//! line with a code, and the least code of that line; or `NoMemory`. The parsers of single lines,
//! [`core_line`], [`at_line`] and [`put_line_into_core`], and the [`registers`] of a start are
//! used for other files with such lines.
//!
//! `specs/BareImage.antt` has the grammar, and `specs/ImageState.antt` the state that an image
//! describes.
//!
//! The form of the text is this simulator's own; registers and core are those of the Multics
//! Processor Manual AL39.
#![tactic(auto)]

pub mod core_words;
pub mod forms;
mod header;
pub mod image;
pub mod placed;
pub mod refusal;

pub use core_words::put_line_into_core;
pub use forms::core_line;
pub use image::{Image, read_image, registers};
pub use placed::{Placed, at_line};
pub use refusal::{ImageCode, ImageFault, Refusal};
