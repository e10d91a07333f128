//! The image is named in the type, since nothing else is known of a value that comes out of a lock. So closing can say about
//! the room that it returns what was known of the room that was lent.

use board::Naming;
use std::marker::Brand;

/// Which history an engine's board is written in, and which image its room was opened from. Only contracts see it: each
/// call of a program picks it.
pub trait Origin: Naming {
    ghost use Rattle.base.specs.Images.{Image};

    ghost image: { Image };
}

impl Origin for Brand {
    ghost use Rattle.std.specs.Prelude.{[]};

    ghost image = { [] };
}
